// What a call answers: the report of a run, and that of a call without one. Document 01, "FM" and "Numbers a call gives back".
ghost use Rattle.std.specs.Prelude.{◌≡◌, ◌≤◌, pos, length};
ghost use Rattle.lists.specs.Fill.{filled};
ghost use Rattle.lists.specs.End.{end_number};
ghost use Rattle.lists.specs.Refusal.{number_of};
ghost use Rattle.fiduccia_mattheyses.specs.Entry.{refused, empty};

use crate::{Ended, Report};
use imbalance::Loads;
use lists::{End, Refusal};

// What a run ends with: zeros in the gains' first n places, and the report.
pub fn finish(gains: &mut [i64], n: usize, run: Ended, first_cut: u64) -> Report
    requires { n ≤ length gains.old }
    ensures { (gains.new ≡ filled (pos 0) n gains.old) × (result ≡ record { number = 0; end = end_number run.end; passes = run.passes; first = first_cut; last = run.cut; loads = run.loads }) }
{
    lists::fill(gains, n, 0);
    Report {
        number: 0,
        end: u32::from(run.end),
        passes: run.passes,
        first: first_cut,
        last: run.cut,
        loads: run.loads,
    }
}

// Zeros in every place of a report.
const ZEROS: Report = Report {
    number: 0,
    end: 0,
    passes: 0,
    first: 0,
    last: 0,
    loads: Loads { at: [0; 16] },
};

// The report of a refused call: zeros but for the refusal's number.
pub fn refused_report(refusal: Refusal) -> Report
    ensures { result ≡ refused (number_of refusal) }
{
    Report {
        number: u32::from(refusal),
        ..ZEROS
    }
}

// The report of a call without a vertex: zeros but for the end.
pub fn empty_report() -> Report
    ensures { result ≡ empty }
{
    Report {
        end: u32::from(End::NoVertex),
        ..ZEROS
    }
}
