// What a call answers: a refusal, a call without a vertex, and the report of a run. Document 01, "Arc-swap" and "Numbers a call gives back".
ghost use Rattle.std.specs.Prelude.{◌≡◌};
ghost use Rattle.lists.specs.End.{end_number};
ghost use Rattle.lists.specs.Refusal.{number_of};
ghost use Rattle.arc_swap.specs.Entry.{refused, empty};

use crate::{Ended, Report};
use imbalance::Loads;
use lists::{End, Refusal};

// Zeros in every place of a report.
const ZEROS: Report = Report {
    number: 0,
    end: 0,
    passes: 0,
    first: 0,
    last: 0,
    loads: Loads { at: [0; 16] },
};

// The report of a refused call: zeros but for the refusal's number.
pub fn refused_report(refusal: Refusal) -> Report
    ensures { result ≡ refused (number_of refusal) }
{
    Report {
        number: u32::from(refusal),
        ..ZEROS
    }
}

// The report of a call without a vertex: zeros but for the end.
pub fn empty_report() -> Report
    ensures { result ≡ empty }
{
    Report {
        end: u32::from(End::NoVertex),
        ..ZEROS
    }
}

// The report of a run from the first cut.
pub fn run_report(first: u64, ended: Ended) -> Report
    ensures { result ≡ record { number = 0; end = end_number ended.end; passes = ended.passes; first = first; last = ended.st.cut; loads = ended.st.loads } }
{
    Report {
        number: 0,
        end: u32::from(ended.end),
        passes: ended.passes,
        first,
        last: ended.st.cut,
        loads: ended.st.loads,
    }
}
