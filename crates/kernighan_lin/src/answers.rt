// What a call answers: a refusal, and the report of a run. Document 01, "KL" and "Numbers a call gives back".
ghost use Rattle.std.specs.Prelude.{◌≡◌};
ghost use Rattle.lists.specs.End.{end_number};
ghost use Rattle.lists.specs.Refusal.{number_of};
ghost use Rattle.kernighan_lin.specs.Entry.{refused};

use crate::Report;
use lists::{End, Refusal};

// The report of a refused call: zeros but for the refusal's number.
pub fn refused_report(refusal: Refusal) -> Report
    ensures { result ≡ refused (number_of refusal) }
{
    Report {
        number: u32::from(refusal),
        end: 0,
        passes: 0,
        first: 0,
        last: 0,
    }
}

// The report of a run.
pub fn run_report(end: End, passes: u32, first: u64, last: u64) -> Report
    ensures { result ≡ record { number = 0; end = end_number end; passes = passes; first = first; last = last } }
{
    Report {
        number: 0,
        end: u32::from(end),
        passes,
        first,
        last,
    }
}
