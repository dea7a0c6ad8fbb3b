// Replays the oracle's answers: reads cases from standard input, calls the library on each, and prints how many agree. Document 01, its opening: coupe decides labels and counts.
//
// One case a line, decimal numbers with one blank between them; a line that begins with '#' is passed over:
//
//     CODE n a weights[n] starts[n+1] neighbours[a] arcs[a] labels[n] EXPECTED
//
// CODE 1 is the edge cut and 2 the lambda cut, each with one number EXPECTED; 3 is the loads, with sixteen. 4 is FM, 5 KL and
// 6 arc-swap: EXPECTED begins with the settings then, as refiners.rt reads them, and ends with the labels left.
// A line that is not of this form counts as one that differs.
#![tactic(auto)]

mod algorithm; // algorithm.rt: the algorithms, by their codes and names
mod answers; // answers.rt: the cuts and the loads
mod case; // case.rt: what a line gives to call an algorithm on
mod output; // output.rt: standard output
mod reader; // reader.rt: standard input, number by number
mod refiners; // refiners.rt: FM, KL and arc-swap
mod tally; // tally.rt: how many cases agree and differ

use algorithm::{Algorithm, Asked};
use case::Room;
use output::Output;
use reader::{Mismatch, Reader};
use std::fmt;
use std::fmt::Write;
use tally::Tally;

// The first cases of an algorithm that differ are named by their line of the input.
const MOST_NAMED: u64 = 10;

// Calls the algorithm on the case of a line, from what follows its code, and holds its answer to the rest of the line. A line that names no algorithm is no case.
fn replay(asked: Asked, reader: &mut Reader, room: &mut Room) -> Result<(), Mismatch> {
    let Some(algorithm) = asked.algorithm else {
        return Err(Mismatch::NotOfTheForm);
    };
    reader.skip_blank()?;
    let case = room.read_case(reader)?;
    match algorithm {
        Algorithm::EdgeCut => answers::edge_cut(case, reader)?,
        Algorithm::LambdaCut => answers::lambda_cut(case, reader)?,
        Algorithm::Loads => answers::loads(case, reader)?,
        Algorithm::FiducciaMattheyses => refiners::fiduccia_mattheyses(case, reader)?,
        Algorithm::KernighanLin => refiners::kernighan_lin(case, reader)?,
        Algorithm::ArcSwap => refiners::arc_swap(case, reader)?,
    }
    reader.expect_end()
}

// Counts a case that differs, and names it where it is one of the first.
fn note_difference(tally: &mut Tally, asked: Asked, number: u64) -> fmt::Result {
    if MOST_NAMED < tally.differ(asked) {
        return Ok(());
    }
    write!(Output, "{asked}: line {number} differs\n")
}

// What cannot be written is lost, and the cases are replayed all the same.
fn main() {
    let mut reader = Reader::new();
    let mut room = Room::new();
    let mut tally = Tally::new();
    for number in 1..=reader::MOST_READ {
        let Some(first) = reader.peek() else {
            break;
        };
        if first != b'#' {
            let asked = Asked::by_code(reader.read_digits());
            if replay(asked, &mut reader, &mut room).is_ok() {
                tally.agree(asked);
            } else {
                let _ = note_difference(&mut tally, asked, number);
            }
        }
        reader.next_line();
    }
    let _ = write!(Output, "{tally}");
}
