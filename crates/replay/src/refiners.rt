// FM, KL and arc-swap: each reads its settings, calls the library, and holds its report and the labels that it leaves to the rest of the line. Document 01, its opening: coupe decides labels and counts.
// The memory that is lent is full of sevens, so that an answer differs where the library reads what it has not written.
use crate::case::Case;
use crate::reader::{Mismatch, Reader};
use imbalance::Ceiling;
use std::num::f64_from_bits_with_nan;

// The number of these bits, or 0 where they are a NaN's: the list has none.
fn imbalance_of(bits: u64) -> f64 {
    let imbalance = f64_from_bits_with_nan(bits);
    if imbalance.is_nan() { 0.0 } else { imbalance }
}

// What is asked of the ceiling: the choice, the whole number, and the imbalance by its bits.
fn read_ceiling(reader: &mut Reader) -> Result<Ceiling, Mismatch> {
    Ok(Ceiling {
        choice: reader.read()?,
        whole: reader.read()?,
        imbalance: imbalance_of(reader.read()?),
        each: [0; 16],
    })
}

// FM. The settings are the passes, the moves, bad, and the ceiling. No graph of more than 512 vertices is replayed.
pub fn fiduccia_mattheyses(case: Case, reader: &mut Reader) -> Result<(), Mismatch> {
    let settings = fiduccia_mattheyses::Settings {
        passes: reader.read()?,
        moves: reader.read()?,
        bad: reader.read()?,
        ceiling: read_ceiling(reader)?,
    };
    let mut gains = [7i64; 512];
    let mut made = [7u32; imbalance::MOST_PASSES as usize];
    let mut rewound = [7u32; imbalance::MOST_PASSES as usize];
    let labels = case.labels;
    let r = fiduccia_mattheyses_records::with_moves::<512>(
        &case.graph,
        case.weights,
        labels,
        &mut gains,
        &mut made,
        &mut rewound,
        settings,
    );
    reader.expect_all(&[r.number, r.end, r.passes])?;
    reader.expect_all(&[r.first, r.last])?;
    reader.expect_all(&r.loads.at)?;
    for (made, rewound) in made.iter().zip(&rewound).take(r.passes as usize) {
        reader.expect_all(&[*made, *rewound])?;
    }
    reader.expect_all(labels)
}

// KL. The settings are the passes, the swaps, and bad.
pub fn kernighan_lin(case: Case, reader: &mut Reader) -> Result<(), Mismatch> {
    let settings = kernighan_lin::Settings {
        passes: reader.read()?,
        swaps: reader.read()?,
        bad: reader.read()?,
    };
    let mut gains = [7i64; imbalance::MOST_VERTICES];
    let mut locks = [7u8; imbalance::MOST_VERTICES];
    let mut swaps = [7u32; imbalance::MOST_VERTICES / 2];
    let labels = case.labels;
    let r = kernighan_lin::kernighan_lin(
        &case.graph,
        case.weights,
        labels,
        &mut gains,
        &mut locks,
        &mut swaps,
        settings,
    );
    reader.expect_all(&[r.number, r.end, r.passes])?;
    reader.expect_all(&[r.first, r.last])?;
    reader.expect_all(labels)
}

// Arc-swap. The settings are the ceiling, and the length of the stack, at most 65,535.
pub fn arc_swap(case: Case, reader: &mut Reader) -> Result<(), Mismatch> {
    let settings = arc_swap::Settings {
        ceiling: read_ceiling(reader)?,
    };
    let length = reader.read_up_to(imbalance::MOST_ARCS)?;
    let mut stack = [7u32; imbalance::MOST_ARCS];
    let labels = case.labels;
    let answer = arc_swap::arc_swap_counted(
        &case.graph,
        case.weights,
        labels,
        &mut stack[..length],
        settings,
    );
    let r = answer.report;
    let run = answer.run;
    reader.expect_all(&[r.number, r.end, r.passes])?;
    reader.expect_all(&[r.first, r.last])?;
    reader.expect_all(&r.loads.at)?;
    reader.expect_all(&[run.attempts, run.moves, run.no_gain, run.bad_balance])?;
    reader.expect_all(labels)
}
