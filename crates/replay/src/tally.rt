// How many cases of each algorithm agree and how many differ, and what is printed of it. Document 01, its opening: coupe decides labels and counts.
use crate::algorithm::{Algorithm, Asked};
use std::fmt;

// The cases of one algorithm, or those that name none. No count wraps, as no more than 2^40 lines are read.
#[derive(Clone, Copy)]
struct Row {
    asked: Asked,
    agreed: u64,
    differed: u64,
}

impl fmt::Display for Row {
    fn fmt<W: fmt::Write>(&self, f: &mut fmt::Formatter<W>) -> fmt::Result {
        write!(
            f,
            "{}: {} agree, {} differ\n",
            self.asked, self.agreed, self.differed
        )
    }
}

#[derive(Drop)]
pub struct Tally {
    rows: [Row; 7],
}

// The rows in the order in which they are printed; the last is for lines that name no algorithm.
const ROWS: [Option<Algorithm>; 7] = [
    Some(Algorithm::EdgeCut),
    Some(Algorithm::LambdaCut),
    Some(Algorithm::Loads),
    Some(Algorithm::FiducciaMattheyses),
    Some(Algorithm::KernighanLin),
    Some(Algorithm::ArcSwap),
    None,
];

impl Tally {
    pub fn new() -> Self {
        let rows = ROWS.map(|algorithm| Row {
            asked: Asked { algorithm },
            agreed: 0,
            differed: 0,
        });
        Tally { rows }
    }

    // The row of what is asked.
    fn row(&mut self, asked: Asked) -> Option<&mut Row> {
        self.rows.iter_mut().find(|row| row.asked == asked)
    }

    // One more that agrees.
    pub fn agree(&mut self, asked: Asked) {
        if let Some(row) = self.row(asked) {
            row.agreed = row.agreed.wrapping_add(1);
        }
    }

    // One more that differs; how many do so now.
    pub fn differ(&mut self, asked: Asked) -> u64 {
        let Some(row) = self.row(asked) else {
            return 0;
        };
        row.differed = row.differed.wrapping_add(1);
        row.differed
    }
}

impl fmt::Display for Tally {
    fn fmt<W: fmt::Write>(&self, f: &mut fmt::Formatter<W>) -> fmt::Result {
        for row in &self.rows {
            write!(f, "{row}")?;
        }
        Ok(())
    }
}
