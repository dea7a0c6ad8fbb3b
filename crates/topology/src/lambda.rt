// The lambda cut. Document 01, "Lambda cut: over vertices, the number of parts among neighbours other than the vertex's own, times its weight".
ghost use Rattle.std.specs.Prelude.{◌≡◌, ℕ, ◌≤◌, ◌<◌, length};
ghost use Rattle.lists.specs.Refusal.{number_in};
ghost use Rattle.imbalance.specs.Load.{part, Loadable};
ghost use Rattle.topology.specs.Cut.{parts_around, lambda};
ghost use Rattle.topology.specs.Number.{lambda_cut_number, lambda_cut_answer};
ghost use Rattle.topology.specs.inner.Row.{RowsAlone};

use crate::{CutAnswer, Graph};
use lists::Refusal;

impl<'a> Graph<'a> {
    // The number of parts around u other than its own. One bit a part says whether it was met, and its own is from the start.
    fn parts_around(&self, labels: &[u32], u: usize) -> u64
        requires { RowsAlone (length labels.now) self.now.starts self.now.neighbours × ((v : ℕ) → v < length labels.now → part labels.now v < 16) × (u < length labels.now) }
        ensures { (result ≡ parts_around self.now labels.now u) × (result ≤ 16) }
    {
        let mut met = 1u16 << labels[u];
        let mut count = 0;
        for e in self.first(u)..self.past(u) {
            let t = labels[self.neighbour(e)];
            let bit = 1u16 << t;
            if (met >> t) % 2 == 0 {
                count += 1;
            }
            met = met | bit;
        }
        count
    }

    // The lambda cut of labels below 16 on a graph whose rows are in order.
    pub fn lambda_of(&self, weights: &[u32], labels: &[u32]) -> u64
        requires { RowsAlone (length labels.now) self.now.starts self.now.neighbours × Loadable weights.now labels.now }
        ensures { result ≡ lambda self.now weights.now labels.now }
    {
        let mut sum = 0;
        for (u, weight) in weights.iter().enumerate() {
            sum += self.parts_around(labels, u) * u64::from(*weight);
        }
        sum
    }

    // Why a call of the stand-alone lambda cut is refused.
    fn check_lambda_cut(&self, weights: &[u32], labels: &[u32]) -> Result<(), Refusal>
        ensures { number_in result ≡ lambda_cut_number self.now weights.now labels.now }
    {
        self.check(weights, labels.len())?;
        if imbalance::label_above(labels, 15) {
            return Err(Refusal::Labels);
        }
        Ok(())
    }

    // The lambda cut, for every input: the stand-alone call.
    pub fn lambda_cut(&self, weights: &[u32], labels: &[u32]) -> CutAnswer
        ensures { result ≡ lambda_cut_answer self.now weights.now labels.now }
    {
        if let Err(refusal) = self.check_lambda_cut(weights, labels) {
            return CutAnswer {
                number: u32::from(refusal),
                cut: 0,
            };
        }
        CutAnswer {
            number: 0,
            cut: self.lambda_of(weights, labels),
        }
    }
}
