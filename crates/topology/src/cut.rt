// The edge cut. Document 01, "Edge cut: each pair of different parts counted once, by its higher vertex".
ghost use Rattle.std.specs.Prelude.{◌≡◌, ◌&&◌, not, ◌≤◌, ◌<◌, length, ltb, eqb};
ghost use Rattle.lists.specs.Refusal.{number_in};
ghost use Rattle.lists.specs.Sum.{weigh};
ghost use Rattle.topology.specs.Rule.{Rows};
ghost use Rattle.topology.specs.Cut.{row_cut, cut};
ghost use Rattle.topology.specs.Number.{edge_cut_number, edge_cut_answer};
ghost use Rattle.topology.specs.inner.Row.{word_bound, row_bound};

use crate::{CutAnswer, Graph};
use lists::Refusal;

// What an arc from u to v counts: its weight where v is lower and of another part, else 0. Two choices, one after the other: on the two tests joined the compiler branches, and the labels of neighbours are hard to foretell.
fn crossed(u: usize, v: usize, pu: u32, pv: u32, w: u32) -> u64
    ensures { (result ≡ weigh (ltb v u && not (eqb pv pu)) w) × (result < word_bound) }
{
    let apart = if pv == pu { 0 } else { w };
    if v < u { u64::from(apart) } else { 0 }
}

impl<'a> Graph<'a> {
    // What row u counts.
    fn row_cut(&self, labels: &[u32], u: usize) -> u64
        requires { Rows (length labels.now) self.now × (u < length labels.now) }
        ensures { (result ≡ row_cut self.now labels.now u) × (result ≤ row_bound) }
    {
        let mut sum = 0;
        for e in self.first(u)..self.past(u) {
            let v = self.neighbour(e);
            sum += crossed(u, v, labels[u], labels[v], self.weight(e));
        }
        sum
    }

    // The edge cut of labels on a graph whose rows are in order.
    pub fn cut_of(&self, labels: &[u32]) -> u64
        requires { Rows (length labels.now) self.now }
        ensures { result ≡ cut self.now labels.now }
    {
        let mut sum = 0;
        for u in 0..labels.len() {
            sum += self.row_cut(labels, u);
        }
        sum
    }

    // Why a call of the stand-alone edge cut is refused.
    fn check_edge_cut(&self, labels: &[u32]) -> Result<(), Refusal>
        ensures { number_in result ≡ edge_cut_number self.now labels.now }
    {
        self.check_rows(labels.len())?;
        if imbalance::over_limit(self.arc_weights) {
            return Err(Refusal::Weights);
        }
        if imbalance::label_above(labels, 15) {
            return Err(Refusal::Labels);
        }
        Ok(())
    }

    // The edge cut, for every input: the stand-alone call.
    pub fn edge_cut(&self, labels: &[u32]) -> CutAnswer
        ensures { result ≡ edge_cut_answer self.now labels.now }
    {
        if let Err(refusal) = self.check_edge_cut(labels) {
            return CutAnswer {
                number: u32::from(refusal),
                cut: 0,
            };
        }
        CutAnswer {
            number: 0,
            cut: self.cut_of(labels),
        }
    }
}
