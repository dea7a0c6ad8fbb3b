// Why a graph is refused, by itself and with its vertex weights. Document 01, "Numbers a call gives back".
ghost use Rattle.std.specs.Prelude.{◌≡◌};
ghost use Rattle.lists.specs.Refusal.{number_in};
ghost use Rattle.topology.specs.Rule.{rows_number, graph_number};

use crate::Graph;
use lists::Refusal;

impl<'a> Graph<'a> {
    // The first of 1 to 4 that applies to the graph alone. It is put in place of its calls, as a call would hand the graph on in memory, and the stack of the stand-alone cuts is bounded.
    #[inline(always)]
    pub fn check_rows(&self, n: usize) -> Result<(), Refusal>
        ensures { number_in result ≡ rows_number n self.now }
    {
        if self.misfits(n) {
            return Err(Refusal::Lengths);
        }
        if self.oversized(n) {
            return Err(Refusal::Limits);
        }
        if !self.rows_ok(n) {
            return Err(Refusal::Rows);
        }
        if !self.answered_all(n) {
            return Err(Refusal::Opposites);
        }
        Ok(())
    }

    // The first of 1 to 5 that applies to the graph and the vertex weights, as the refiners give them. It is put in place of its calls too.
    #[inline(always)]
    pub fn check(&self, weights: &[u32], n: usize) -> Result<(), Refusal>
        ensures { number_in result ≡ graph_number n weights.now self.now }
    {
        if weights.len() != n {
            return Err(Refusal::Lengths);
        }
        self.check_rows(n)?;
        if imbalance::over_limit(weights) || imbalance::over_limit(self.arc_weights) {
            return Err(Refusal::Weights);
        }
        Ok(())
    }
}
