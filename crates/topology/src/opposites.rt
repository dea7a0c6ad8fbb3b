// Every arc has an opposite of equal weight: number 4. Document 01, "Arc u to v needs arc v to u of equal weight".
ghost use Rattle.std.specs.Prelude.{◌≡◌, true, ◌+◌, ◌<◌, length};
ghost use Rattle.topology.specs.Graph.{first, past};
ghost use Rattle.topology.specs.Rule.{rows_ok, has_arc, row_answered, answered, Rows};
ghost use Rattle.topology.specs.inner.Lookup.{Rises, Halved, Answerable};

use crate::Graph;

impl<'a> Graph<'a> {
    // The first arc from lo up to hi that goes to u or above, hi where there is none. It halves the row, which rises strictly.
    fn lowest_from(&self, lo: usize, hi: usize, u: usize) -> usize
        requires { Rises self.now.neighbours lo hi }
        ensures { Halved self.now.neighbours lo hi u result }
    {
        let mut a = lo;
        let mut b = hi;
        while a < b {
            let middle = a + (b - a) / 2;
            let v = self.neighbour(middle);
            if v < u {
                a = middle + 1;
            } else {
                b = middle;
            }
        }
        a
    }

    // Whether row v has an arc to u of weight w.
    fn has_arc(&self, v: usize, u: usize, w: u32) -> bool
        requires { (v + 1 < length self.now.starts) × Rises self.now.neighbours (first self.now v) (past self.now v) × (length self.now.weights ≡ length self.now.neighbours) }
        ensures { result ≡ has_arc self.now v u w }
    {
        let hi = self.past(v);
        let e = self.lowest_from(self.first(v), hi, u);
        e < hi && self.neighbour(e) == u && self.weight(e) == w
    }

    // Whether every arc of row u has its equal opposite.
    fn row_answered(&self, u: usize) -> bool
        requires { (u + 1 < length self.now.starts) × Answerable self.now.starts self.now.neighbours self.now.weights (first self.now u) (past self.now u) }
        ensures { result ≡ row_answered self.now u }
    {
        for e in self.first(u)..self.past(u) {
            if !self.has_arc(self.neighbour(e), u, self.weight(e)) {
                return false;
            }
        }
        true
    }

    // Number 4 is given where this is false.
    pub(crate) fn answered_all(&self, n: usize) -> bool
        requires { Rows n self.now × (rows_ok n self.now ≡ true) }
        ensures { result ≡ answered n self.now }
    {
        for u in 0..n {
            if !self.row_answered(u) {
                return false;
            }
        }
        true
    }
}
