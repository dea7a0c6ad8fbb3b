// The row rules: numbers 1, 2 and 3. Document 01, "The graph and its numbers".
ghost use Rattle.std.specs.Prelude.{◌≡◌, true, ◌+◌, ◌≤◌, ◌<◌, length};
ghost use Rattle.lists.specs.All.{all};
ghost use Rattle.topology.specs.Rule.{misfit, oversize, starts_ok, arc_ok, row_ok, rows_ok};

use crate::Graph;

impl<'a> Graph<'a> {
    // Number 1's test: whether the lists' lengths do not fit n vertices.
    pub(crate) fn misfits(&self, n: usize) -> bool
        ensures { result ≡ misfit n self.now }
    {
        self.starts.len() == 0
            || self.starts.len() - 1 != n
            || self.neighbours.len() != self.arc_weights.len()
    }

    // Number 2's test.
    pub(crate) fn oversized(&self, n: usize) -> bool
        ensures { result ≡ oversize n (length self.now.neighbours) }
    {
        imbalance::MOST_VERTICES < n || imbalance::MOST_ARCS < self.neighbours.len()
    }

    // Starts begin at 0, never fall and end at the arcs' count.
    pub fn starts_ok(&self, n: usize) -> bool
        requires { length self.now.starts ≡ n + 1 }
        ensures { result ≡ starts_ok n self.now }
    {
        if self.first(0) != 0 || self.first(n) != self.neighbours.len() {
            return false;
        }
        for u in 0..n {
            if self.first(u) > self.past(u) {
                return false;
            }
        }
        true
    }

    // Arc e of row u, whose first arc is lo: below n, not u itself, above the arc before it.
    fn arc_ok(&self, n: usize, u: usize, lo: usize, e: usize) -> bool
        requires { (lo ≤ e) × (e < length self.now.neighbours) }
        ensures { result ≡ arc_ok n self.now u lo e }
    {
        let v = self.neighbour(e);
        if n <= v || v == u {
            return false;
        }
        e == lo || self.neighbour(e - 1) < v
    }

    // Row u.
    fn row_ok(&self, n: usize, u: usize) -> bool
        requires { (length self.now.starts ≡ n + 1) × (u < n) × (starts_ok n self.now ≡ true) }
        ensures { result ≡ row_ok n self.now u }
    {
        let lo = self.first(u);
        for e in lo..self.past(u) {
            if !self.arc_ok(n, u, lo, e) {
                return false;
            }
        }
        true
    }

    // Every row.
    fn all_rows_ok(&self, n: usize) -> bool
        requires { (length self.now.starts ≡ n + 1) × (starts_ok n self.now ≡ true) }
        ensures { result ≡ all n (row_ok n self.now) }
    {
        for u in 0..n {
            if !self.row_ok(n, u) {
                return false;
            }
        }
        true
    }

    // Number 3 is given where this is false.
    pub(crate) fn rows_ok(&self, n: usize) -> bool
        requires { length self.now.starts ≡ n + 1 }
        ensures { result ≡ rows_ok n self.now }
    {
        self.starts_ok(n) && self.all_rows_ok(n)
    }
}
