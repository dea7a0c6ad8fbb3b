// The gain of a vertex, and what a move changes of it. Document 01, "Gain of a vertex to a target part" and "i64 gains added, negated and doubled".
ghost use Rattle.std.specs.Prelude.{◌≡◌, ◌<◌, length, eqb};
ghost use Rattle.lists.specs.Sum.{weigh};
ghost use Rattle.topology.specs.Graph.{gain, change};
ghost use Rattle.topology.specs.Rule.{Rows};
ghost use Rattle.topology.specs.inner.Row.{word_bound};

use crate::Graph;

// An arc's weight where it goes into part t, else 0.
fn counted(p: u32, t: u32, w: u32) -> u64
    ensures { (result ≡ weigh (eqb p t) w) × (result < word_bound) }
{
    if p == t { u64::from(w) } else { 0 }
}

impl<'a> Graph<'a> {
    // Arc weight of u into the target less arc weight into its own part, in one walk over its row.
    pub fn gain_of(&self, labels: &[u32], u: usize, target: u32) -> i64
        requires { Rows (length labels.now) self.now × (u < length labels.now) }
        ensures { result ≡ gain self.now labels.now u target }
    {
        let own = labels[u];
        let mut there = 0;
        let mut here = 0;
        for e in self.first(u)..self.past(u) {
            let v = self.neighbour(e);
            let w = self.weight(e);
            there += counted(labels[v], target, w);
            here += counted(labels[v], own, w);
        }
        (there as i64) - (here as i64)
    }
}

// What an arc of weight w adds to a vertex's gain when its other end leaves part own: twice the weight, negated where the vertex has another label. A weight of 0 adds 0, as -0 is 0.
pub fn twice(w: u32, label: u32, own: u32) -> i64
    ensures { result ≡ change (eqb label own) w }
{
    let d = 2 * i64::from(w);
    if label == own { d } else { -d }
}
