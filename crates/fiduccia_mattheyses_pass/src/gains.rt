// The gains of a pass: fresh at its start, and brought up to date after a move. Document 01, "FM".
ghost use Rattle.std.specs.Prelude.{◌≡◌, ℕ, ◌-◌, ◌+◌, ◌≤◌, ◌<◌, length, get_or, eqb, pos};
ghost use Rattle.std.specs.Int.Signed.{mag};
ghost use Rattle.imbalance.specs.Limit.{most_arcs};
ghost use Rattle.imbalance.specs.Load.{part};
ghost use Rattle.topology.specs.Graph.{first, past, neighbour};
ghost use Rattle.topology.specs.Rule.{Rows};
ghost use Rattle.fiduccia_mattheyses_choice.specs.inner.Bounds.{lock_size};
ghost use Rattle.fiduccia_mattheyses_pass.specs.inner.Bounds.{most_twice, most_updated};
ghost use Rattle.fiduccia_mattheyses_pass.specs.inner.Update.{shift, updated};
ghost use Rattle.fiduccia_mattheyses_pass.specs.inner.Standing.{fresh_gains};

use fiduccia_mattheyses_choice::scan;
use topology::Graph;

// Each vertex's gain to the other part.
pub fn fresh_gains(graph: &Graph, labels: &[u32], gains: &mut [i64])
    requires { Rows (length labels.now) graph.now × (length gains.old ≡ length labels.now) × ((v : ℕ) → part labels.now v < 2) }
    ensures { gains.new ≡ fresh_gains graph.now labels.now gains.old }
{
    for v in 0..labels.len() {
        gains[v] = graph.gain_of(labels, v, 1 - labels[v]);
    }
}

// A neighbour's gain after the arc's other end left part old: twice the weight is added where the neighbour stayed behind, and that negated where it is joined.
fn shifted(g: i64, w: u32, p: u32, old: u32) -> i64
    requires { mag g < most_updated }
    ensures { (result ≡ shift (eqb p old) g w) × (mag result ≤ mag g + most_twice) }
{
    g + topology::twice(w, p, old)
}

// The gains of v's free neighbours, once v has left part old; a locked one is passed over.
pub fn update_neighbours(graph: &Graph, labels: &[u32], gains: &mut [i64], v: usize, old: u32)
    requires row { (v + 1 < length graph.now.starts) × (first graph.now v ≤ past graph.now v) × (past graph.now v ≤ length graph.now.neighbours) × (past graph.now v ≤ most_arcs) × (length graph.now.weights ≡ length graph.now.neighbours) × (length gains.old ≡ length labels.now) }
    requires small { ((e : ℕ) → e < length graph.now.neighbours → neighbour graph.now e < length labels.now) × ((x : ℕ) → mag (get_or gains.old x (pos 0)) ≤ lock_size) }
    ensures { gains.new ≡ updated graph.now.neighbours graph.now.weights labels.now old (first graph.now v) (past graph.now v - first graph.now v) gains.old }
{
    for e in graph.first(v)..graph.past(v) {
        let x = graph.neighbour(e);
        let Some(g) = scan::free_gain(gains[x]) else {
            continue;
        };
        gains[x] = shifted(g, graph.weight(e), labels[x], old);
    }
}
