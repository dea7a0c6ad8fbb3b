// The gains of a pass. Document 01, "KL": fresh gains are added at every swap, and the neighbours of a taken vertex are told.
ghost use Rattle.std.specs.Prelude.{◌≡◌, ◌*◌, ◌<◌, length};
ghost use Rattle.kernighan_lin_pass.specs.Gain.{fresh, added, updated};
ghost use Rattle.kernighan_lin_pass.specs.inner.Steps.{Fit, Within, most_gain};

use topology::Graph;

// What u gains by going to the other part.
fn fresh_gain(graph: &Graph, labels: &[u32], u: usize) -> i64
    requires { Fit (length labels.now) graph.now × (u < length labels.now) }
    ensures { result ≡ fresh graph.now labels.now u }
{
    let own = labels[u];
    let mut there = 0;
    let mut here = 0;
    for e in graph.first(u)..graph.past(u) {
        let v = graph.neighbour(e);
        let w = u64::from(graph.weight(e));
        if labels[v] == own {
            here += w;
        } else {
            there += w;
        }
    }
    (there as i64) - (here as i64)
}

// Fresh gains are added onto what is there.
pub fn add_fresh(graph: &Graph, labels: &[u32], gains: &mut [i64])
    requires { Fit (length labels.now) graph.now × (length gains.old ≡ length labels.now) × Within most_gain gains.old }
    ensures { gains.new ≡ added graph.now labels.now gains.old }
{
    for u in 0..labels.len() {
        gains[u] += fresh_gain(graph, labels, u);
    }
}

// The neighbours of v, which is taken, are told.
pub fn update_neighbours(graph: &Graph, labels: &[u32], gains: &mut [i64], v: usize)
    requires { Fit (length labels.now) graph.now × (length gains.old ≡ length labels.now) × (v < length labels.now) × Within (2 * most_gain) gains.old }
    ensures { gains.new ≡ updated graph.now labels.now v gains.old }
{
    let own = labels[v];
    for e in graph.first(v)..graph.past(v) {
        let x = graph.neighbour(e);
        gains[x] += topology::twice(graph.weight(e), labels[x], own);
    }
}
