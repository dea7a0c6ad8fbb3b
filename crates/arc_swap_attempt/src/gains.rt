// The gains of a vertex to all parts at once: its arc weight into each, and the best of them. Document 01, "the target of largest gain, the highest part among equals".
ghost use Rattle.std.specs.Prelude.{◌≡◌, ℕ, ◌<◌, ◌≤◌, length, get_or};
ghost use Rattle.lists.specs.Fill.{table};
ghost use Rattle.imbalance.specs.Load.{part};
ghost use Rattle.topology.specs.Graph.{into};
ghost use Rattle.topology.specs.Rule.{Rows};
ghost use Rattle.arc_swap_attempt.specs.Trial.{has_gain};
ghost use Rattle.arc_swap_attempt.specs.inner.Steps.{picked, best_by, Named};

use crate::{Frame, Sums, Target};
use topology::Graph;

// The arc weight of v into each part, in one walk over its row.
pub fn sums_of(graph: &Graph, labels: &[u32], v: usize) -> Sums
    requires { Rows (length labels.now) graph.now × ((u : ℕ) → u < length labels.now → part labels.now u < 16) × (v < length labels.now) }
    ensures { result.at ≡ table 16 (into graph.now labels.now v) }
{
    let mut at = [0; 16];
    for e in graph.first(v)..graph.past(v) {
        let t = labels[graph.neighbour(e)] as usize;
        at[t] += u64::from(graph.weight(e));
    }
    Sums { at }
}

// The part of the largest sum among those other than the own: the gains differ from the sums by one and the same number. The walk begins from the own part with nothing, which is what is answered where there is no other: no gain is positive then, so that no caller asks which it was. The two tests stand one in the other: the sums are hard to foretell, and on both joined the compiler branches.
pub fn best_part(sums: Sums, own: usize, parts: usize) -> Target
    requires { (length sums.at ≡ 16) × (parts ≤ 16) }
    ensures { result ≡ picked own (λ t. get_or sums.at t 0) (best_by (λ t. get_or sums.at t 0) own parts) }
{
    let mut best = Target { part: own, sum: 0 };
    for t in 0..parts {
        if t != own {
            let sum = sums.at[t];
            if best.sum <= sum {
                best = Target { part: t, sum };
            }
        }
    }
    best
}

// Whether u's largest gain is positive.
pub fn has_gain(frame: &Frame, labels: &[u32], u: usize) -> bool
    requires { Named frame.now.graph.now frame.now.limits.parts labels.now × (u < length labels.now) }
    ensures { result ≡ has_gain frame.now.graph.now frame.now.limits.parts labels.now u }
{
    let own = labels[u] as usize;
    let sums = sums_of(frame.graph, labels, u);
    sums.at[own] < best_part(sums, own, frame.limits.parts).sum
}
