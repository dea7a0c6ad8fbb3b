// The next move of a pass, or its end; and a move: the label, the loads, the gains and the cut follow. Document 01, "FM".
ghost use Rattle.std.specs.Prelude.{◌≡◌, ℕ, ◌≤◌, ◌<◌, length, get_or, pos};
ghost use Rattle.std.specs.Int.Signed.{mag};
ghost use Rattle.imbalance.specs.Load.{part};
ghost use Rattle.imbalance.specs.Limit.{most_vertices};
ghost use Rattle.topology.specs.Rule.{Rows};
ghost use Rattle.fiduccia_mattheyses_choice.specs.inner.Bounds.{lock_size};
ghost use Rattle.fiduccia_mattheyses_pass.specs.inner.Bounds.{most_gain, most_cut};
ghost use Rattle.fiduccia_mattheyses_choice.specs.Choice.{flip};
ghost use Rattle.fiduccia_mattheyses_choice.specs.inner.Scan.{Scannable, load_after, ceiling_at, pick_below};
ghost use Rattle.fiduccia_mattheyses_pass.specs.inner.Next.{next_of};
ghost use Rattle.fiduccia_mattheyses_pass.specs.inner.Standing.{gains_after, standing_with, standing_after, Moveable};

use crate::{Limits, NextMove, Standing};
use fiduccia_mattheyses_choice::scan;
use imbalance::Loads;
use topology::Graph;

// Where the sample begins: at another vertex after each move that lowers the least cut and after each bad one, so that what one sample misses is met by others.
fn sample_from(st: Standing) -> usize
    ensures { result < 64 }
{
    (st.kept % 64 + (st.bad % 64) as usize) % 64
}

// The next move; there is none where nobody may move, and where a gain of 0 or less, which counts as bad, meets the bad limit.
pub fn next_move(
    gains: &[i64],
    labels: &[u32],
    weights: &[u32],
    st: Standing,
    limits: Limits,
) -> Option<NextMove>
    requires { Scannable gains.now labels.now weights.now st.loads.at × (length limits.ceilings.at ≡ 16) × (st.bad ≤ most_vertices) }
    ensures { result ≡ next_of (pick_below gains.now (load_after st.loads.at weights.now labels.now) (ceiling_at limits.ceilings.at labels.now) (length labels.now)) st.bad limits.bad }
{
    let first = sample_from(st);
    let pick = scan::choose(gains, labels, weights, st.loads, limits.ceilings, first)?;
    let vertex = pick.vertex;
    let gain = pick.gain;
    if gain <= 0 {
        if limits.bad <= st.bad {
            return None;
        }
        let bad = st.bad + 1;
        return Some(NextMove { vertex, gain, bad });
    }
    Some(NextMove {
        vertex,
        gain,
        bad: 0,
    })
}

// The label and the gains after v's move.
fn move_vertex(graph: &Graph, labels: &mut [u32], gains: &mut [i64], v: usize)
    requires { Rows (length labels.old) graph.now × (v < length labels.old) × (length gains.old ≡ length labels.old) × (part labels.old v < 2) × ((x : ℕ) → mag (get_or gains.old x (pos 0)) ≤ lock_size) }
    ensures { (labels.new ≡ flip labels.old v) × (gains.new ≡ gains_after graph.now labels.old gains.old v) }
{
    let old = labels[v];
    labels[v] = 1 - old;
    gains[v] = scan::LOCKED;
    crate::gains::update_neighbours(graph, labels, gains, v, old);
}

// The standing after the move numbered made: the least cut and where it was first met follow.
fn next_standing(st: Standing, loads: Loads, g: i64, bad: u64, made: usize) -> Standing
    requires { (mag g ≤ most_gain) × (mag st.cut ≤ most_cut) × (mag st.least ≤ most_cut) }
    ensures { result ≡ standing_with st loads.at g bad made }
{
    let cut = st.cut - g;
    let least = st.least;
    if cut < least {
        return Standing {
            loads,
            cut,
            least: cut,
            kept: made,
            bad,
        };
    }
    Standing {
        loads,
        cut,
        bad,
        ..st
    }
}

// The move numbered made: the vertex goes to the other part.
pub fn make_move(
    graph: &Graph,
    weights: &[u32],
    labels: &mut [u32],
    gains: &mut [i64],
    st: Standing,
    next: NextMove,
    made: usize,
) -> Standing
    requires { Moveable graph.now gains.old labels.old weights.now st next.vertex next.gain }
    ensures { (labels.new ≡ flip labels.old next.vertex)
        × (gains.new ≡ gains_after graph.now labels.old gains.old next.vertex)
        × (result ≡ standing_after st (part labels.old next.vertex) (get_or weights.now next.vertex 0) next.gain next.bad made) }
{
    let v = next.vertex;
    let old = labels[v];
    let loads = imbalance::moved_loads(st.loads, old, 1 - old, weights[v]);
    move_vertex(graph, labels, gains, v);
    next_standing(st, loads, next.gain, next.bad, made)
}
