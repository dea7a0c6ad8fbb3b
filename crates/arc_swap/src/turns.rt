// What a turn is made of that leaves the run record alone: a first push, and an attempt on the vertex on top. Document 01, "Arc-swap".
ghost use Rattle.std.specs.Prelude.{◌≡◌, ◌≤◌, ◌<◌, length};
ghost use Rattle.imbalance.specs.Limit.{most_vertices};
ghost use Rattle.topology.specs.inner.Row.{RowsAlone};
ghost use Rattle.arc_swap.specs.Run.{on_cut};
ghost use Rattle.arc_swap.specs.inner.Steps.{terms_in, AttemptAsked, AttemptDone, FirstDone};

use crate::Attempted;
use arc_swap_attempt::{Frame, Standing};
use topology::Graph;

// The vertex on top of the stack is taken off it and tried, and moves where it may.
pub fn attempt(frame: &Frame, labels: &mut [u32], stack: &mut [u32], st: Standing) -> Attempted
    requires { AttemptAsked (terms_in frame.now (length stack.old)) labels.old stack.old st }
    ensures { AttemptDone (terms_in frame.now (length stack.old)) labels.old stack.old st labels.new stack.new result }
{
    let top = st.top - 1;
    let popped = Standing { top, ..st };
    let v = stack[top] as usize;
    let trial = arc_swap_attempt::try_vertex(frame, labels, popped.loads, v);
    let moved = arc_swap_attempt::move_vertex(frame, labels, stack, popped, v, trial);
    Attempted { st: moved, trial }
}

// Whether v has a neighbour in another part.
fn on_cut(graph: &Graph, labels: &[u32], v: usize) -> bool
    requires { RowsAlone (length labels.now) graph.now.starts graph.now.neighbours × (v < length labels.now) }
    ensures { result ≡ on_cut graph.now labels.now v }
{
    for e in graph.first(v)..graph.past(v) {
        let u = graph.neighbour(e);
        if labels[u] != labels[v] {
            return true;
        }
    }
    false
}

// v's first push: it stands alone on the stack where it has a neighbour in another part. Where the stack has no place, the push does not fit.
pub fn push_first(
    graph: &Graph,
    labels: &[u32],
    stack: &mut [u32],
    v: usize,
    st: Standing,
) -> Standing
    requires { RowsAlone (length labels.now) graph.now.starts graph.now.neighbours × (v < length labels.now) × (length labels.now ≤ most_vertices) }
    ensures { FirstDone graph.now labels.now stack.old v st stack.new result }
{
    if !on_cut(graph, labels, v) {
        return st;
    }
    if stack.is_empty() {
        return Standing { fits: false, ..st };
    }
    stack[0] = v as u32;
    Standing { top: 1, ..st }
}
