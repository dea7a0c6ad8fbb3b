// A move: the label, the loads, the cut and the stack follow. Document 01, "Else it moves, and its neighbours whose largest gain is now positive are pushed in row order".
ghost use Rattle.std.specs.Prelude.{◌≤◌, ◌<◌, true, false, length, MatchOption};
ghost use Rattle.arc_swap_attempt.specs.inner.Steps.{Named, pushed_by, PushDone, MoveAsked, MoveDone};

use crate::{Frame, Standing, Trial, gains};

// The neighbours of v that gain by a move now, on top of the places held, in row order. Answers how many places are held then; where one does not fit, those held before stay as they were.
fn push_neighbours(
    frame: &Frame,
    labels: &[u32],
    stack: &mut [u32],
    used: usize,
    v: usize,
) -> Option<usize>
    requires { Named frame.now.graph.now frame.now.limits.parts labels.now × (v < length labels.now) × (used ≤ length stack.old) }
    ensures { let pushed = pushed_by frame.now.graph.now frame.now.limits.parts labels.now v in
        MatchOption result
        (PushDone pushed stack.old used stack.new false used)
        (λ top. PushDone pushed stack.old used stack.new true top) }
{
    let mut top = used;
    let graph = frame.graph;
    for e in graph.first(v)..graph.past(v) {
        let u = graph.neighbour(e);
        if gains::has_gain(frame, labels, u) {
            if top == stack.len() {
                return None;
            }
            stack[top] = u as u32;
            top += 1;
        }
    }
    Some(top)
}

// v, off the stack now, moves where its trial goes; else all stays.
pub fn move_vertex(
    frame: &Frame,
    labels: &mut [u32],
    stack: &mut [u32],
    popped: Standing,
    v: usize,
    trial: Trial,
) -> Standing
    requires { MoveAsked frame.now.graph.now frame.now.limits.parts frame.now.weights.now labels.old stack.old popped v trial }
    ensures { MoveDone frame.now.graph.now frame.now.limits.parts frame.now.weights.now labels.old stack.old popped v trial labels.new stack.new result }
{
    let Trial::Goes(t, gain) = trial else {
        return popped;
    };
    let loads = imbalance::moved_loads(popped.loads, labels[v], t, frame.weights[v]);
    labels[v] = t;
    let pushed = push_neighbours(frame, labels, stack, popped.top, v);
    Standing {
        fits: pushed.is_some(),
        top: pushed.unwrap_or(popped.top),
        cut: popped.cut - gain,
        loads,
    }
}
