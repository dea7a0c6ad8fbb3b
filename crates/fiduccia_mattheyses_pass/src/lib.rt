// A pass of FM: coupe's algorithms/fiduccia_mattheyses.rs, what its outer loop repeats. Document 01, "FM".
#![tactic(auto)]

mod gains;
mod moves;
mod steps;

ghost use Rattle.std.specs.Prelude.{◌≡◌, ◌-◌};
ghost use Rattle.lists.specs.Fill.{table};
ghost use Rattle.imbalance.specs.Load.{load};
ghost use Rattle.fiduccia_mattheyses_pass.specs.Pass.{start, walk};
ghost use Rattle.fiduccia_mattheyses_pass.specs.inner.Steps.{terms_in, undone, WalkAsked, WalkDone, RewindAsked, PassAsked, PassDone};

pub use gains::fresh_gains;
use imbalance::{Ceilings, Loads};
use topology::Graph;

// What bounds the moves of a pass: the ceiling of each part, the bad limit, and the move limit.
#[derive(Clone, Copy)]
pub struct Limits {
    pub ceilings: Ceilings,
    pub bad: u64,
    pub moves: usize,
}

// What stands still during a pass: the graph, the vertex weights, and what bounds the moves.
#[derive(Drop)]
pub struct Frame<'a> {
    pub graph: &'a Graph<'a>,
    pub weights: &'a [u32],
    pub limits: Limits,
}

// The vertex that moves next, with its gain and the bad counter after it.
#[derive(Clone, Copy)]
pub struct NextMove {
    pub vertex: usize,
    pub gain: i64,
    pub bad: u64,
}

// Where a pass stands: loads, cut, least cut so far and after how many moves it was first met, and the bad counter.
#[derive(Clone, Copy)]
pub struct Standing {
    pub loads: Loads,
    pub cut: i64,
    pub least: i64,
    pub kept: usize,
    pub bad: u64,
}

// A move of a pass: the vertex, and the part that it was in before.
#[repr(C)]
#[derive(Clone, Copy)]
pub struct Move {
    pub vertex: u32,
    pub part: u32,
}

// Where the walk of a pass ends: the moves made, and the standing.
#[derive(Clone, Copy)]
pub struct Walked {
    pub made: usize,
    pub last: Standing,
}

// What a pass leaves: the moves made, those kept, the cut and the loads.
#[derive(Clone, Copy)]
pub struct Passed {
    pub made: usize,
    pub kept: usize,
    pub cut: u64,
    pub loads: Loads,
}

// The moves of a pass, each chosen, recorded and made, until none may move, the bad limit stops it, or the move limit is reached.
fn walk_moves(
    frame: &Frame,
    labels: &mut [u32],
    gains: &mut [i64],
    moves: &mut [Move],
    first: Standing,
) -> Walked
    requires { WalkAsked (terms_in frame.now) labels.old gains.old moves.old first }
    ensures { let s = terms_in frame.now in
        WalkDone s labels.old moves.old (walk s frame.now.limits.moves (start s labels.old)) labels.new gains.new moves.new result.made result.last }
{
    let weights = frame.weights;
    let limits = frame.limits;
    let mut st = first;
    for made in 0..limits.moves {
        let Some(next) = moves::next_move(gains, labels, weights, st, limits) else {
            return Walked { made, last: st };
        };
        moves[made] = Move {
            vertex: next.vertex as u32,
            part: labels[next.vertex],
        };
        st = moves::make_move(frame.graph, weights, labels, gains, st, next, made + 1);
    }
    Walked {
        made: limits.moves,
        last: st,
    }
}

// The labels and the loads put back by the records from the kept prefix on.
fn rewind(
    weights: &[u32],
    labels: &mut [u32],
    moves: &[Move],
    loads: Loads,
    kept: usize,
    made: usize,
) -> Loads
    requires { RewindAsked weights.now labels.old moves.now loads.at kept made }
    ensures { (labels.new ≡ undone moves.now kept (made - kept) labels.old) × (result.at ≡ table 16 (load weights.now labels.new)) }
{
    let mut back = loads;
    for at in kept..made {
        back = steps::undo_move(weights, labels, back, moves[at]);
    }
    back
}

// A pass: fresh gains, the moves, and back to the earliest state of least cut, labels and loads.
pub fn make_pass(
    frame: &Frame,
    labels: &mut [u32],
    gains: &mut [i64],
    moves: &mut [Move],
    loads: Loads,
    cut: u64,
) -> Passed
    requires { PassAsked (terms_in frame.now) labels.old gains.old moves.old loads.at cut }
    ensures { PassDone (terms_in frame.now) labels.old moves.old labels.new moves.new result }
{
    gains::fresh_gains(frame.graph, labels, gains);
    let first = steps::first_standing(loads, cut);
    let walked = walk_moves(frame, labels, gains, moves, first);
    let made = walked.made;
    let last = walked.last;
    let back = rewind(frame.weights, labels, moves, last.loads, last.kept, made);
    steps::pass_answer(made, last.kept, last.least, back)
}
