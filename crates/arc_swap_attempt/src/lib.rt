// An attempt of arc-swap: coupe's algorithms/arc_swap.rs, inside `make_move`. Document 01, "Arc-swap".
#![tactic(auto)]

mod gains; // gains.rt: the gains of a vertex to all parts
mod moves; // moves.rt: a move, and the pushes after it
mod trials; // trials.rt: what comes of a popped vertex

use imbalance::{Ceilings, Loads};
pub use moves::move_vertex;
use topology::Graph;
pub use trials::try_vertex;

// What bounds the moves of a run: the ceiling of each part, and how many parts there are.
#[derive(Clone, Copy)]
pub struct Limits {
    pub ceilings: Ceilings,
    pub parts: usize,
}

// What stands still during a run: the graph, the vertex weights, and what bounds the moves.
#[derive(Drop)]
pub struct Frame<'a> {
    pub graph: &'a Graph<'a>,
    pub weights: &'a [u32],
    pub limits: Limits,
}

// A vertex's arc weight into each of the sixteen parts.
#[derive(Clone, Copy)]
pub struct Sums {
    pub at: [u64; 16],
}

// A part, and a vertex's arc weight into it.
#[derive(Clone, Copy)]
pub struct Target {
    pub part: usize,
    pub sum: u64,
}

// What comes of an attempt: no gain, too heavy a target, or a move to a part with a gain. Each of the three has a count of its own, so that none is the error of another.
#[derive(Clone, Copy)]
pub enum Trial {
    NoGain,
    BadBalance,
    Goes(u32, u64),
}

// Where a run stands after a move: whether the pushes fit, the places held, the cut and the loads. The places are held whether the pushes fit or not, so that the flag is no test of their count. The stack is C's list with its height beside it, as there is no heap.
#[derive(Clone, Copy)]
pub struct Standing {
    pub fits: bool,
    pub top: usize,
    pub cut: u64,
    pub loads: Loads,
}
