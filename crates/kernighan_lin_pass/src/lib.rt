// A pass of Kernighan-Lin: coupe's algorithms/kernighan_lin.rs, what its outer loop repeats. Document 01, "KL".
#![tactic(auto)]

mod choose; // choose.rt: the next pair to swap
mod gain; // gain.rt: the gains of a pass
mod pass; // pass.rt: the swaps of a pass, and the rewind
mod swap; // swap.rt: a swap made, noted and undone

pub use pass::make_pass;
use topology::Graph;

// What bounds the swaps of a pass: the bad limit, and the most swaps.
#[derive(Clone, Copy)]
pub struct Limits {
    pub bad: u32,
    pub swaps: usize,
}

// What stands still during a pass: the graph, the first part, and what bounds the swaps.
#[derive(Drop)]
pub struct Frame<'a> {
    pub graph: &'a Graph<'a>,
    pub first: u32,
    pub limits: Limits,
}
