// The graph in rows: coupe's topology/mod.rs. Document 01, "The graph and its numbers".
#![tactic(auto)]

mod cut; // cut.rt: the edge cut and its stand-alone call
mod gain; // gain.rt: the gain of a vertex
mod lambda; // lambda.rt: the lambda cut and its stand-alone call
mod number; // number.rt: the numbers 1 to 5 of a graph
mod opposites; // opposites.rt: the test of number 4
mod rows; // rows.rt: the tests of numbers 1, 2 and 3

ghost use Rattle.std.specs.Prelude.{◌≡◌, ◌+◌, ◌<◌, length};
ghost use Rattle.topology.specs.Graph.{first, past, neighbour, weight};

pub use gain::twice;
use std::marker::Model;

// A graph in rows, as it is lent: row u's arcs are those from starts[u] up to starts[u + 1]; arc e goes to neighbours[e] and weighs arc_weights[e]. They are three lists, as C lends them. Order in the rows is asked by a clause and is no invariant, since the tests of 1 to 4 take every graph.
#[derive(Drop)]
pub struct Graph<'a> {
    pub starts: &'a [u32],
    pub neighbours: &'a [u32],
    pub arc_weights: &'a [u32],
}

// A clause sees the three lists as the one graph of the definitions.
impl<'a> Model for Graph<'a> {
    ghost use Rattle.topology.specs.Graph.{Graph, in_rows};

    ghost Value = { Graph };

    ghost view = { λ lent. in_rows lent.starts.now lent.neighbours.now lent.arc_weights.now };
}

impl<'a> Graph<'a> {
    // Row u's first arc.
    pub fn first(&self, u: usize) -> usize
        requires { u < length self.now.starts }
        ensures { result ≡ first self.now u }
    {
        let starts = self.starts;
        starts[u] as usize
    }

    // The arc past row u.
    pub fn past(&self, u: usize) -> usize
        requires { u + 1 < length self.now.starts }
        ensures { result ≡ past self.now u }
    {
        let starts = self.starts;
        starts[u + 1] as usize
    }

    // The vertex that arc e goes to.
    pub fn neighbour(&self, e: usize) -> usize
        requires { e < length self.now.neighbours }
        ensures { result ≡ neighbour self.now e }
    {
        let neighbours = self.neighbours;
        neighbours[e] as usize
    }

    // What arc e weighs.
    pub fn weight(&self, e: usize) -> u32
        requires { e < length self.now.weights }
        ensures { result ≡ weight self.now e }
    {
        let arc_weights = self.arc_weights;
        arc_weights[e]
    }
}

// What the stand-alone cuts answer: document 01's number, and the cut where it is 0. C reads it, so that the refusal is a number.
#[repr(C)]
#[derive(Clone, Copy)]
pub struct CutAnswer {
    pub number: u32,
    pub cut: u64,
}
