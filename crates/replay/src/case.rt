// A case: what a line gives to call an algorithm on. Document 01, its opening: coupe decides labels and counts.
use crate::reader::{Mismatch, Reader};
use imbalance::{MOST_ARCS, MOST_VERTICES};
use topology::Graph;

// Room for the lists of any case: fixed memory, as the reader's is.
#[derive(Drop)]
pub struct Room {
    weights: [u32; MOST_VERTICES],
    starts: [u32; MOST_VERTICES + 1],
    neighbours: [u32; MOST_ARCS],
    arc_weights: [u32; MOST_ARCS],
    labels: [u32; MOST_VERTICES],
}

// The lists of a case, each at its exact length. The refiners write the labels, which a call takes out of the case before it lends the graph: the borrow check follows no field that is written while another is lent.
#[derive(Drop)]
pub struct Case<'a> {
    pub weights: &'a [u32],
    pub graph: Graph<'a>,
    pub labels: &'a mut [u32],
}

impl Room {
    pub fn new() -> Self {
        Room {
            weights: [0; MOST_VERTICES],
            starts: [0; MOST_VERTICES + 1],
            neighbours: [0; MOST_ARCS],
            arc_weights: [0; MOST_ARCS],
            labels: [0; MOST_VERTICES],
        }
    }

    // Reads the vertices and the arcs, and the five lists.
    pub fn read_case(&mut self, reader: &mut Reader) -> Result<Case, Mismatch> {
        let n = reader.read_up_to(MOST_VERTICES)?;
        let a = reader.read_up_to(MOST_ARCS)?;
        let Room {
            weights,
            starts,
            neighbours,
            arc_weights,
            labels,
        } = self;
        Ok(Case {
            weights: reader.read_list(n, weights)?,
            graph: Graph {
                starts: reader.read_list(n + 1, starts)?,
                neighbours: reader.read_list(a, neighbours)?,
                arc_weights: reader.read_list(a, arc_weights)?,
            },
            labels: reader.read_list(n, labels)?,
        })
    }
}
