// The plan file's reader. Document 01, "Plan blocks"; document 02, A2 and A4.
#![tactic(auto)]

ghost use Rattle.plan_reader.specs.Read.{Read};

use imbalance::Ceiling;
use reader::Lengths;

mod reader; // reader.rt: the numbers that refuse a file, and the records

// What the reader answers: document 01's number, and where that is 0 the header. A value that the ceiling's choice does not use is 0. C reads it, so that the refusal is a number.
#[repr(C)]
#[derive(Clone, Copy)]
pub struct ReadAnswer {
    pub number: u32,
    pub n: u32,
    pub a: u32,
    pub k: u32,
    pub ceiling: Ceiling,
}

// Reads a plan into the five targets. A refusal writes nothing; targets keep what stood past the plan's end. C lends each target by itself.
pub fn read_plan(
    bytes: &[u8],
    labels: &mut [u32],
    weights: &mut [u32],
    starts: &mut [u32],
    neighbours: &mut [u32],
    arc_weights: &mut [u32],
) -> ReadAnswer
    ensures { Read
        bytes.now
        (record { labels = labels.entry.now; weights = weights.old; starts = starts.old; neighbours = neighbours.old; arc_weights = arc_weights.old })
        result
        (record { labels = labels.exit.now; weights = weights.new; starts = starts.new; neighbours = neighbours.new; arc_weights = arc_weights.new }) }
{
    let lengths = Lengths {
        labels: labels.len(),
        weights: weights.len(),
        starts: starts.len(),
        neighbours: neighbours.len(),
        arc_weights: arc_weights.len(),
    };
    match reader::accept(bytes, lengths) {
        Err(refusal) => reader::refused(refusal),
        Ok(header) => {
            reader::read_vertices(bytes, header.n, labels, weights, starts);
            reader::read_arcs(bytes, header.n, header.a, neighbours, arc_weights);
            reader::read_header(header)
        }
    }
}
