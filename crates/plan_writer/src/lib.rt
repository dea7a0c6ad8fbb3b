// The plan file's writer. Document 01, "Plan blocks"; document 02, A2 and A4.
#![tactic(auto)]

ghost use Rattle.plan_writer.specs.Write.{given_by, Written};

use imbalance::Ceiling;
use topology::Graph;

mod writer; // writer.rt: the numbers that refuse a plan, and the blocks

// What the writer answers: document 01's number, and the length that it wrote, 0 on a refusal. C reads it, so that the refusal is a number.
#[repr(C)]
#[derive(Clone, Copy)]
pub struct WriteAnswer {
    pub number: u32,
    pub length: u64,
}

// Writes a plan into the target. A refusal writes nothing; the target keeps what stood past the plan's end.
pub fn write_plan(
    labels: &[u32],
    weights: &[u32],
    graph: &Graph<'_>,
    k: u32,
    asked: Ceiling,
    target: &mut [u8],
) -> WriteAnswer
    ensures { Written (given_by labels.entry.now weights.now graph.now k asked) target.old result target.new }
{
    match writer::accept(labels, weights, graph, k, asked, target.len()) {
        Err(refusal) => WriteAnswer {
            number: u32::from(refusal),
            length: 0,
        },
        Ok(header) => {
            writer::lay_out(header, target);
            writer::write_header(header, target);
            writer::write_vertices(labels, weights, graph, target);
            writer::write_arcs(graph, header.n, target);
            let length = writer::seal(header, target);
            WriteAnswer { number: 0, length }
        }
    }
}
