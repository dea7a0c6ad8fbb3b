// All of the refine program but reading and writing: one function from the input's bytes to the output's. Document 01, the end of "The eight-block grid".
#![tactic(auto)]

mod runs; // runs.rt: a run of FM and a run of arc-swap, as lines

ghost use Rattle.std.specs.Prelude.{◌≡◌, false, ◌+◌, ◌≤◌, length};
ghost use Rattle.imbalance.specs.Limit.{label_above};
ghost use Rattle.plan_reader.specs.Read.{number_for};
ghost use Rattle.refine_words.specs.inner.Steps.{Put};
ghost use Rattle.refine_text.specs.Refine.{plan_vertices, plan_arcs, input_bytes, text_bytes, input_number, run_text, Printed};

use lists::Refusal;
use plan_blocks::words;
use plan_reader::ReadAnswer;
use refine_words::lines;
use topology::Graph;

// The limits of a plan that the program reads.
const PLAN_VERTICES: usize = 512;

const PLAN_ARCS: usize = 2048;

// The bytes of the longest input that is read: a header, and vertices and arcs up to their limits.
pub const INPUT_BYTES: usize = 22016;

// The bytes lent for the text.
pub const TEXT_BYTES: usize = 16384;

// The number of an input that the reader refuses by `number`: a header beyond the program's limits is 12, ahead of 13 and 14 and in place of 15. It is a number, as `ReadAnswer` has it, which C reads.
fn input_number(input: &[u8], number: u32) -> u32
    requires { (length input.now ≤ input_bytes) × (number ≡ number_for input.now plan_vertices plan_vertices (plan_vertices + 1) plan_arcs plan_arcs) × (number ≡ 0 → ⊥) }
    ensures { result ≡ input_number input.now }
{
    if number <= 12 {
        return number;
    }
    if words::word_at(input, 1) as usize > PLAN_VERTICES {
        return u32::from(Refusal::HeaderNumbers);
    }
    if words::word_at(input, 2) as usize > PLAN_ARCS {
        return u32::from(Refusal::HeaderNumbers);
    }
    number
}

// The run that the header asks for, on lists of their exact lengths.
fn refine_lists(
    read: ReadAnswer,
    graph: &Graph,
    weights: &[u32],
    labels: &mut [u32],
    out: &mut [u8; TEXT_BYTES],
) -> usize
    requires { (length labels.old ≤ plan_vertices) × (label_above 15 labels.old ≡ false) }
    ensures { Put (run_text read graph.now.starts graph.now.neighbours graph.now.weights weights.now labels.old) text_bytes 0 out.old out.new result }
{
    let ceiling = read.ceiling;
    if read.k == 2 {
        let settings = fiduccia_mattheyses::Settings {
            passes: 64,
            moves: read.n,
            bad: 0,
            ceiling,
        };
        return runs::refine_two(graph, weights, labels, settings, out);
    }
    runs::refine_many(graph, weights, labels, arc_swap::Settings { ceiling }, out)
}

// The text of an input, at the start of the output; its length.
pub fn refine_text(input: &[u8], output: &mut [u8; TEXT_BYTES]) -> usize
    ensures { Printed input.now output.old result output.new }
{
    if input.len() > INPUT_BYTES {
        return lines::put_refusal(output, u32::from(Refusal::HeaderNumbers));
    }
    let mut labels = [0u32; PLAN_VERTICES];
    let mut weights = [0u32; PLAN_VERTICES];
    let mut starts = [0u32; PLAN_VERTICES + 1];
    let mut neighbours = [0u32; PLAN_ARCS];
    let mut arc_weights = [0u32; PLAN_ARCS];
    let read = plan_reader::read_plan(
        input,
        &mut labels,
        &mut weights,
        &mut starts,
        &mut neighbours,
        &mut arc_weights,
    );
    if read.number != 0 {
        return lines::put_refusal(output, input_number(input, read.number));
    }
    let n = read.n as usize;
    let a = read.a as usize;
    // A plan that the reader accepts fits the lists that it was lent.
    prove!(n <= PLAN_VERTICES);
    prove!(a <= PLAN_ARCS);
    let graph = Graph {
        starts: &starts[..n + 1],
        neighbours: &neighbours[..a],
        arc_weights: &arc_weights[..a],
    };
    refine_lists(read, &graph, &weights[..n], &mut labels[..n], output)
}
