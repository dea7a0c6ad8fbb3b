// The writer: the numbers that refuse a plan, and the blocks of one that is accepted. Document 01, "Plan blocks"; document 02, A2 and A4.
ghost use Rattle.std.specs.Prelude.{◌≡◌, ◌+◌, ◌*◌, ◌≤◌, not, ◌||◌, [], length, ◌==◌, slice_index};
ghost use Rattle.imbalance.specs.Ceiling.{unfit_choice};
ghost use Rattle.imbalance.specs.Limit.{most_vertices, most_arcs};
ghost use Rattle.plan_blocks.specs.Block.{blocks_for, blocks_of};
ghost use Rattle.plan_blocks.specs.Plan.{out_of_range};
ghost use Rattle.plan_blocks.specs.Encode.{vertex_word, arc_word};
ghost use Rattle.plan_writer.specs.Write.{given_by, plan_with, size_of};
ghost use Rattle.plan_writer.specs.inner.Writing.{accepted_as, VerticesFit, ArcsFit, laid_down, put_words, put_header, put_records, sealed};

use imbalance::Ceiling;
use lists::Refusal;
use plan_blocks::header::Header;
use plan_blocks::{block, ceiling, header, layout, words};
use topology::Graph;

// Number 12's test.
fn unfit(n: usize, a: usize, k: u32, asked: Ceiling) -> bool
    ensures { result ≡ (out_of_range n a k || unfit_choice asked) }
{
    layout::out_of_range(n, a, k) || imbalance::unfit_choice(asked)
}

// Number 1's test.
fn miscounted(labels: &[u32], weights: &[u32], graph: &Graph<'_>) -> bool
    ensures { result ≡ (not (length weights.now == length labels.now)
        || (not (length graph.now.starts == length labels.now + 1)
        || not (length graph.now.neighbours == length graph.now.weights))) }
{
    weights.len() != labels.len()
        || graph.starts.len() != labels.len() + 1
        || graph.neighbours.len() != graph.arc_weights.len()
}

// The header of a plan that is accepted for a target of so many places, or why it is refused.
pub(crate) fn accept(
    labels: &[u32],
    weights: &[u32],
    graph: &Graph<'_>,
    k: u32,
    asked: Ceiling,
    places: usize,
) -> Result<Header, Refusal>
    ensures { accepted_as (given_by labels.now weights.now graph.now k asked) places result }
{
    let n = labels.len();
    let a = graph.neighbours.len();
    if unfit(n, a, k, asked) {
        return Err(Refusal::HeaderNumbers);
    }
    if miscounted(labels, weights, graph) {
        return Err(Refusal::Lengths);
    }
    if !graph.starts_ok(n) {
        return Err(Refusal::Rows);
    }
    if imbalance::label_above(labels, k - 1) {
        return Err(Refusal::Records);
    }
    if places < 512 * layout::blocks_of(n, a) {
        return Err(Refusal::Targets);
    }
    let header = header::header_with(n, a, k, asked);
    Ok(header)
}

// Each block's first word, its kind, the file's kind and its record count; its other words are zero.
pub(crate) fn lay_out(header: Header, target: &mut [u8])
    requires { (header.n ≤ most_vertices)
        × (header.a ≤ most_arcs)
        × (size_of header.n header.a ≤ length target.old) }
    ensures { target.new ≡ laid_down header.choice header.n header.a target.old }
{
    let blocks = layout::blocks_of(header.n, header.a);
    lists::fill(target, 512 * blocks, 0);
    for b in 0..blocks {
        let kind = usize::from(layout::kind_at(header.n, b));
        let count = layout::count_at(header.choice, header.n, header.a, b);
        let opening = kind + 256 * block::NEW_KIND + 65536 * count;
        words::put_word(target, 128 * b, opening as u32);
    }
}

// Numbers put down as words, one after another, from word `first` on.
fn put_row(xs: &[u32], first: usize, target: &mut [u8])
    requires { 4 * (first + length xs.now) ≤ length target.old }
    ensures { target.new ≡ put_words (λ i. first + i) (λ i. slice_index xs.now i) (length xs.now) target.old }
{
    for (i, x) in xs.iter().enumerate() {
        words::put_word(target, first + i, *x);
    }
}

// The header's records: the first three with every choice, and with choice 3 the numbers of the parts besides.
pub(crate) fn write_header(header: Header, target: &mut [u8])
    requires { (header.n ≤ most_vertices)
        × (header.a ≤ most_arcs)
        × (size_of header.n header.a ≤ length target.old) }
    ensures { target.new ≡ put_header header target.old }
{
    let first_three = [
        header.n as u32,
        header.a as u32,
        header.k,
        header.choice,
        ceiling::low_word(header.value),
        ceiling::high_word(header.value),
    ];
    put_row(&first_three, 1, target);
    if header.choice == 3 {
        put_row(&header.each, 7, target);
    }
}

// The records of the vertices: starts become degrees.
pub(crate) fn write_vertices(labels: &[u32], weights: &[u32], graph: &Graph<'_>, target: &mut [u8])
    requires { VerticesFit labels.now weights.now graph.now.starts
        × (512 * (1 + blocks_for (length labels.now)) ≤ length target.old) }
    ensures { target.new ≡ put_records 1
        (vertex_word (plan_with labels.now weights.now graph.now.starts [] [] 0 0 0 []))
        (length labels.now)
        target.old }
{
    let starts = graph.starts;
    for v in 0..labels.len() {
        let at = layout::place(1, v);
        let degree = starts[v + 1] - starts[v];
        words::put_word(target, at, weights[v]);
        words::put_word(target, at + 1, labels[v] + 65536 * degree);
    }
}

// The records of the arcs, which stand after those of n vertices.
pub(crate) fn write_arcs(graph: &Graph<'_>, n: usize, target: &mut [u8])
    requires { ArcsFit graph.now.neighbours graph.now.weights
        × (n ≤ most_vertices)
        × (size_of n (length graph.now.neighbours) ≤ length target.old) }
    ensures { target.new ≡ put_records (1 + blocks_for n)
        (arc_word (plan_with [] [] [] graph.now.neighbours graph.now.weights 0 0 0 []))
        (length graph.now.neighbours)
        target.old }
{
    let neighbours = graph.neighbours;
    let arc_weights = graph.arc_weights;
    let first = 1 + layout::blocks_for(n);
    for e in 0..neighbours.len() {
        let at = layout::place(first, e);
        words::put_word(target, at, neighbours[e]);
        words::put_word(target, at + 1, arc_weights[e]);
    }
}

// Each block's last word, so that the sum of its words, wrapping, is the block's position. It gives the file's length.
pub(crate) fn seal(header: Header, target: &mut [u8]) -> u64
    requires { (header.n ≤ most_vertices)
        × (header.a ≤ most_arcs)
        × (size_of header.n header.a ≤ length target.old) }
    ensures { (result ≡ size_of header.n header.a) × (target.new ≡ sealed (blocks_of header.n header.a) target.old) }
{
    let blocks = layout::blocks_of(header.n, header.a);
    for b in 0..blocks {
        let sum = words::words_sum(target, 128 * b, 127);
        words::put_word(target, 128 * b + 127, (b as u32).wrapping_sub(sum));
    }
    (512 * blocks) as u64
}
