// The reader: the numbers that refuse a file, and the records of one that is accepted. Document 01, "Plan blocks"; document 02, A2 and A4.
ghost use Rattle.std.specs.Prelude.{◌≡◌, false, ◌+◌, ◌*◌, ◌≤◌, ◌<◌, length};
ghost use Rattle.lists.specs.Fill.{over};
ghost use Rattle.imbalance.specs.Limit.{most_vertices, most_arcs};
ghost use Rattle.plan_blocks.specs.Block.{blocks_of, kind_at, count_at, laid_out};
ghost use Rattle.plan_blocks.specs.Decode.{in_block, blocks_in, kind_of, header_at, bad_length, bad_check, bad_numbers, later_laid, bad_later, bad_records, plan_of, file_number};
ghost use Rattle.plan_reader.specs.Read.{short, starts_of, ceiling_in, header_answer, refusal_of};
ghost use Rattle.lists.specs.Refusal.{number_of, number_in};
ghost use Rattle.plan_reader.specs.inner.Reading.{frame_number, plan_number, accepted_as};

use crate::ReadAnswer;
use imbalance::Ceiling;
use lists::Refusal;
use plan_blocks::header::Header;
use plan_blocks::layout::BlockKind;
use plan_blocks::{block, ceiling, header, layout, words};

// How long the five targets are.
#[derive(Clone, Copy)]
pub(crate) struct Lengths {
    pub(crate) labels: usize,
    pub(crate) weights: usize,
    pub(crate) starts: usize,
    pub(crate) neighbours: usize,
    pub(crate) arc_weights: usize,
}

// Number 9's test.
fn bad_length(bytes: &[u8]) -> bool
    ensures { result ≡ bad_length bytes.now }
{
    bytes.len() == 0 || bytes.len() % 512 != 0
}

// Number 10's test: one walk over the file.
fn bad_check(bytes: &[u8], file: usize) -> bool
    ensures { result ≡ bad_check file bytes.now }
{
    !(0..bytes.len() / 512).all(|b| block::checks(bytes, file, b))
}

// Whether later block b is laid out as the file's kind, n and a ask.
fn later_block_laid(bytes: &[u8], file: usize, header: Header, b: usize) -> bool
    requires { (file < 256)
        × (header.n ≤ most_vertices)
        × (header.a ≤ most_arcs)
        × (b < blocks_of header.n header.a)
        × (512 * b + 512 ≤ length bytes.now) }
    ensures { result ≡ laid_out file (kind_at header.n b) (count_at header.choice header.n header.a b) (in_block bytes.now b) }
{
    let kind = usize::from(layout::kind_at(header.n, b));
    let count = layout::count_at(header.choice, header.n, header.a, b);
    block::laid_out(bytes, b, file, kind, count)
}

// Whether each later block is laid out as the file's kind, n and a ask.
fn later_laid(bytes: &[u8], file: usize, header: Header) -> bool
    requires { (file < 256)
        × (header.n ≤ most_vertices)
        × (header.a ≤ most_arcs)
        × (blocks_in bytes.now ≡ blocks_of header.n header.a) }
    ensures { result ≡ later_laid file header bytes.now }
{
    (1..bytes.len() / 512).all(|b| later_block_laid(bytes, file, header, b))
}

// Number 13's test.
fn bad_later(bytes: &[u8], header: Header) -> bool
    requires { bad_numbers header ≡ false }
    ensures { result ≡ bad_later (kind_of bytes.now) header bytes.now }
{
    bytes.len() / 512 != layout::blocks_of(header.n, header.a)
        || !later_laid(bytes, block::kind_of(bytes), header)
}

// Number 14's test: one walk over the vertices' records.
fn bad_records(bytes: &[u8], header: Header) -> bool
    requires { (bad_numbers header ≡ false) × (512 * blocks_of header.n header.a ≤ length bytes.now) }
    ensures { result ≡ bad_records header bytes.now }
{
    let mut sum: usize = 0;
    for v in 0..header.n {
        let x = words::word_at(bytes, layout::place(1, v) + 1);
        if x % 65536 >= header.k {
            return true;
        }
        sum += (x / 65536) as usize;
    }
    sum != header.a
}

// The first of 9, 11 for the file's kind, 10 and 11 that applies: what the bytes show before the header is decoded.
fn check_frame(bytes: &[u8]) -> Result<(), Refusal>
    ensures { number_in result ≡ frame_number bytes.now }
{
    if bad_length(bytes) {
        return Err(Refusal::FileLength);
    }
    let file = block::kind_of(bytes);
    if 1 < file {
        return Err(Refusal::HeaderLayout);
    }
    if bad_check(bytes, file) {
        return Err(Refusal::Check);
    }
    // How the header is laid out is judged by its choice, before it is decoded.
    let kind = usize::from(BlockKind::Header);
    let count = layout::header_count(words::word_at(bytes, 4));
    if !block::laid_out(bytes, 0, file, kind, count) {
        return Err(Refusal::HeaderLayout);
    }
    Ok(())
}

// Number 15's test.
fn short_of(n: usize, a: usize, lengths: Lengths) -> bool
    requires { n ≤ most_vertices }
    ensures { result ≡ short n a lengths.labels lengths.weights lengths.starts lengths.neighbours lengths.arc_weights }
{
    lengths.labels < n
        || lengths.weights < n
        || lengths.starts < n + 1
        || lengths.neighbours < a
        || lengths.arc_weights < a
}

// The smallest of 12 to 15 that applies: what the decoded header shows of the file and of the targets' lengths.
fn check_plan(bytes: &[u8], header: Header, lengths: Lengths) -> Result<(), Refusal>
    requires { bad_length bytes.now ≡ false }
    ensures { number_in result ≡ plan_number header bytes.now lengths.labels lengths.weights lengths.starts lengths.neighbours lengths.arc_weights }
{
    if header::bad_numbers(header) {
        return Err(Refusal::HeaderNumbers);
    }
    if bad_later(bytes, header) {
        return Err(Refusal::LaterBlocks);
    }
    if bad_records(bytes, header) {
        return Err(Refusal::Records);
    }
    if short_of(header.n, header.a, lengths) {
        return Err(Refusal::Targets);
    }
    Ok(())
}

// The header of a file that is accepted for targets of these lengths, or why it is refused.
pub(crate) fn accept(bytes: &[u8], lengths: Lengths) -> Result<Header, Refusal>
    ensures { accepted_as bytes.now lengths result }
{
    check_frame(bytes)?;
    let header = header::header_of(bytes);
    check_plan(bytes, header, lengths)?;
    Ok(header)
}

// A refusal: its number, and zero in every other field.
pub(crate) fn refused(refusal: Refusal) -> ReadAnswer
    ensures { result ≡ refusal_of (number_of refusal) }
{
    ReadAnswer {
        number: u32::from(refusal),
        n: 0,
        a: 0,
        k: 0,
        ceiling: Ceiling {
            choice: 0,
            whole: 0,
            imbalance: 0.0,
            each: [0; 16],
        },
    }
}

// The ceiling of a header, as the reader hands it over.
fn ceiling_in(header: Header) -> Ceiling
    requires { bad_numbers header ≡ false }
    ensures { result ≡ ceiling_in header }
{
    // The borrow checker does not yet take an array of a field straight into a literal.
    let each = header.each;
    Ceiling {
        choice: header.choice,
        whole: ceiling::whole_of(header.choice, header.value),
        imbalance: ceiling::imbalance_of(header.choice, header.value),
        each,
    }
}

// The header, as the reader hands it over.
pub(crate) fn read_header(header: Header) -> ReadAnswer
    requires { bad_numbers header ≡ false }
    ensures { result ≡ header_answer header }
{
    ReadAnswer {
        number: 0,
        n: header.n as u32,
        a: header.a as u32,
        k: header.k,
        ceiling: ceiling_in(header),
    }
}

// The records of the vertices: degrees become starts.
pub(crate) fn read_vertices(
    bytes: &[u8],
    n: usize,
    labels: &mut [u32],
    weights: &mut [u32],
    starts: &mut [u32],
)
    requires { (file_number bytes.now ≡ 0)
        × (n ≡ (header_at bytes.now).n)
        × (n ≤ length labels.old)
        × (n ≤ length weights.old)
        × (n + 1 ≤ length starts.old) }
    ensures { (labels.new ≡ over (plan_of bytes.now).labels labels.old)
        × (weights.new ≡ over (plan_of bytes.now).weights weights.old)
        × (starts.new ≡ over (starts_of (header_at bytes.now).n (plan_of bytes.now).degrees) starts.old) }
{
    let mut row: u32 = 0;
    for v in 0..n {
        let at = layout::place(1, v);
        let x = words::word_at(bytes, at + 1);
        weights[v] = words::word_at(bytes, at);
        labels[v] = x % 65536;
        starts[v] = row;
        row += x / 65536;
    }
    starts[n] = row;
}

// The records of the arcs, which stand after those of n vertices.
pub(crate) fn read_arcs(
    bytes: &[u8],
    n: usize,
    a: usize,
    neighbours: &mut [u32],
    arc_weights: &mut [u32],
)
    requires { (file_number bytes.now ≡ 0)
        × (n ≡ (header_at bytes.now).n)
        × (a ≡ (header_at bytes.now).a)
        × (a ≤ length neighbours.old)
        × (a ≤ length arc_weights.old) }
    ensures { (neighbours.new ≡ over (plan_of bytes.now).neighbours neighbours.old)
        × (arc_weights.new ≡ over (plan_of bytes.now).arc_weights arc_weights.old) }
{
    let first = 1 + layout::blocks_for(n);
    for e in 0..a {
        let at = layout::place(first, e);
        neighbours[e] = words::word_at(bytes, at);
        arc_weights[e] = words::word_at(bytes, at + 1);
    }
}
