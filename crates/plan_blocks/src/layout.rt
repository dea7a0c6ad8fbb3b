// How many blocks there are, and their kinds and record counts. Document 01, "Plan blocks"; document 02, A4.
ghost use Rattle.std.specs.Prelude.{◌≡◌, ◌+◌, ◌*◌, ◌/◌, ◌%◌, ◌<◌, ◌≤◌};
ghost use Rattle.imbalance.specs.Limit.{most_vertices, most_arcs};
ghost use Rattle.plan_blocks.specs.Block.{blocks_for, blocks_of, held_by, header_count, kind_at, count_at};
ghost use Rattle.plan_blocks.specs.Kind.{kind_number};
ghost use Rattle.plan_blocks.specs.Plan.{out_of_range};

// "Blocks stand by kind, 1, 2, 3".
#[derive(Clone, Copy, Debug, PartialEq, Eq)]
pub enum BlockKind {
    Header = 1,
    Vertices = 2,
    Arcs = 3,
}

// The number that a block's first byte holds.
impl From<BlockKind> for usize {
    ghost from_gives = { λ kind number. number ≡ kind_number kind };

    fn from(kind: BlockKind) -> usize {
        kind as usize
    }
}

// The blocks that so many records fill.
pub fn blocks_for(records: usize) -> usize
    requires { records ≤ most_arcs }
    ensures { result ≡ blocks_for records }
{
    records.div_ceil(63)
}

// The blocks of a plan of n vertices and a arcs.
pub fn blocks_of(n: usize, a: usize) -> usize
    requires { (n ≤ most_vertices) × (a ≤ most_arcs) }
    ensures { result ≡ blocks_of n a }
{
    1 + blocks_for(n) + blocks_for(a)
}

// The records in block i of a later kind.
fn held_by(records: usize, i: usize) -> usize
    requires { (i ≤ most_arcs) × (63 * i ≤ records) }
    ensures { result ≡ held_by records i }
{
    (records - 63 * i).min(63)
}

// Block b's kind.
pub fn kind_at(n: usize, b: usize) -> BlockKind
    requires { n ≤ most_vertices }
    ensures { kind_number result ≡ kind_at n b }
{
    if b == 0 {
        BlockKind::Header
    } else if b <= blocks_for(n) {
        BlockKind::Vertices
    } else {
        BlockKind::Arcs
    }
}

// The header's record count: choice 3 has a number for each part besides.
pub fn header_count(choice: u32) -> usize
    ensures { result ≡ header_count choice }
{
    if choice == 3 { 11 } else { 3 }
}

// Block b's record count.
pub fn count_at(choice: u32, n: usize, a: usize, b: usize) -> usize
    requires { (n ≤ most_vertices) × (a ≤ most_arcs) × (b < blocks_of n a) }
    ensures { result ≡ count_at choice n a b }
{
    match kind_at(n, b) {
        BlockKind::Header => header_count(choice),
        BlockKind::Vertices => held_by(n, b - 1),
        BlockKind::Arcs => held_by(a, b - 1 - blocks_for(n)),
    }
}

// Whether n, a or k is out of its range.
pub fn out_of_range(n: usize, a: usize, k: u32) -> bool
    ensures { result ≡ out_of_range n a k }
{
    n == 0 || imbalance::MOST_VERTICES < n || imbalance::MOST_ARCS < a || k < 2 || 16 < k
}

// The first word of record i of a kind, where the blocks of that kind start at block `first`.
pub fn place(first: usize, i: usize) -> usize
    requires { (first ≤ most_arcs) × (i ≤ most_arcs) }
    ensures { result ≡ 128 * (first + i / 63) + 1 + 2 * (i % 63) }
{
    128 * (first + i / 63) + 1 + 2 * (i % 63)
}
