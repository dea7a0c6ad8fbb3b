// A swap: made, noted, and undone. Document 01, "KL": otherwise lock, swap, note the cut.
ghost use Rattle.std.specs.Prelude.{◌≡◌, true, ◌<◌, ◌≤◌, length, set, pos, ◌-ℤ◌};
ghost use Rattle.std.specs.Int.Signed.{mag, le_z};
ghost use Rattle.imbalance.specs.Limit.{most_vertices};
ghost use Rattle.topology.specs.Cut.{cut};
ghost use Rattle.kernighan_lin_pass.specs.Pass.{swapped};
ghost use Rattle.kernighan_lin_pass.specs.inner.Steps.{Fit, most_gain, code_of, swap_of};

use crate::choose::Pair;
use topology::Graph;

// A noted swap is one number, the first vertex times this, and the second: the C interface lends a list of u32 for them.
const CODE_BASE: u32 = 65536;

// The cut after it fell by a gain, or rose where the gain is negative.
fn fallen(before: u64, gain: i64) -> u64
    requires { (before ≤ most_gain) × (mag gain ≤ most_gain) × (le_z gain (pos before) ≡ true) }
    ensures { pos result ≡ pos before -ℤ gain }
{
    let after = (before as i64) - gain;
    after as u64
}

// The two vertices exchange their labels; the cut is kept up to date from their two rows.
pub fn swap_pair(graph: &Graph, labels: &mut [u32], pair: Pair, before: u64) -> u64
    requires { Fit (length labels.old) graph.now × (pair.one < length labels.old) × (pair.two < length labels.old) × (before ≡ cut graph.now labels.old) }
    ensures { (labels.new ≡ swapped labels.old (record { one = pair.one; two = pair.two })) × (result ≡ cut graph.now (swapped labels.old (record { one = pair.one; two = pair.two }))) }
{
    let v = pair.one;
    let w = pair.two;
    let a = labels[v];
    let b = labels[w];
    let g = graph.gain_of(labels, v, b);
    labels[v] = b;
    let h = graph.gain_of(labels, w, a);
    labels[w] = a;
    fallen(fallen(before, g), h)
}

// Both vertices are locked, and the swap is noted in place k.
pub fn note(locks: &mut [u8], swaps: &mut [u32], k: usize, pair: Pair)
    requires { (pair.one < length locks.old) × (pair.two < length locks.old) × (length locks.old ≤ most_vertices) × (k < length swaps.old) }
    ensures { (locks.new ≡ set (set locks.old pair.one 1) pair.two 1) × (swaps.new ≡ set swaps.old k (code_of (record { one = pair.one; two = pair.two }))) }
{
    locks[pair.one] = 1;
    locks[pair.two] = 1;
    swaps[k] = (pair.one as u32) * CODE_BASE + (pair.two as u32);
}

// The two vertices of a noted swap exchange their labels again.
pub fn undo(labels: &mut [u32], code: u32)
    requires { ((swap_of code).one < length labels.old) × ((swap_of code).two < length labels.old) }
    ensures { labels.new ≡ swapped labels.old (swap_of code) }
{
    let v = (code / CODE_BASE) as usize;
    let w = (code % CODE_BASE) as usize;
    labels.swap(v, w);
}
