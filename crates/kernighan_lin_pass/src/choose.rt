// The next pair to swap. Document 01, "KL": the largest in the first part, then the second part's largest likewise.
ghost use Rattle.std.specs.Prelude.{◌≡◌, true, ◌&&◌, ◌*◌, ◌≤◌, length, eqb, pos, ◌+ℤ◌};
ghost use Rattle.std.specs.Int.Signed.{mag, le_z};
ghost use Rattle.imbalance.specs.Limit.{most_vertices};
ghost use Rattle.kernighan_lin_pass.specs.Gain.{on_side, largest};
ghost use Rattle.kernighan_lin_pass.specs.inner.Steps.{Fit, Within, most_gain, found, terms_in, Chose};

use crate::{Frame, gain};

// Below every gain.
const LOWEST: i64 = -0x4000_0000_0000_0000;

// The two vertices of a swap.
#[derive(Clone, Copy)]
pub struct Pair {
    pub one: usize,
    pub two: usize,
}

// Whether an unlocked vertex is on the side asked for, and its gain at least the largest so far.
fn takes(label: u32, first: u32, side: bool, most: i64, gain: i64) -> bool
    ensures { result ≡ on_side side first label && le_z most gain }
{
    let in_first = label == first;
    in_first == side && most <= gain
}

// The vertex of the largest gain on a side, the last among equals. A lock is a u8, as C lends a list of u8; the side is a bool, as in the definition `largest`.
fn largest_on(labels: &[u32], gains: &[i64], locks: &[u8], first: u32, side: bool) -> Option<usize>
    requires { (length gains.now ≡ length labels.now) × (length locks.now ≡ length labels.now) × (length labels.now ≤ most_vertices) × Within (2 * most_gain) gains.now }
    ensures { result ≡ found (largest (λ v. true) first side labels.now gains.now locks.now) }
{
    let mut at = None;
    let mut most = LOWEST;
    for v in 0..labels.len() {
        if locks[v] == 0 {
            let gain = gains[v];
            if takes(labels[v], first, side, most, gain) {
                most = gain;
                at = Some(v);
            }
        }
    }
    at
}

// Whether the pass ends at this pair: its gains sum to 0 or less and the bad limit is 0.
fn stops(g: i64, h: i64, bad: u32) -> bool
    requires { (mag g ≤ 2 * most_gain) × (mag h ≤ 2 * most_gain) }
    ensures { result ≡ le_z (g +ℤ h) (pos 0) && eqb bad 0 }
{
    g + h <= 0 && bad == 0
}

// The next pair, and the gains after it; where the pass ends here there is none. Fresh gains are added first.
pub fn choose_pair(frame: &Frame, labels: &[u32], gains: &mut [i64], locks: &[u8]) -> Option<Pair>
    requires { Fit (length labels.now) frame.now.graph.now × (length gains.old ≡ length labels.now) × (length locks.now ≡ length labels.now) × Within most_gain gains.old }
    ensures { Chose (terms_in frame.now) labels.now gains.old locks.now result gains.new }
{
    gain::add_fresh(frame.graph, labels, gains);
    let v = largest_on(labels, gains, locks, frame.first, true)?;
    let g = gains[v];
    gain::update_neighbours(frame.graph, labels, gains, v);
    let w = largest_on(labels, gains, locks, frame.first, false)?;
    let h = gains[w];
    if stops(g, h, frame.limits.bad) {
        return None;
    }
    Some(Pair { one: v, two: w })
}
