// A pass: its swaps, and the rewind. Document 01, "KL".
ghost use Rattle.std.specs.Prelude.{◌≡◌, ◌||◌, ◌-◌, ◌<◌, ◌≤◌, length, ltb, eqb};
ghost use Rattle.topology.specs.Cut.{cut};
ghost use Rattle.kernighan_lin_pass.specs.Pass.{start, walk};
ghost use Rattle.kernighan_lin_pass.specs.inner.Steps.{Fit, Coded, WalkAsked, WalkDone, LentLong, most_swaps, counted, terms_in, back};

use crate::{Frame, choose, swap};

// The swaps made, how many of them are kept, and the cut after those.
#[derive(Clone, Copy)]
pub struct Walked {
    pub made: usize,
    pub kept: usize,
    pub least: u64,
}

// Whether the cut after one more swap is the one to rewind to: the first, or a lower one.
fn lower(walked: Walked, after: u64) -> bool
    ensures { result ≡ eqb walked.made 0 || ltb after walked.least }
{
    walked.made == 0 || after < walked.least
}

// One more swap, and the cut after it.
fn count_swap(walked: Walked, after: u64) -> Walked
    requires { walked.made < most_swaps }
    ensures { result ≡ counted walked after }
{
    let made = walked.made + 1;
    if lower(walked, after) {
        return Walked {
            made,
            kept: made,
            least: after,
        };
    }
    Walked { made, ..walked }
}

// The swaps of a pass, within its limits. Here and in what calls this the four lent lists stay parameters: a struct of them would ask each function for a clause on every field, that it is still the list that was lent.
fn walk_swaps(
    frame: &Frame,
    labels: &mut [u32],
    gains: &mut [i64],
    locks: &mut [u8],
    swaps: &mut [u32],
    before: u64,
) -> Walked
    requires { WalkAsked (terms_in frame.now) labels.old gains.old locks.old (length swaps.old) frame.now.limits.swaps before }
    ensures { WalkDone (terms_in frame.now) frame.now.limits.swaps labels.old labels.new swaps.new result }
{
    let mut after = before;
    let mut walked = Walked {
        made: 0,
        kept: 0,
        least: before,
    };
    for k in 0..frame.limits.swaps {
        let Some(pair) = choose::choose_pair(frame, labels, gains, locks) else {
            return walked;
        };
        after = swap::swap_pair(frame.graph, labels, pair, after);
        swap::note(locks, swaps, k, pair);
        walked = count_swap(walked, after);
    }
    walked
}

// The swaps past those kept are undone, the last first.
fn rewind(labels: &mut [u32], swaps: &[u32], kept: usize, made: usize)
    requires { (kept ≤ made) × (made ≤ length swaps.now) × Coded (length labels.old) made swaps.now }
    ensures { labels.new ≡ back swaps.now made (made - kept) labels.old }
{
    for k in (kept..made).rev() {
        swap::undo(labels, swaps[k]);
    }
}

// One pass: gains and locks start at 0, and the labels are left at the earliest least cut after at least one swap. Answers that cut.
pub fn make_pass(
    frame: &Frame,
    labels: &mut [u32],
    gains: &mut [i64],
    locks: &mut [u8],
    swaps: &mut [u32],
    before: u64,
) -> u64
    requires { Fit (length labels.old) frame.now.graph.now × LentLong labels.old gains.old locks.old (length swaps.old) frame.now.limits.swaps × (before ≡ cut frame.now.graph.now labels.old) }
    ensures { let s = terms_in frame.now in
        (labels.new ≡ (walk s frame.now.limits.swaps (start s labels.old)).kept) × (result ≡ cut frame.now.graph.now labels.new) }
{
    let n = labels.len();
    lists::fill(gains, n, 0);
    lists::fill(locks, n, 0);
    let walked = walk_swaps(frame, labels, gains, locks, swaps, before);
    rewind(labels, swaps, walked.kept, walked.made);
    walked.least
}
