// What a pass does beside its walk: where it starts, a move taken back, and what it leaves. Document 01, "FM".
ghost use Rattle.std.specs.Prelude.{◌≡◌, true, ◌≤◌, pos};
ghost use Rattle.std.specs.Int.Signed.{le_z};
ghost use Rattle.fiduccia_mattheyses_pass.specs.inner.Bounds.{most_cut};
ghost use Rattle.fiduccia_mattheyses_pass.specs.inner.Steps.{first_standing, UndoAsked, UndoDone};

use crate::{Move, Passed, Standing};
use imbalance::Loads;

// Where a pass starts: nothing is moved, and the cut is the least so far.
pub fn first_standing(loads: Loads, cut: u64) -> Standing
    requires { cut ≤ most_cut }
    ensures { result ≡ first_standing loads cut }
{
    Standing {
        loads,
        cut: cut as i64,
        least: cut as i64,
        kept: 0,
        bad: 0,
    }
}

// One move taken back: its vertex is in the part before it again, which is the other of the two, and the loads follow.
pub fn undo_move(weights: &[u32], labels: &mut [u32], loads: Loads, m: Move) -> Loads
    requires { UndoAsked weights.now labels.old loads.at m }
    ensures { UndoDone weights.now labels.old loads.at m labels.new result.at }
{
    let v = m.vertex as usize;
    let from = labels[v];
    let taken_back = imbalance::moved_loads(loads, from, 1 - from, weights[v]);
    labels[v] = m.part;
    taken_back
}

// What a pass leaves, its least cut as a plain number.
pub fn pass_answer(made: usize, kept: usize, least: i64, loads: Loads) -> Passed
    requires { le_z (pos 0) least ≡ true }
    ensures { (result.made ≡ made) × (result.kept ≡ kept) × (pos result.cut ≡ least) × (result.loads ≡ loads) }
{
    Passed {
        made,
        kept,
        cut: least as u64,
        loads,
    }
}
