// What comes of a popped vertex. Document 01, "Gain 0 or less: no-gain count. Else target load above the ceiling: bad-balance count."
ghost use Rattle.std.specs.Prelude.{◌≡◌};
ghost use Rattle.arc_swap_attempt.specs.Trial.{trial};
ghost use Rattle.arc_swap_attempt.specs.inner.Steps.{Tryable};

use crate::{Frame, Trial, gains};
use imbalance::Loads;

// The trial of v: its best part only, by its gain and then by the part's load.
pub fn try_vertex(frame: &Frame, labels: &[u32], loads: Loads, v: usize) -> Trial
    requires { Tryable frame.now.graph.now frame.now.limits.parts frame.now.weights.now frame.now.limits.ceilings.at loads.at labels.now v }
    ensures { result ≡ trial frame.now.graph.now frame.now.limits.parts frame.now.weights.now frame.now.limits.ceilings.at labels.now v }
{
    let own = labels[v] as usize;
    let sums = gains::sums_of(frame.graph, labels, v);
    let best = gains::best_part(sums, own, frame.limits.parts);
    let here = sums.at[own];
    if best.sum <= here {
        return Trial::NoGain;
    }
    let t = best.part;
    let load = loads.at[t] + u64::from(frame.weights[v]);
    if frame.limits.ceilings.at[t] < load {
        return Trial::BadBalance;
    }
    Trial::Goes(t as u32, best.sum - here)
}
