// Why a call is refused. Document 01, "Numbers a call gives back".
ghost use Rattle.std.specs.Prelude.{◌≡◌};
ghost use Rattle.lists.specs.Refusal.{number_in};
ghost use Rattle.fiduccia_mattheyses.specs.Entry.{unfit, short, number_of};

use crate::{Lengths, Settings};
use lists::Refusal;
use topology::Graph;

// Number 7's test.
fn unfit_settings(settings: Settings) -> bool
    ensures { result ≡ unfit settings }
{
    imbalance::MOST_PASSES < settings.passes || imbalance::unfit_choice(settings.ceiling)
}

// Number 8's test.
#[tactic(auto, unfolding(crate::specs::Entry::short))]
fn too_short(n: usize, passes: u32, lengths: Lengths) -> bool
    ensures { result ≡ short n passes lengths }
{
    let rows = passes as usize;
    lengths.gains < n || lengths.moves < n || lengths.made < rows || lengths.rewound < rows
}

// The first number that applies. It stays a call: put in its place, the many ways out of the tests make the compiler take the run behind them for a rare one, and the scan's instructions are placed so.
#[inline(never)]
pub fn check(
    graph: &Graph,
    weights: &[u32],
    labels: &[u32],
    lengths: Lengths,
    settings: Settings,
) -> Result<(), Refusal>
    ensures { number_in result ≡ number_of graph.now weights.now labels.now lengths settings }
{
    graph.check(weights, labels.len())?;
    if imbalance::label_above(labels, 1) {
        return Err(Refusal::Labels);
    }
    let unfit = unfit_settings(settings);
    let short = too_short(labels.len(), settings.passes, lengths);
    if unfit {
        return Err(Refusal::Settings);
    }
    if short {
        return Err(Refusal::Lent);
    }
    Ok(())
}
