// Why a call is refused, and the parts that its labels name. Document 01, "Numbers a call gives back" and "Arc-swap".
ghost use Rattle.topology.specs.Given.{given};
ghost use Rattle.std.specs.Prelude.{◌≡◌, false};
ghost use Rattle.lists.specs.Refusal.{number_in};
ghost use Rattle.imbalance.specs.Limit.{label_above};
ghost use Rattle.arc_swap.specs.Entry.{number, parts_of};

use crate::Settings;
use lists::Refusal;
use topology::Graph;

// The first number that applies.
pub fn check(
    graph: &Graph,
    weights: &[u32],
    labels: &[u32],
    settings: Settings,
) -> Result<(), Refusal>
    ensures { number_in result ≡ number (given graph.now weights.now settings) labels.now }
{
    graph.check(weights, labels.len())?;
    if imbalance::label_above(labels, 15) {
        return Err(Refusal::Labels);
    }
    if imbalance::unfit_choice(settings.ceiling) {
        return Err(Refusal::Settings);
    }
    Ok(())
}

// The largest label + 1, at least 2.
pub fn parts_of(labels: &[u32]) -> u32
    requires { label_above 15 labels.now ≡ false }
    ensures { result ≡ parts_of labels.now }
{
    let mut most = 0;
    for label in labels {
        most = most.max(*label);
    }
    (most + 1).max(2)
}
