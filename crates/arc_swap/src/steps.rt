// What a run does between its walks: where it begins, and how a pass ends it. Document 01, "Arc-swap".
ghost use Rattle.topology.specs.Given.{given};
ghost use Rattle.std.specs.Prelude.{◌≡◌};
ghost use Rattle.arc_swap.specs.inner.Steps.{end_by, Ready, Begins};

use crate::{Begun, Settings, number};
use arc_swap_attempt::{Limits, Standing};
use lists::End;
use topology::Graph;

// How a pass ends the run: where pushes did not fit, and where the cut did not fall. Else the run goes on.
pub fn end_of(before: u64, fits: bool, after: u64) -> Option<End>
    ensures { result ≡ end_by before fits after }
{
    if !fits {
        return Some(End::StackFull);
    }
    if before <= after {
        return Some(End::NoGain);
    }
    None
}

// What a run begins with.
pub fn begin_run(graph: &Graph, weights: &[u32], labels: &[u32], settings: Settings) -> Begun
    requires { Ready (given graph.now weights.now settings) labels.now }
    ensures { Begins
        (given graph.now weights.now settings)
        labels.now result }
{
    let parts = number::parts_of(labels);
    let loads = imbalance::parts_load(weights, labels);
    let total = imbalance::total_weight(weights);
    let ceilings = imbalance::ceilings_of(loads, total, parts, settings.ceiling);
    let st = Standing {
        fits: true,
        top: 0,
        cut: graph.cut_of(labels),
        loads,
    };
    let limits = Limits {
        ceilings,
        parts: parts as usize,
    };
    Begun { limits, st }
}
