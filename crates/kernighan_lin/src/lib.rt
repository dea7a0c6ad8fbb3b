// Kernighan-Lin between two parts: coupe's algorithms/kernighan_lin.rs. Document 01, "KL".
#![tactic(auto)]

mod answers; // answers.rt: what a call answers
mod number; // number.rt: why a call is refused

ghost use Rattle.topology.specs.Given.{given};
ghost use Rattle.std.specs.Prelude.{◌≡◌, ◌/◌, min, get_or};
ghost use Rattle.kernighan_lin_pass.specs.inner.Steps.{terms_by};
ghost use Rattle.kernighan_lin.specs.Entry.{Refined};
ghost use Rattle.kernighan_lin.specs.inner.Steps.{PassesAsked, PassesDone, Ready, Ran};

use kernighan_lin_pass::{Frame, Limits};
use lists::End;
use topology::Graph;

// The limits of a run: passes, swaps in a pass, and bad swaps.
#[repr(C)]
#[derive(Clone, Copy)]
pub struct Settings {
    pub passes: u32,
    pub swaps: u32,
    pub bad: u32,
}

// What a call answers: document 01's number, and where it is 0 the end, the passes, and the cut before and after. C reads it, so that refusal and end are numbers.
#[repr(C)]
#[derive(Clone, Copy)]
pub struct Report {
    pub number: u32,
    pub end: u32,
    pub passes: u32,
    pub first: u64,
    pub last: u64,
}

// The lengths of the lent lists.
#[derive(Clone, Copy)]
pub struct Lengths {
    pub gains: usize,
    pub locks: usize,
    pub swaps: usize,
}

// The most swaps of a pass: half the vertices, rounded down, and the swap limit.
fn most_swaps(limit: u32, n: usize) -> usize
    ensures { result ≡ min limit (n / 2) }
{
    (limit as usize).min(n / 2)
}

// What bounds a pass of n vertices.
fn limits_of(settings: Settings, n: usize) -> Limits
    ensures { result ≡ record { bad = settings.bad; swaps = min settings.swaps (n / 2) } }
{
    Limits {
        bad: settings.bad,
        swaps: most_swaps(settings.swaps, n),
    }
}

// The passes, from labels, lists and settings that are in order. The first part is that of vertex 0, for all passes.
fn make_passes(
    graph: &Graph,
    labels: &mut [u32],
    gains: &mut [i64],
    locks: &mut [u8],
    swaps: &mut [u32],
    settings: Settings,
) -> Report
    requires { PassesAsked graph.now labels.old gains.old locks.old swaps.old settings.passes }
    ensures { PassesDone (terms_by graph.now (get_or labels.old 0 0) settings.bad) settings.swaps settings.passes labels.old result labels.new }
{
    let frame = Frame {
        graph,
        first: labels[0],
        limits: limits_of(settings, labels.len()),
    };
    let before = graph.cut_of(labels);
    let mut last = before;
    for i in 0..settings.passes {
        let after = kernighan_lin_pass::make_pass(&frame, labels, gains, locks, swaps, last);
        if last <= after {
            return answers::run_report(End::NoGain, i + 1, before, after);
        }
        last = after;
    }
    answers::run_report(End::PassLimit, settings.passes, before, last)
}

// The run of a call to which no number applies. The lent lists may be longer than is needed: the run has their fronts, and these are zeros afterwards.
fn refine(
    graph: &Graph,
    labels: &mut [u32],
    gains: &mut [i64],
    locks: &mut [u8],
    swaps: &mut [u32],
    settings: Settings,
) -> Report
    requires { Ready graph.now settings (record { labels = labels.old; gains = gains.old; locks = locks.old; swaps = swaps.old }) }
    ensures { Ran
        graph.now settings
        (record { labels = labels.old; gains = gains.old; locks = locks.old; swaps = swaps.old })
        result
        (record { labels = labels.new; gains = gains.new; locks = locks.new; swaps = swaps.new }) }
{
    let n = labels.len();
    let half = n / 2;
    let report = make_passes(
        graph,
        labels,
        &mut gains[..n],
        &mut locks[..n],
        &mut swaps[..half],
        settings,
    );
    lists::fill(gains, n, 0);
    lists::fill(locks, n, 0);
    lists::fill(swaps, half, 0);
    report
}

// The call, for every input. C lends each list by itself.
pub fn kernighan_lin(
    graph: &Graph,
    weights: &[u32],
    labels: &mut [u32],
    gains: &mut [i64],
    locks: &mut [u8],
    swaps: &mut [u32],
    settings: Settings,
) -> Report
    ensures { Refined
        (given graph.now weights.now settings)
        (record { labels = labels.old; gains = gains.old; locks = locks.old; swaps = swaps.old })
        result
        (record { labels = labels.new; gains = gains.new; locks = locks.new; swaps = swaps.new }) }
{
    let lengths = number::lengths_of(gains, locks, swaps);
    if let Err(refusal) = number::check(graph, weights, labels, lengths, settings.passes) {
        return answers::refused_report(refusal);
    }
    refine(graph, labels, gains, locks, swaps, settings)
}
