// Arc-swap between up to sixteen parts: coupe's algorithms/arc_swap.rs, on one thread. Document 01, "Arc-swap".
#![tactic(auto)]

ghost use Rattle.topology.specs.Given.{given};
ghost use Rattle.std.specs.Prelude.{◌≡◌, false, ℕ, ◌+◌, ◌*◌, ◌≤◌, length};
ghost use Rattle.imbalance.specs.Limit.{most_weight};
ghost use Rattle.topology.specs.Cut.{cut};
ghost use Rattle.arc_swap.specs.Run.{noted, drain, sweep, Summed};
ghost use Rattle.arc_swap.specs.Entry.{no_counts, Refined};
ghost use Rattle.arc_swap.specs.inner.Steps.{terms_in, standing, most, Asked, TurnAsked, Done, PassesDone, Ready, Ran};

mod answers; // answers.rt: what a call answers
mod number; // number.rt: why a call is refused
mod steps; // steps.rt: where a run begins, and how a pass ends it
mod turns; // turns.rt: a first push, and an attempt

use arc_swap_attempt::{Frame, Limits, Standing, Trial};
use imbalance::{Ceiling, Loads};
use lists::End;
pub use number::parts_of;
use topology::Graph;

// The counts of a run: attempts, and what came of them.
#[repr(C)]
#[derive(Clone, Copy)]
pub struct RunRecord {
    pub attempts: u64,
    pub moves: u64,
    pub no_gain: u64,
    pub bad_balance: u64,
}

// What is asked of the ceiling.
#[repr(C)]
#[derive(Clone, Copy)]
pub struct Settings {
    pub ceiling: Ceiling,
}

// What a call answers: document 01's number, the run's end, its passes, the first and the last cut, and the loads left. C reads it, so that refusal and end are numbers, and has a structure for each refiner.
#[repr(C)]
#[derive(Clone, Copy)]
pub struct Report {
    pub number: u32,
    pub end: u32,
    pub passes: u32,
    pub first: u64,
    pub last: u64,
    pub loads: Loads,
}

// Where a run stands after an attempt, and what came of it.
#[derive(Clone, Copy)]
pub struct Attempted {
    pub st: Standing,
    pub trial: Trial,
}

// What the passes leave: the run's end, how many there were, and where it stands.
#[derive(Clone, Copy)]
pub struct Ended {
    pub end: End,
    pub passes: u32,
    pub st: Standing,
}

// What a run begins with: what bounds its moves, and where it stands.
#[derive(Clone, Copy)]
pub struct Begun {
    pub limits: Limits,
    pub st: Standing,
}

// What a call answers by value: the report, and the run record after it.
#[derive(Clone, Copy)]
pub struct Answered {
    pub report: Report,
    pub run: RunRecord,
}

// No counts: what the run record holds at a run's start.
const NO_COUNTS: RunRecord = RunRecord {
    attempts: 0,
    moves: 0,
    no_gain: 0,
    bad_balance: 0,
};

impl RunRecord {
    // One more attempt, and what came of it.
    fn note(&mut self, trial: Trial)
        requires { Summed self.old × (self.old.attempts ≤ most) }
        ensures { self.new ≡ noted trial self.old }
    {
        self.attempts += 1;
        match trial {
            Trial::NoGain => self.no_gain += 1,
            Trial::BadBalance => self.bad_balance += 1,
            Trial::Goes(_, _) => self.moves += 1,
        }
    }
}

// The stack is emptied, attempt after attempt, unless the pushes of a move do not fit. Labels, stack and run record, which are lent, stay parameters: a struct of them would ask each function for a clause on every field, that it is still what was lent.
fn drain_stack(
    frame: &Frame,
    labels: &mut [u32],
    stack: &mut [u32],
    first: Standing,
    run: &mut RunRecord,
) -> Standing
    requires { Asked (terms_in frame.now (length stack.old)) labels.old stack.old first.top first.cut first.loads.at run.old 0 × (first.fits ≡ false → ◌≡◌ {A = ℕ} first.top 0) }
    ensures { let s = terms_in frame.now (length stack.old) in Done
        (λ x. drain s ((cut frame.now.graph.now labels.old + 1) * (length stack.old + 1)) (standing first.fits x)) s
        labels.old stack.old first.top first.cut run.old 0
        labels.new stack.new run.new result }
{
    let mut st = first;
    while 0 < st.top {
        let tried = turns::attempt(frame, labels, stack, st);
        run.note(tried.trial);
        st = tried.st;
        if !st.fits {
            return st;
        }
    }
    st
}

// A pass: every vertex in order has its turn, unless pushes do not fit. In its turn it is pushed where it has a neighbour in another part, and the stack is emptied.
fn make_pass(
    frame: &Frame,
    labels: &mut [u32],
    stack: &mut [u32],
    first: Standing,
    run: &mut RunRecord,
) -> Standing
    requires { TurnAsked (terms_in frame.now (length stack.old)) labels.old stack.old first run.old (length labels.old) }
    ensures { let s = terms_in frame.now (length stack.old) in Done
        (sweep s (length labels.old)) s
        labels.old stack.old 0 first.cut run.old (length labels.old)
        labels.new stack.new run.new result }
{
    let mut st = first;
    for v in 0..labels.len() {
        let pushed = turns::push_first(frame.graph, labels, stack, v, st);
        st = drain_stack(frame, labels, stack, pushed, run);
        if !st.fits {
            return st;
        }
    }
    st
}

// Pass after pass, until one has no gain or pushes do not fit.
fn make_passes(
    frame: &Frame,
    labels: &mut [u32],
    stack: &mut [u32],
    first: Standing,
    run: &mut RunRecord,
) -> Ended
    requires { TurnAsked (terms_in frame.now (length stack.old)) labels.old stack.old first run.old 0 × (run.old ≡ no_counts) × (first.cut ≤ most_weight) }
    ensures { PassesDone
        (terms_in frame.now (length stack.old))
        labels.old labels.new stack.new run.new result }
{
    let mut st = first;
    let mut passes = 0;
    // No number bounds the passes: the cut falls with each but the last.
    loop {
        let before = st.cut;
        st = make_pass(frame, labels, stack, st, run);
        passes += 1;
        if let Some(end) = steps::end_of(before, st.fits, st.cut) {
            return Ended { end, passes, st };
        }
    }
}

// The run of a call to which no number applies: the counts are first zeroed, and afterwards the stack is zeroed whole.
fn refine(
    graph: &Graph,
    weights: &[u32],
    labels: &mut [u32],
    stack: &mut [u32],
    settings: Settings,
    run: &mut RunRecord,
) -> Report
    requires { Ready (given graph.now weights.now settings) labels.old }
    ensures { Ran
        (given graph.now weights.now settings)
        (record { labels = labels.old; stack = stack.old; run = run.old })
        result
        (record { labels = labels.new; stack = stack.new; run = run.new }) }
{
    let begun = steps::begin_run(graph, weights, labels, settings);
    *run = NO_COUNTS;
    let frame = Frame {
        graph,
        weights,
        limits: begun.limits,
    };
    let ended = make_passes(&frame, labels, stack, begun.st, run);
    lists::fill(stack, stack.len(), 0);
    answers::run_report(begun.st.cut, ended)
}

// Arc-swap, for every input: the checked call.
pub fn arc_swap(
    graph: &Graph,
    weights: &[u32],
    labels: &mut [u32],
    stack: &mut [u32],
    settings: Settings,
    run: &mut RunRecord,
) -> Report
    ensures { Refined
        (given graph.now weights.now settings)
        (record { labels = labels.old; stack = stack.old; run = run.old })
        result
        (record { labels = labels.new; stack = stack.new; run = run.new }) }
{
    if labels.is_empty() {
        *run = NO_COUNTS;
        return answers::empty_report();
    }
    if let Err(refusal) = number::check(graph, weights, labels, settings) {
        return answers::refused_report(refusal);
    }
    refine(graph, weights, labels, stack, settings, run)
}

// The checked call for callers written in Rattle, which take the counts by value.
pub fn arc_swap_counted(
    graph: &Graph,
    weights: &[u32],
    labels: &mut [u32],
    stack: &mut [u32],
    settings: Settings,
) -> Answered
    ensures { Refined
        (given graph.now weights.now settings)
        (record { labels = labels.old; stack = stack.old; run = no_counts })
        result.report
        (record { labels = labels.new; stack = stack.new; run = result.run }) }
{
    let mut run = NO_COUNTS;
    let report = arc_swap(graph, weights, labels, stack, settings, &mut run);
    Answered { report, run }
}
