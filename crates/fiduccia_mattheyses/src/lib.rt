// Fiduccia-Mattheyses between two parts: coupe's algorithms/fiduccia_mattheyses.rs. Document 01, "FM"; document 02, A4.
#![tactic(auto)]

mod answers;
mod number;
mod steps;

ghost use Rattle.topology.specs.Given.{given};
ghost use Rattle.fiduccia_mattheyses_pass.specs.inner.Steps.{terms_in};
ghost use Rattle.fiduccia_mattheyses.specs.Entry.{Refined};
ghost use Rattle.fiduccia_mattheyses.specs.inner.Steps.{PassesAsked, PassesDone, Ready, Ran};

use fiduccia_mattheyses_pass::{Frame, Limits, Move, make_pass};
use imbalance::{Ceiling, Loads};
use lists::End;
use topology::Graph;

// The pass, move and bad limits, and what is asked of the ceiling.
#[repr(C)]
#[derive(Clone, Copy)]
pub struct Settings {
    pub passes: u32,
    pub moves: u32,
    pub bad: u32,
    pub ceiling: Ceiling,
}

// What a call answers: document 01's number, the run's end, its passes, the first and the last cut, and the loads left. C reads it, so that refusal and end are numbers, and has a structure for each refiner.
#[repr(C)]
#[derive(Clone, Copy)]
pub struct Report {
    pub number: u32,
    pub end: u32,
    pub passes: u32,
    pub first: u64,
    pub last: u64,
    pub loads: Loads,
}

// What a run begins with: the limits of its passes, and the loads and the cut of the labels.
#[derive(Clone, Copy)]
pub struct Begun {
    pub limits: Limits,
    pub loads: Loads,
    pub cut: u64,
}

// What the passes leave: the run's end, how many there were, the cut and the loads.
#[derive(Clone, Copy)]
pub struct Ended {
    pub end: End,
    pub passes: u32,
    pub cut: u64,
    pub loads: Loads,
}

// The passes of a run, at most as many as the pass limit. Each writes its row, and a gainless one is the last.
fn make_passes(
    frame: &Frame,
    labels: &mut [u32],
    gains: &mut [i64],
    moves: &mut [Move],
    rows_made: &mut [u32],
    rows_rewound: &mut [u32],
    begun: Begun,
    pass_limit: u32,
) -> Ended
    requires { PassesAsked (terms_in frame.now) pass_limit labels.old gains.old moves.old rows_made.old rows_rewound.old begun.loads.at begun.cut }
    ensures { PassesDone (terms_in frame.now) pass_limit
        labels.old moves.old rows_made.old rows_rewound.old
        labels.new moves.new rows_made.new rows_rewound.new result }
{
    let mut loads = begun.loads;
    let mut cut = begun.cut;
    for pass in 0..pass_limit {
        let before = cut;
        let passed = make_pass(frame, labels, gains, moves, loads, before);
        loads = passed.loads;
        cut = passed.cut;
        let passes = steps::put_row(rows_made, rows_rewound, pass, passed.made, passed.kept);
        if before <= cut {
            return Ended {
                end: End::NoGain,
                passes,
                cut,
                loads,
            };
        }
    }
    Ended {
        end: End::PassLimit,
        passes: pass_limit,
        cut,
        loads,
    }
}

// The run, where no number applies; afterwards the gains and the moves hold zeros.
fn refine(
    graph: &Graph,
    weights: &[u32],
    labels: &mut [u32],
    gains: &mut [i64],
    moves: &mut [Move],
    rows_made: &mut [u32],
    rows_rewound: &mut [u32],
    settings: Settings,
) -> Report
    requires { Ready (given graph.now weights.now settings)
        (record { labels = labels.old; gains = gains.old; moves = moves.old; made = rows_made.old; rewound = rows_rewound.old }) }
    ensures { Ran (given graph.now weights.now settings)
        (record { labels = labels.old; gains = gains.old; moves = moves.old; made = rows_made.old; rewound = rows_rewound.old })
        result
        (record { labels = labels.new; gains = gains.new; moves = moves.new; made = rows_made.new; rewound = rows_rewound.new }) }
{
    let n = labels.len();
    let begun = steps::begin_run(graph, weights, labels, settings);
    let frame = Frame {
        graph,
        weights,
        limits: begun.limits,
    };
    let ended = make_passes(
        &frame,
        labels,
        &mut gains[..n],
        moves,
        rows_made,
        rows_rewound,
        begun,
        settings.passes,
    );
    lists::fill(moves, n, Move { vertex: 0, part: 0 });
    answers::finish(gains, n, ended, begun.cut)
}

// The lengths of the lent lists.
#[derive(Clone, Copy)]
pub struct Lengths {
    pub gains: usize,
    pub moves: usize,
    pub made: usize,
    pub rewound: usize,
}

// FM on a graph, from the labels given: the call, for every input. C lends each list by itself, so they are parameters and not one struct. Without vertices the call is done, whatever else is wrong; else it is refused, or it runs.
pub fn fiduccia_mattheyses(
    graph: &Graph,
    weights: &[u32],
    labels: &mut [u32],
    gains: &mut [i64],
    moves: &mut [Move],
    rows_made: &mut [u32],
    rows_rewound: &mut [u32],
    settings: Settings,
) -> Report
    ensures { Refined (given graph.now weights.now settings)
        (record { labels = labels.old; gains = gains.old; moves = moves.old; made = rows_made.old; rewound = rows_rewound.old })
        result
        (record { labels = labels.new; gains = gains.new; moves = moves.new; made = rows_made.new; rewound = rows_rewound.new }) }
{
    if labels.len() == 0 {
        return answers::empty_report();
    }
    let lengths = Lengths {
        gains: gains.len(),
        moves: moves.len(),
        made: rows_made.len(),
        rewound: rows_rewound.len(),
    };
    if let Err(refusal) = number::check(graph, weights, labels, lengths, settings) {
        return answers::refused_report(refusal);
    }
    refine(
        graph,
        weights,
        labels,
        gains,
        moves,
        rows_made,
        rows_rewound,
        settings,
    )
}
