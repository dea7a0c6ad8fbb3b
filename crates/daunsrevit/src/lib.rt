// The C entry points, as include/daunsrevit.h declares them. Each only calls the checked entry of its crate and has that entry's promise. Document 01, "Numbers a call gives back".
#![tactic(auto)]

ghost use Rattle.std.specs.Prelude.{◌≡◌};
ghost use Rattle.imbalance.specs.Number.{loads_answer};
ghost use Rattle.topology.specs.Given.{given};
ghost use Rattle.topology.specs.Graph.{in_rows};
ghost use Rattle.topology.specs.Number.{edge_cut_answer, lambda_cut_answer};
ghost use Rattle.fiduccia_mattheyses.specs.Entry as FM;
ghost use Rattle.kernighan_lin.specs.Entry as KL;
ghost use Rattle.arc_swap.specs.Entry as Swap;
ghost use Rattle.plan_reader.specs.Read.{Read};
ghost use Rattle.plan_writer.specs.Write.{Written};
ghost use Rattle.eight_block_grid.specs.SelfTest.{Tested};

use arc_swap::RunRecord;
use fiduccia_mattheyses::{Report, Settings};
use fiduccia_mattheyses_pass::Move;
use imbalance::{Ceiling, LoadsAnswer};
use plan_reader::ReadAnswer;
use plan_writer::WriteAnswer;
use topology::{CutAnswer, Graph};

// The load of each part.
#[unsafe(no_mangle)]
pub extern "C" fn daunsrevit_compute_parts_load(weights: &[u32], labels: &[u32]) -> LoadsAnswer
    ensures { result ≡ loads_answer weights.now labels.now }
{
    imbalance::compute_parts_load(weights, labels)
}

// The edge cut.
#[unsafe(no_mangle)]
pub extern "C" fn daunsrevit_edge_cut(
    starts: &[u32],
    neighbours: &[u32],
    arc_weights: &[u32],
    labels: &[u32],
) -> CutAnswer
    ensures { result ≡ edge_cut_answer (in_rows starts.now neighbours.now arc_weights.now) labels.now }
{
    let graph = Graph {
        starts,
        neighbours,
        arc_weights,
    };
    graph.edge_cut(labels)
}

// The lambda cut.
#[unsafe(no_mangle)]
pub extern "C" fn daunsrevit_lambda_cut(
    starts: &[u32],
    neighbours: &[u32],
    arc_weights: &[u32],
    weights: &[u32],
    labels: &[u32],
) -> CutAnswer
    ensures { result ≡ lambda_cut_answer (in_rows starts.now neighbours.now arc_weights.now) weights.now labels.now }
{
    let graph = Graph {
        starts,
        neighbours,
        arc_weights,
    };
    graph.lambda_cut(weights, labels)
}

// FM: refines the labels of two parts.
#[unsafe(no_mangle)]
pub extern "C" fn daunsrevit_fiduccia_mattheyses(
    starts: &[u32],
    neighbours: &[u32],
    arc_weights: &[u32],
    weights: &[u32],
    labels: &mut [u32],
    gains: &mut [i64],
    moves: &mut [Move],
    rows_made: &mut [u32],
    rows_rewound: &mut [u32],
    settings: Settings,
) -> Report
    ensures { FM.Refined
        (given (in_rows starts.now neighbours.now arc_weights.now) weights.now settings)
        (record { labels = labels.old; gains = gains.old; moves = moves.old; made = rows_made.old; rewound = rows_rewound.old })
        result
        (record { labels = labels.new; gains = gains.new; moves = moves.new; made = rows_made.new; rewound = rows_rewound.new }) }
{
    let graph = Graph {
        starts,
        neighbours,
        arc_weights,
    };
    fiduccia_mattheyses::fiduccia_mattheyses(
        &graph,
        weights,
        labels,
        gains,
        moves,
        rows_made,
        rows_rewound,
        settings,
    )
}

// KL: refines the labels of two parts by swaps.
#[unsafe(no_mangle)]
pub extern "C" fn daunsrevit_kernighan_lin(
    starts: &[u32],
    neighbours: &[u32],
    arc_weights: &[u32],
    weights: &[u32],
    labels: &mut [u32],
    gains: &mut [i64],
    locks: &mut [u8],
    swaps: &mut [u32],
    settings: kernighan_lin::Settings,
) -> kernighan_lin::Report
    ensures { KL.Refined
        (given (in_rows starts.now neighbours.now arc_weights.now) weights.now settings)
        (record { labels = labels.old; gains = gains.old; locks = locks.old; swaps = swaps.old })
        result
        (record { labels = labels.new; gains = gains.new; locks = locks.new; swaps = swaps.new }) }
{
    let graph = Graph {
        starts,
        neighbours,
        arc_weights,
    };
    kernighan_lin::kernighan_lin(&graph, weights, labels, gains, locks, swaps, settings)
}

// Arc-swap: refines the labels of up to sixteen parts.
#[unsafe(no_mangle)]
pub extern "C" fn daunsrevit_arc_swap(
    starts: &[u32],
    neighbours: &[u32],
    arc_weights: &[u32],
    weights: &[u32],
    labels: &mut [u32],
    stack: &mut [u32],
    settings: arc_swap::Settings,
    run: &mut RunRecord,
) -> arc_swap::Report
    ensures { Swap.Refined
        (given (in_rows starts.now neighbours.now arc_weights.now) weights.now settings)
        (record { labels = labels.old; stack = stack.old; run = run.old })
        result
        (record { labels = labels.new; stack = stack.new; run = run.new }) }
{
    let graph = Graph {
        starts,
        neighbours,
        arc_weights,
    };
    arc_swap::arc_swap(&graph, weights, labels, stack, settings, run)
}

// Reads a plan file.
#[unsafe(no_mangle)]
pub extern "C" fn daunsrevit_read_plan(
    bytes: &[u8],
    labels: &mut [u32],
    weights: &mut [u32],
    starts: &mut [u32],
    neighbours: &mut [u32],
    arc_weights: &mut [u32],
) -> ReadAnswer
    ensures { Read
        bytes.now
        (record { labels = labels.old; weights = weights.old; starts = starts.old; neighbours = neighbours.old; arc_weights = arc_weights.old })
        result
        (record { labels = labels.new; weights = weights.new; starts = starts.new; neighbours = neighbours.new; arc_weights = arc_weights.new }) }
{
    plan_reader::read_plan(bytes, labels, weights, starts, neighbours, arc_weights)
}

// Writes a plan file.
#[unsafe(no_mangle)]
pub extern "C" fn daunsrevit_write_plan(
    labels: &[u32],
    weights: &[u32],
    starts: &[u32],
    neighbours: &[u32],
    arc_weights: &[u32],
    k: u32,
    ceiling: Ceiling,
    target: &mut [u8],
) -> WriteAnswer
    ensures { Written
        (record { labels = labels.entry.now; weights = weights.now; starts = starts.now; neighbours = neighbours.now; arc_weights = arc_weights.now; k = k; ceiling = ceiling })
        target.old
        result
        target.new }
{
    let graph = Graph {
        starts,
        neighbours,
        arc_weights,
    };
    plan_writer::write_plan(labels, weights, &graph, k, ceiling, target)
}

// The self-test: the number of the first row of the eight-block grid that differs, else 0.
#[unsafe(no_mangle)]
pub extern "C" fn daunsrevit_self_test() -> u32
    ensures { Tested result }
{
    eight_block_grid::self_test()
}
