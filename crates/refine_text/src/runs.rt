// A run of FM and a run of arc-swap, as the program prints them. Document 01, the end of "The eight-block grid".
ghost use Rattle.std.specs.Prelude.{◌≡◌, false, ◌≤◌, length};
ghost use Rattle.imbalance.specs.Limit.{label_above};
ghost use Rattle.topology.specs.Given.{given};
ghost use Rattle.refine_words.specs.inner.Steps.{Put};
ghost use Rattle.refine_text.specs.Refine.{plan_vertices, text_bytes, two_lines, two_text, many_lines, many_text};

use crate::TEXT_BYTES;
use refine_words::lines;
use topology::Graph;

// The lines of a run of FM.
fn put_two(
    report: fiduccia_mattheyses::Report,
    made: &[u32],
    rewound: &[u32],
    labels: &[u32],
    out: &mut [u8; TEXT_BYTES],
) -> usize
    requires { (length labels.now ≤ plan_vertices)
        × (report.passes ≤ 64)
        × (report.passes ≤ length made.now)
        × (report.passes ≤ length rewound.now)
        × (length report.loads.at ≡ 16) }
    ensures { Put (two_lines report made.now rewound.now labels.now) text_bytes 0 out.old out.new result }
{
    let loads = report.loads.at;
    let opened = lines::put_opening(
        out,
        report.end,
        report.first,
        report.last,
        &loads[..2],
        report.passes,
    );
    let passes = report.passes as usize;
    let listed = lines::put_pass_lines(out, opened, passes, made, rewound);
    lines::put_labels(out, listed, labels)
}

// FM, and its lines or its refusal.
pub(crate) fn refine_two(
    graph: &Graph,
    weights: &[u32],
    labels: &mut [u32],
    settings: fiduccia_mattheyses::Settings,
    out: &mut [u8; TEXT_BYTES],
) -> usize
    requires { (length labels.old ≤ plan_vertices) × (settings.passes ≡ 64) }
    ensures { Put
        (two_text (given graph.now weights.now settings) labels.old)
        text_bytes 0 out.old out.new result }
{
    let mut gains = [0i64; crate::PLAN_VERTICES];
    let mut made = [0u32; 64];
    let mut rewound = [0u32; 64];
    let report = fiduccia_mattheyses_records::with_moves::<512>(
        graph,
        weights,
        labels,
        &mut gains,
        &mut made,
        &mut rewound,
        settings,
    );
    if report.number != 0 {
        return lines::put_refusal(out, report.number);
    }
    put_two(report, &made, &rewound, labels, out)
}

// The lines of a run of arc-swap.
fn put_many(
    report: arc_swap::Report,
    run: arc_swap::RunRecord,
    parts: usize,
    labels: &[u32],
    out: &mut [u8; TEXT_BYTES],
) -> usize
    requires { (length labels.now ≤ plan_vertices)
        × (parts ≤ 16)
        × (length report.loads.at ≡ 16) }
    ensures { Put (many_lines parts report run labels.now) text_bytes 0 out.old out.new result }
{
    let loads = report.loads.at;
    let opened = lines::put_opening(
        out,
        report.end,
        report.first,
        report.last,
        &loads[..parts],
        report.passes,
    );
    let counted = lines::put_counts(
        out,
        opened,
        run.attempts,
        run.moves,
        run.no_gain,
        run.bad_balance,
    );
    lines::put_labels(out, counted, labels)
}

// Arc-swap, and its lines or its refusal.
pub(crate) fn refine_many(
    graph: &Graph,
    weights: &[u32],
    labels: &mut [u32],
    settings: arc_swap::Settings,
    out: &mut [u8; TEXT_BYTES],
) -> usize
    requires { (length labels.old ≤ plan_vertices) × (label_above 15 labels.old ≡ false) }
    ensures { Put
        (many_text (given graph.now weights.now settings) labels.old)
        text_bytes 0 out.old out.new result }
{
    let parts = arc_swap::parts_of(labels) as usize;
    let mut stack = [0u32; imbalance::MOST_VERTICES];
    let answered = arc_swap::arc_swap_counted(graph, weights, labels, &mut stack, settings);
    let report = answered.report;
    if report.number != 0 {
        return lines::put_refusal(out, report.number);
    }
    let run = answered.run;
    put_many(report, run, parts, labels, out)
}
