// FM for callers written in Rattle: the list of move records is the function's own. Document 01, "FM".
#![tactic(auto)]

ghost use Rattle.imbalance.specs.Limit.{most_vertices};
ghost use Rattle.topology.specs.Given.{given};
ghost use Rattle.fiduccia_mattheyses_records.specs.Own.{RefinedWith};

use fiduccia_mattheyses::{Report, Settings};
use fiduccia_mattheyses_pass::Move;
use topology::Graph;

// FM with room for the moves of the most vertices, which is enough for every call.
fn with_most_moves(
    graph: &Graph,
    weights: &[u32],
    labels: &mut [u32],
    gains: &mut [i64],
    rows_made: &mut [u32],
    rows_rewound: &mut [u32],
    settings: Settings,
) -> Report
    ensures { RefinedWith most_vertices (given graph.now weights.now settings)
        (record { labels = labels.old; gains = gains.old; made = rows_made.old; rewound = rows_rewound.old })
        result
        (record { labels = labels.new; gains = gains.new; made = rows_made.new; rewound = rows_rewound.new }) }
{
    let mut moves = [Move { vertex: 0, part: 0 }; imbalance::MOST_VERTICES];
    fiduccia_mattheyses::fiduccia_mattheyses(
        graph,
        weights,
        labels,
        gains,
        &mut moves,
        rows_made,
        rows_rewound,
        settings,
    )
}

// FM as with room for the moves of N vertices, for every N of which Rust has an array: one of N records is made only where N is not above the most vertices. The lists are parameters one by one, as FM's C entry has them.
pub fn with_moves<const N: usize>(
    graph: &Graph,
    weights: &[u32],
    labels: &mut [u32],
    gains: &mut [i64],
    rows_made: &mut [u32],
    rows_rewound: &mut [u32],
    settings: Settings,
) -> Report
    ensures { RefinedWith N (given graph.now weights.now settings)
        (record { labels = labels.old; gains = gains.old; made = rows_made.old; rewound = rows_rewound.old })
        result
        (record { labels = labels.new; gains = gains.new; made = rows_made.new; rewound = rows_rewound.new }) }
{
    if imbalance::MOST_VERTICES < N {
        return with_most_moves(
            graph,
            weights,
            labels,
            gains,
            rows_made,
            rows_rewound,
            settings,
        );
    }
    let mut moves = [Move { vertex: 0, part: 0 }; N];
    fiduccia_mattheyses::fiduccia_mattheyses(
        graph,
        weights,
        labels,
        gains,
        &mut moves,
        rows_made,
        rows_rewound,
        settings,
    )
}
