// What a run does beside its passes: where it begins, and a pass's row. Document 01, "FM".
ghost use Rattle.topology.specs.Given.{given};
ghost use Rattle.fiduccia_mattheyses.specs.inner.Steps.{RowAsked, RowDone, Beginnable, Begins};

use crate::{Begun, Settings};
use fiduccia_mattheyses_pass::Limits;
use topology::Graph;

// The row of the pass after those made: its moves, and those of them that were rewound. It answers how many passes are made then.
pub fn put_row(
    rows_made: &mut [u32],
    rows_rewound: &mut [u32],
    passes: u32,
    made: usize,
    kept: usize,
) -> u32
    requires { RowAsked rows_made.old rows_rewound.old passes made kept }
    ensures { RowDone rows_made.old rows_rewound.old passes made kept rows_made.new rows_rewound.new result }
{
    let done = passes + 1;
    let rewound = made - kept;
    let row = passes as usize;
    rows_made[row] = made as u32;
    rows_rewound[row] = rewound as u32;
    done
}

// What a run begins with.
pub fn begin_run(graph: &Graph, weights: &[u32], labels: &[u32], settings: Settings) -> Begun
    requires { Beginnable (given graph.now weights.now settings) labels.now }
    ensures { Begins (given graph.now weights.now settings) labels.now result }
{
    let loads = imbalance::parts_load(weights, labels);
    let total = imbalance::total_weight(weights);
    let limits = Limits {
        ceilings: imbalance::ceilings_of(loads, total, 2, settings.ceiling),
        bad: u64::from(settings.bad),
        moves: settings.moves as usize,
    };
    let cut = graph.cut_of(labels);
    Begun { limits, loads, cut }
}
