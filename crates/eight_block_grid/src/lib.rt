// The eight-block grid as constant tables, and the self-test over its ten rows and three ceilings. Document 01, "The eight-block grid" and "Ceiling".
#![tactic(auto)]

ghost use Rattle.std.specs.Prelude.{◌≡◌};
ghost use Rattle.lists.specs.Refusal.{number_in};
ghost use Rattle.topology.specs.EightBlockGrid.{grid, ones};
ghost use Rattle.topology.specs.Number.{edge_cut_number, lambda_cut_number};
ghost use Rattle.eight_block_grid.specs.Inputs.{asked, fm_plan};
ghost use Rattle.eight_block_grid.specs.SelfTest.{cuts_give, loads_give, fm_gives, kl_gives, swap_gives, row1, row2, row3, row4, row5, row6, row7, row8, row9, row10, rounds, Tested};

use imbalance::Ceiling;
use lists::Refusal;
use topology::Graph;

// 0-1-2-3, 4-5-6-7, 0-4, 1-5, 2-6, 3-7, weights 1.
const STARTS: [u32; 9] = [0, 2, 5, 8, 10, 12, 15, 18, 20];

const NEIGHBOURS: [u32; 20] = [1, 4, 0, 2, 5, 1, 3, 6, 2, 7, 0, 5, 1, 4, 6, 2, 5, 7, 3, 6];

const ARC_WEIGHTS: [u32; 20] = [1, 1, 1, 1, 1, 1, 1, 1, 1, 1, 1, 1, 1, 1, 1, 1, 1, 1, 1, 1];

const WEIGHTS: [u32; 8] = [1, 1, 1, 1, 1, 1, 1, 1];

// The labels that the rows begin and end with: A, B, and those that row 8 ends with.
const A: [u32; 8] = [0, 0, 1, 1, 0, 1, 0, 1];

const B: [u32; 8] = [0, 0, 1, 1, 0, 0, 1, 1];

const LABELS_8: [u32; 8] = [0, 0, 0, 1, 0, 1, 1, 1];

// The gains of row 3.
const GAINS: [i64; 8] = [-2, 1, 1, -2, 0, 3, 3, 0];

// The numbers of the rows. Of the cuts: the edge cut's number and cut, then the lambda cut's. Of the loads: the number, then two loads.
const CUTS_OF_A: [u64; 4] = [0, 6, 0, 6];

const CUTS_OF_B: [u64; 4] = [0, 2, 0, 4];

const LOADS_OF_A: [u64; 3] = [0, 4, 4];

// Of FM: number, end, passes, first and last cut, two loads; then the moves made and rewound of the first pass, and of the second.
const NUMBERS_4: [u64; 11] = [0, 1, 2, 6, 2, 4, 4, 2, 0, 0, 0];

const NUMBERS_5: [u64; 11] = [0, 1, 2, 6, 2, 4, 4, 3, 1, 1, 1];

const NUMBERS_6: [u64; 11] = [0, 1, 1, 6, 6, 4, 4, 0, 0, 0, 0];

// Of KL: number, end, passes, first and last cut.
const NUMBERS_7: [u64; 5] = [0, 0, 1, 6, 2];

const NUMBERS_8: [u64; 5] = [0, 1, 1, 2, 4];

const NUMBERS_9: [u64; 5] = [0, 1, 1, 2, 2];

// Of arc-swap: number, end, passes, first and last cut, two loads; then attempts, moves, no-gain and bad-balance.
const NUMBERS_10: [u64; 11] = [0, 1, 2, 6, 2, 4, 4, 12, 4, 7, 1];

// Two totals, as the weights of a block in each of two parts, and three ceilings.
const TOTALS: [u32; 8] = [5, 75, 0, 0, 0, 0, 0, 0];

const TWO_PARTS: [u32; 8] = [0, 1, 0, 0, 0, 0, 0, 0];

const CEILINGS: [u64; 3] = [4, 122, 5];

// The grid as a graph.
fn the_grid() -> Graph<'static>
    ensures { result ≡ grid }
{
    Graph {
        starts: &STARTS,
        neighbours: &NEIGHBOURS,
        arc_weights: &ARC_WEIGHTS,
    }
}

// Why both cuts refuse the labels.
fn check_cuts(graph: &Graph, labels: &[u32]) -> Result<(), Refusal>
    requires { graph.now ≡ grid }
    ensures { (number_in result ≡ edge_cut_number grid labels.now) × (number_in result ≡ lambda_cut_number grid ones labels.now) }
{
    graph.check_rows(labels.len())?;
    if imbalance::label_above(labels, 15) {
        return Err(Refusal::Labels);
    }
    Ok(())
}

// Whether the cuts of the labels are these. They are worked out from their parts, so that the C entry is the one caller of each cut and the compiler gives its whole call a single frame of stack.
fn cuts_give(labels: &[u32], numbers: &[u64; 4]) -> bool
    ensures { result ≡ cuts_give labels.now numbers.now }
{
    let graph = the_grid();
    if let Err(refusal) = check_cuts(&graph, labels) {
        let number = u64::from(u32::from(refusal));
        return [number, 0, number, 0] == *numbers;
    }
    let edge = graph.cut_of(labels);
    let lambda = graph.lambda_of(&WEIGHTS, labels);
    [0, edge, 0, lambda] == *numbers
}

// Whether the loads of A are these.
fn loads_give(numbers: &[u64; 3]) -> bool
    ensures { result ≡ loads_give numbers.now }
{
    let r = imbalance::compute_parts_load(&WEIGHTS, &A);
    [u64::from(r.number), r.loads.at[0], r.loads.at[1]] == *numbers
}

// What is asked of the ceiling by one of the choices that have no number for each part.
fn asked(choice: u32, imbalance: f64) -> Ceiling
    ensures { result ≡ asked choice imbalance }
{
    Ceiling {
        choice,
        whole: 0,
        imbalance,
        each: [0; 16],
    }
}

// Whether FM on A, by the ceiling's choice and the bad limit, leaves these labels with these numbers.
fn fm_gives(choice: u32, bad: u32, labels: &[u32; 8], numbers: &[u64; 11]) -> bool
    ensures { result ≡ fm_gives choice bad labels.now numbers.now }
{
    let mut refined = A;
    let mut gains: [i64; 8] = [0; 8];
    let mut made: [u32; 64] = [0; 64];
    let mut rewound: [u32; 64] = [0; 64];
    let r = fiduccia_mattheyses_records::with_moves::<8>(
        &the_grid(),
        &WEIGHTS,
        &mut refined,
        &mut gains,
        &mut made,
        &mut rewound,
        fiduccia_mattheyses::Settings {
            passes: 64,
            moves: 8,
            bad,
            ceiling: asked(choice, 0.25),
        },
    );
    let seen = [
        u64::from(r.number),
        u64::from(r.end),
        u64::from(r.passes),
        r.first,
        r.last,
        r.loads.at[0],
        r.loads.at[1],
        u64::from(made[0]),
        u64::from(rewound[0]),
        u64::from(made[1]),
        u64::from(rewound[1]),
    ];
    refined == *labels && seen == *numbers
}

// Whether KL from these labels, by the swap limit and the bad limit, leaves those labels with these numbers.
fn kl_gives(start: [u32; 8], swaps: u32, bad: u32, labels: &[u32; 8], numbers: &[u64; 5]) -> bool
    ensures { result ≡ kl_gives start swaps bad labels.now numbers.now }
{
    let mut refined = start;
    let mut gains: [i64; 8] = [0; 8];
    let mut locks: [u8; 8] = [0; 8];
    let mut swapped: [u32; 4] = [0; 4];
    let r = kernighan_lin::kernighan_lin(
        &the_grid(),
        &WEIGHTS,
        &mut refined,
        &mut gains,
        &mut locks,
        &mut swapped,
        kernighan_lin::Settings {
            passes: 1,
            swaps,
            bad,
        },
    );
    let seen = [
        u64::from(r.number),
        u64::from(r.end),
        u64::from(r.passes),
        r.first,
        r.last,
    ];
    refined == *labels && seen == *numbers
}

// Whether arc-swap on A leaves these labels with these numbers. Its lists are to stand in a frame of its own, and not in the self-test's, below which every row's call stands.
#[inline(never)]
fn swap_gives(labels: &[u32; 8], numbers: &[u64; 11]) -> bool
    ensures { result ≡ swap_gives labels.now numbers.now }
{
    let mut refined = A;
    let mut stack: [u32; 8] = [0; 8];
    let answered = arc_swap::arc_swap_counted(
        &the_grid(),
        &WEIGHTS,
        &mut refined,
        &mut stack,
        arc_swap::Settings {
            ceiling: asked(2, 0.25),
        },
    );
    let r = answered.report;
    let run = answered.run;
    let seen = [
        u64::from(r.number),
        u64::from(r.end),
        u64::from(r.passes),
        r.first,
        r.last,
        r.loads.at[0],
        r.loads.at[1],
        run.attempts,
        run.moves,
        run.no_gain,
        run.bad_balance,
    ];
    refined == *labels && seen == *numbers
}

// "1. A: cut 6, lambda 6, loads 4 and 4."
fn row_1() -> bool
    ensures { result ≡ row1 }
{
    cuts_give(&A, &CUTS_OF_A) && loads_give(&LOADS_OF_A)
}

// "2. B: cut 2, lambda 4."
fn row_2() -> bool
    ensures { result ≡ row2 }
{
    cuts_give(&B, &CUTS_OF_B)
}

// "3. Gains in A: -2, 1, 1, -2, 0, 3, 3, 0."
fn row_3() -> bool
    ensures { result ≡ row3 }
{
    let mut gains: [i64; 8] = [0; 8];
    fiduccia_mattheyses_pass::fresh_gains(&the_grid(), &A, &mut gains);
    gains == GAINS
}

// "4. FM on A, e = 0.25 (ceiling 5), bad limit 0, P = 64, moves 8: B, rows 2/0 and 0/0, end 1."
fn row_4() -> bool
    ensures { result ≡ row4 }
{
    fm_gives(2, 0, &B, &NUMBERS_4)
}

// "5. Same, bad limit 1: B, rows 3/1 and 1/1."
fn row_5() -> bool
    ensures { result ≡ row5 }
{
    fm_gives(2, 1, &B, &NUMBERS_5)
}

// "6. Carried ceiling: A, row 0/0."
fn row_6() -> bool
    ensures { result ≡ row6 }
{
    fm_gives(0, 0, &A, &NUMBERS_6)
}

// "7. KL on A, P 1, swap limit 1, bad limit 1: B."
fn row_7() -> bool
    ensures { result ≡ row7 }
{
    kl_gives(A, 1, 1, &B, &NUMBERS_7)
}

// "8. KL on B, the same: 0,0,0,1,0,1,1,1, cut 4."
fn row_8() -> bool
    ensures { result ≡ row8 }
{
    kl_gives(B, 1, 1, &LABELS_8, &NUMBERS_8)
}

// "9. KL on B, P 1, bad limit 0: B, end 1."
fn row_9() -> bool
    ensures { result ≡ row9 }
{
    kl_gives(B, 8, 0, &B, &NUMBERS_9)
}

// "10. Arc-swap on A, e = 0.25, stack 8: B; passes 2, attempts 12, moves 4, no-gain 7, bad-balance 1."
fn row_10() -> bool
    ensures { result ≡ row10 }
{
    swap_gives(&B, &NUMBERS_10)
}

// Whether the processor rounds as the ceilings ask. The totals are loads that FM answers without a pass, so that no compiler knows them and the ceilings are worked out when this runs. Its lists are to stand in a frame of its own, as arc-swap's are. It is no case of `fm_gives`: weights, labels, row lists and settings are all others, and what it looks at are the loads.
#[inline(never)]
fn rounds_well() -> bool
    ensures { result ≡ rounds }
{
    let mut labels = TWO_PARTS;
    let mut gains: [i64; 8] = [0; 8];
    let mut made: [u32; 1] = [0; 1];
    let mut rewound: [u32; 1] = [0; 1];
    let r = fiduccia_mattheyses_records::with_moves::<8>(
        &the_grid(),
        &TOTALS,
        &mut labels,
        &mut gains,
        &mut made,
        &mut rewound,
        fiduccia_mattheyses::Settings {
            passes: 0,
            moves: 0,
            bad: 0,
            ceiling: asked(0, 0.0),
        },
    );
    let seen = [
        imbalance::ceiling_by(r.loads.at[0], 2, 0.6),
        imbalance::ceiling_by(r.loads.at[1], 2, 2.28),
        imbalance::ceiling_by(r.loads.at[0], 3, 2.0),
    ];
    seen == CEILINGS
}

// The number of the first row that differs, 11 where the processor rounds otherwise, else 0. C reads the number. Each row has a function, as row1 to row10 in specs/SelfTest.antt.
pub fn self_test() -> u32
    ensures { Tested result }
{
    let tests = [
        row_1(),
        row_2(),
        row_3(),
        row_4(),
        row_5(),
        row_6(),
        row_7(),
        row_8(),
        row_9(),
        row_10(),
        rounds_well(),
    ];
    match tests.iter().position(|passed| !*passed) {
        Some(i) => i as u32 + 1,
        None => 0,
    }
}
