// The lines of a run and of a refusal. Document 01, the end of "The eight-block grid".
ghost use Rattle.std.specs.Prelude.{[], ◌∷◌, ◌+◌, ◌*◌, ◌≤◌, length};
ghost use Rattle.refine_words.specs.Text.{line};
ghost use Rattle.refine_words.specs.inner.Steps.{Put};
ghost use Rattle.refine_words.specs.Line.{refusal, cut_line, loads_line, opening, pass_line, pass_lines, counts_line, labels_line};

use crate::{put_label_line, put_line};

// A line of one number.
fn put_number_line(out: &mut [u8], at: usize, word: &[u8], number: u32) -> usize
    requires { at + (length word.now + 22) ≤ length out.old }
    ensures { Put (line word.now (number ∷ [])) (length word.now + 22) at out.old out.new result }
{
    let numbers = [u64::from(number)];
    put_line(out, at, word, &numbers)
}

// A refusal: its number.
pub fn put_refusal(out: &mut [u8], number: u32) -> usize
    requires { 29 ≤ length out.old }
    ensures { Put (refusal number) 29 0 out.old out.new result }
{
    put_number_line(out, 0, b"refused", number)
}

// The first and the last cut.
fn put_cut(out: &mut [u8], at: usize, first: u64, last: u64) -> usize
    requires { at + 46 ≤ length out.old }
    ensures { Put (cut_line first last) 46 at out.old out.new result }
{
    let numbers = [first, last];
    put_line(out, at, b"cut", &numbers)
}

// The load of each part.
fn put_loads(out: &mut [u8], at: usize, loads: &[u64]) -> usize
    requires { at + (6 + 21 * length loads.now) ≤ length out.old }
    ensures { Put (loads_line loads.now) (6 + 21 * length loads.now) at out.old out.new result }
{
    put_line(out, at, b"loads", loads)
}

// The four lines with which a run begins.
pub fn put_opening(
    out: &mut [u8],
    end: u32,
    first: u64,
    last: u64,
    loads: &[u64],
    passes: u32,
) -> usize
    requires { 105 + 21 * length loads.now ≤ length out.old }
    ensures { Put (opening end first last loads.now passes) (105 + 21 * length loads.now) 0 out.old out.new result }
{
    let after_end = put_number_line(out, 0, b"end", end);
    let after_cut = put_cut(out, after_end, first, last);
    let after_loads = put_loads(out, after_cut, loads);
    put_number_line(out, after_loads, b"passes", passes)
}

// A pass: moves made and moves rewound.
fn put_pass(out: &mut [u8], at: usize, made: u32, rewound: u32) -> usize
    requires { at + 47 ≤ length out.old }
    ensures { Put (pass_line made rewound) 47 at out.old out.new result }
{
    let numbers = [u64::from(made), u64::from(rewound)];
    put_line(out, at, b"pass", &numbers)
}

// The first so many passes, a line each.
pub fn put_pass_lines(
    out: &mut [u8],
    at: usize,
    passes: usize,
    made: &[u32],
    rewound: &[u32],
) -> usize
    requires { (passes ≤ length made.now) × (passes ≤ length rewound.now) × (at + 47 * passes ≤ length out.old) }
    ensures { Put (pass_lines passes made.now rewound.now) (47 * passes) at out.old out.new result }
{
    let mut here = at;
    for (moves, undone) in made[..passes].iter().zip(&rewound[..passes]) {
        here = put_pass(out, here, *moves, *undone);
    }
    here
}

// Arc-swap's counts.
pub fn put_counts(
    out: &mut [u8],
    at: usize,
    attempts: u64,
    moves: u64,
    no_gain: u64,
    bad_balance: u64,
) -> usize
    requires { at + 91 ≤ length out.old }
    ensures { Put (counts_line attempts moves no_gain bad_balance) 91 at out.old out.new result }
{
    let numbers = [attempts, moves, no_gain, bad_balance];
    put_line(out, at, b"counts", &numbers)
}

// The labels.
pub fn put_labels(out: &mut [u8], at: usize, labels: &[u32]) -> usize
    requires { at + (7 + 21 * length labels.now) ≤ length out.old }
    ensures { Put (labels_line labels.now) (7 + 21 * length labels.now) at out.old out.new result }
{
    put_label_line(out, at, b"labels", labels)
}
