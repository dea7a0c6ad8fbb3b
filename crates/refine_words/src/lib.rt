// Words, numbers and lines put into a lent list of bytes, one after the other: each function takes the place that it begins at and answers the place past its text, as the promise of the whole text (`Put`) has it, and the program has no heap to grow a text on. Document 01, the end of "The eight-block grid": what the refine program prints.
#![tactic(auto)]

pub mod lines; // lines.rt: the lines of a run and of a refusal

ghost use Rattle.std.specs.Prelude.{◌≡◌, [], ◌∷◌, ◌+◌, ◌*◌, ◌≤◌, ◌<◌, length};
ghost use Rattle.refine_words.specs.Text.{blank, nought, decimal, numbers, line};
ghost use Rattle.refine_words.specs.inner.Steps.{Put};

// One byte.
fn put_byte(out: &mut [u8], at: usize, byte: u8) -> usize
    requires { at + 1 ≤ length out.old }
    ensures { Put (byte ∷ []) 1 at out.old out.new result }
{
    out[at] = byte;
    at + 1
}

// The byte of a digit.
fn digit(x: u64) -> u8
    requires { x < 10 }
    ensures { result ≡ nought + x }
{
    b'0' + x as u8
}

// A number in decimal: the digits of its tens, and then its last.
fn put_decimal(out: &mut [u8], at: usize, x: u64) -> usize
    requires { at + length (decimal x) ≤ length out.old }
    ensures { Put (decimal x) (length (decimal x)) at out.old out.new result }
{
    if x < 10 {
        return put_byte(out, at, digit(x));
    }
    let tens = put_decimal(out, at, x / 10);
    put_byte(out, tens, digit(x % 10))
}

// A blank and a number: a u64 has at most 20 digits.
fn put_number(out: &mut [u8], at: usize, x: u64) -> usize
    requires { at + 21 ≤ length out.old }
    ensures { Put (blank ∷ decimal x) 21 at out.old out.new result }
{
    let next = put_byte(out, at, b' ');
    put_decimal(out, next, x)
}

// The bytes of a word, one after the other by `put_byte`, whose promise is `Put`.
fn put_word(out: &mut [u8], at: usize, word: &[u8]) -> usize
    requires { at + length word.now ≤ length out.old }
    ensures { Put word.now (length word.now) at out.old out.new result }
{
    let mut here = at;
    for byte in word {
        here = put_byte(out, here, *byte);
    }
    here
}

// Numbers, each after a blank.
fn put_numbers(out: &mut [u8], at: usize, xs: &[u64]) -> usize
    requires { at + 21 * length xs.now ≤ length out.old }
    ensures { Put (numbers xs.now) (21 * length xs.now) at out.old out.new result }
{
    let mut here = at;
    for x in xs {
        here = put_number(out, here, *x);
    }
    here
}

// The same for labels. A generic function of both would need a trait with the number of each type and a proof that the numbers of a list of u64 are the list, which is longer than this loop.
fn put_labels(out: &mut [u8], at: usize, xs: &[u32]) -> usize
    requires { at + 21 * length xs.now ≤ length out.old }
    ensures { Put (numbers xs.now) (21 * length xs.now) at out.old out.new result }
{
    let mut here = at;
    for x in xs {
        here = put_number(out, here, u64::from(*x));
    }
    here
}

// A line: a word, its numbers, and the newline.
pub(crate) fn put_line(out: &mut [u8], at: usize, word: &[u8], xs: &[u64]) -> usize
    requires { at + (length word.now + 21 * length xs.now + 1) ≤ length out.old }
    ensures { Put (line word.now xs.now) (length word.now + 21 * length xs.now + 1) at out.old out.new result }
{
    let first = put_word(out, at, word);
    let last = put_numbers(out, first, xs);
    put_byte(out, last, b'\n')
}

// A line of labels, by itself for the same reason as `put_labels`.
pub(crate) fn put_label_line(out: &mut [u8], at: usize, word: &[u8], xs: &[u32]) -> usize
    requires { at + (length word.now + 21 * length xs.now + 1) ≤ length out.old }
    ensures { Put (line word.now xs.now) (length word.now + 21 * length xs.now + 1) at out.old out.new result }
{
    let first = put_word(out, at, word);
    let last = put_labels(out, first, xs);
    put_byte(out, last, b'\n')
}
