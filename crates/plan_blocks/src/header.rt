// The header of a plan: decoded from a file's first block or made of what is given, and its numbers judged. Document 01, "Plan blocks"; document 02, A4.
ghost use Rattle.std.specs.Prelude.{◌≡◌, ◌≤◌, false, length};
ghost use Rattle.imbalance.specs.Ceiling.{unfit_choice};
ghost use Rattle.plan_blocks.specs.Plan.{value_of, each_of};
ghost use Rattle.plan_blocks.specs.Decode.{each_at, header_at, bad_numbers};

use crate::{ceiling, layout, words};
use imbalance::Ceiling;

// n vertices, a arcs, k parts, the ceiling's choice, its value as a number of 8 bytes, and its number for each part. It has no invariant, since headers out of range are decoded too, and refused; the choice stays a number, as the file's word and C's field are.
#[derive(Clone, Copy)]
pub struct Header {
    pub n: usize,
    pub a: usize,
    pub k: u32,
    pub choice: u32,
    pub value: u64,
    pub each: [u32; 16],
}

// The number of each part, in a header of eleven records; in one of three these places are unused.
fn each_at(bytes: &[u8]) -> [u32; 16]
    requires { 512 ≤ length bytes.now }
    ensures { result ≡ each_at bytes.now }
{
    std::array::from_fn(|t| words::word_at(bytes, 7 + t))
}

// The header of a file: the one place that decodes it, but for its choice, by which its layout is judged before.
pub fn header_of(bytes: &[u8]) -> Header
    requires { 512 ≤ length bytes.now }
    ensures { result ≡ header_at bytes.now }
{
    Header {
        n: words::word_at(bytes, 1) as usize,
        a: words::word_at(bytes, 2) as usize,
        k: words::word_at(bytes, 3),
        choice: words::word_at(bytes, 4),
        value: ceiling::paired(words::word_at(bytes, 5), words::word_at(bytes, 6)),
        each: each_at(bytes),
    }
}

// The header of a plan that is given with what is asked of the ceiling.
pub fn header_with(n: usize, a: usize, k: u32, asked: Ceiling) -> Header
    requires { unfit_choice asked ≡ false }
    ensures { result ≡ record { n = n; a = a; k = k; choice = asked.choice; value = value_of asked; each = each_of asked } }
{
    Header {
        n,
        a,
        k,
        choice: asked.choice,
        value: ceiling::value_of(asked),
        each: ceiling::each_of(asked),
    }
}

// Number 12's test.
pub fn bad_numbers(header: Header) -> bool
    ensures { result ≡ bad_numbers header }
{
    layout::out_of_range(header.n, header.a, header.k)
        || ceiling::unfit_value(header.choice, header.value)
}
