// One block of a file, judged: the sum of its words, and its layout. Document 01, "Plan blocks"; document 02, A2.
ghost use Rattle.std.specs.Prelude.{◌≡◌, ◌+◌, ◌*◌, ◌<◌, ◌≤◌, length};
ghost use Rattle.plan_blocks.specs.Block.{sum_at, checks, laid_out};
ghost use Rattle.plan_blocks.specs.Decode.{in_block, kind_of};

use crate::words;

// What the writer makes. A file's kind stays a number, and a block's where it is judged: `checks` and `laid_out` promise their answer for kinds that none may have.
pub const NEW_KIND: usize = 1;

// The file's kind: byte 1 of its header.
pub fn kind_of(bytes: &[u8]) -> usize
    requires { 2 ≤ length bytes.now }
    ensures { (result ≡ kind_of bytes.now) × (result < 256) }
{
    usize::from(bytes[1])
}

// The sum that block b's words must have in a file of this kind.
fn sum_at(file: usize, b: usize) -> usize
    ensures { result ≡ sum_at file b }
{
    if file == 0 { 0 } else { b }
}

// Whether the sum of block b's words, wrapping, is what a file of this kind asks.
pub fn checks(bytes: &[u8], file: usize, b: usize) -> bool
    requires { 512 * b + 512 ≤ length bytes.now }
    ensures { result ≡ checks (sum_at file b) (in_block bytes.now b) }
{
    words::words_sum(bytes, 128 * b, 128) as usize == sum_at(file, b)
}

// Whether block b is laid out as the file's kind, its own kind and its count ask.
pub fn laid_out(bytes: &[u8], b: usize, file: usize, kind: usize, count: usize) -> bool
    requires { (512 * b + 512 ≤ length bytes.now) × (file < 256) × (kind < 256) × (count ≤ 63) }
    ensures { result ≡ laid_out file kind count (in_block bytes.now b) }
{
    let first = 128 * b;
    words::word_at(bytes, first) as usize == kind + 256 * file + 65536 * count
        && (1 + 2 * count..127).all(|j| words::word_at(bytes, first + j) == 0)
}
