// Words of a file, little-endian: read, stored and summed. Document 01, "Plan blocks".
ghost use Rattle.std.specs.Prelude.{◌≡◌, ◌+◌, ◌*◌, ◌%◌, ◌≤◌, length};
ghost use Rattle.lists.specs.Sum.{sum};
ghost use Rattle.plan_blocks.specs.Word.{wrap, word, put_word};

// Word w of a file.
pub fn word_at(s: &[u8], w: usize) -> u32
    requires { 4 * w + 4 ≤ length s.now }
    ensures { result ≡ word s.now w }
{
    let at = 4 * w;
    u32::from_le_bytes([s[at], s[at + 1], s[at + 2], s[at + 3]])
}

// Stores x as word w.
pub fn put_word(s: &mut [u8], w: usize, x: u32)
    requires { 4 * w + 4 ≤ length s.old }
    ensures { s.new ≡ put_word s.old w x }
{
    let at = 4 * w;
    let [a, b, c, d] = x.to_le_bytes();
    s[at] = a;
    s[at + 1] = b;
    s[at + 2] = c;
    s[at + 3] = d;
}

// The sum of `count` words, wrapping, from word `first` on.
pub fn words_sum(s: &[u8], first: usize, count: usize) -> u32
    requires { 4 * (first + count) ≤ length s.now }
    ensures { result ≡ sum count (λ j. word s.now (first + j)) % wrap }
{
    let mut sum: u32 = 0;
    for j in 0..count {
        sum = sum.wrapping_add(word_at(s, first + j));
    }
    sum
}
