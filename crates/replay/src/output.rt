// Standard output, as a place to write formatted text to. Document 01, its opening: coupe decides labels and counts.
//
// It writes by `io` and not by std's `println!`, which stands on more of libc than `write`.
use std::fmt;

#[derive(Clone, Copy)]
pub struct Output;

// A piece that cannot be written is lost, and those after it are tried all the same.
impl fmt::Write for Output {
    fn write_str(&mut self, s: &str) -> fmt::Result {
        io::write_all(1, s.as_bytes());
        Ok(())
    }
}
