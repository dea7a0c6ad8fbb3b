// Standard input, read number by number through a buffer that is filled again as it runs out. Document 01, its opening: coupe decides labels and counts.
//
// It is read byte by byte, in fixed memory: no line is too long for it, and the program stands on libc's `read` and `write` alone. std's `BufReader`, `Vec` and `println!` would want its heap and its error numbers as well.
ghost use Rattle.std.specs.Prelude.{◌≤◌, IfOk, IfSome};

use std::num::TryFromIntError;

const BUFFER: usize = 65536;

// The lines of a text, or the bytes of a line, that are read at most: 2^40, more than any has, so that every loop over them ends.
pub const MOST_READ: u64 = 1099511627776;

// No number has more digits, zeros in front included.
const MOST_DIGITS: u32 = 20;

// A number above this takes no digit more. So the six numbers from 2^64 - 6 are too large as well: `checked_mul` and `checked_add` would read them, and what the program does on every input may not change.
const MOST_TENS: u64 = 1844674407370955160;

// Why a case does not agree.
#[derive(Clone, Copy, Debug)]
pub enum Mismatch {
    // The line ends too early or too late, or has something else than a number.
    NotOfTheForm,
    // A number of the line is too large for its place.
    TooLarge,
    // The library answers otherwise.
    Differs,
}

impl From<TryFromIntError> for Mismatch {
    fn from(_failed: TryFromIntError) -> Self {
        Mismatch::TooLarge
    }
}

// The bytes of the buffer from `at` up to `end` are not read yet: two numbers, as a slice of them would lend the reader's own memory.
#[derive(Drop)]
pub struct Reader {
    buffer: [u8; BUFFER],
    at: usize,
    end: usize,
}

impl Reader {
    pub fn new() -> Self {
        Reader {
            buffer: [0; BUFFER],
            at: 0,
            end: 0,
        }
    }

    // The next byte, still unread, or none at the end of the input.
    pub fn peek(&mut self) -> Option<u8> {
        if self.end <= self.at {
            self.at = 0;
            self.end = io::read_full(0, &mut self.buffer);
        }
        let unread = self.buffer.get(self.at..self.end)?;
        unread.first().copied()
    }

    // Past the byte that was looked at.
    fn advance(&mut self) {
        self.at = self.at.wrapping_add(1);
    }

    // The value of the next byte, still unread, where it is a digit.
    fn peek_digit(&mut self) -> Option<u64>
        ensures { IfSome result (λ d. d ≤ 9) }
    {
        match self.peek() {
            Some(byte @ b'0'..=b'9') => Some(u64::from(byte - b'0')),
            _ => None,
        }
    }

    // One to twenty digits whose value fits. What follows them stays unread.
    pub fn read_digits(&mut self) -> Result<u64, Mismatch> {
        let mut number = None;
        for _ in 0..MOST_DIGITS {
            let Some(digit) = self.peek_digit() else {
                break;
            };
            let tens = number.unwrap_or(0);
            if MOST_TENS < tens {
                return Err(Mismatch::TooLarge);
            }
            number = Some(tens * 10 + digit);
            self.advance();
        }
        number.ok_or(Mismatch::NotOfTheForm)
    }

    // Past the one blank after a number; the end of a line stays unread.
    pub fn skip_blank(&mut self) -> Result<(), Mismatch> {
        if self.peek() == Some(b' ') {
            self.advance();
            return Ok(());
        }
        self.expect_end()
    }

    // The next number of the line.
    pub fn read<T: TryFrom<u64, Error = TryFromIntError>>(&mut self) -> Result<T, Mismatch> {
        let number = self.read_digits()?;
        self.skip_blank()?;
        Ok(T::try_from(number)?)
    }

    // The next number of the line, which is to be at most `most`.
    pub fn read_up_to(&mut self, most: usize) -> Result<usize, Mismatch>
        ensures { IfOk result (λ n. n ≤ most) }
    {
        let number = self.read::<usize>()?;
        if number <= most {
            Ok(number)
        } else {
            Err(Mismatch::TooLarge)
        }
    }

    // The next `count` numbers of the line, put at the start of the room, which is to be large enough.
    pub fn read_list<'a>(
        &mut self,
        count: usize,
        room: &'a mut [u32],
    ) -> Result<&'a mut [u32], Mismatch> {
        let Some(list) = room.get_mut(..count) else {
            return Err(Mismatch::TooLarge);
        };
        for number in list.iter_mut() {
            *number = self.read()?;
        }
        Ok(list)
    }

    // The next number of the line is to be this one.
    pub fn expect(&mut self, answer: u64) -> Result<(), Mismatch> {
        if self.read::<u64>()? == answer {
            Ok(())
        } else {
            Err(Mismatch::Differs)
        }
    }

    // The next numbers of the line are to be these.
    pub fn expect_all<T: Copy>(&mut self, answers: &[T]) -> Result<(), Mismatch>
    where
        u64: From<T>,
    {
        for answer in answers {
            self.expect(u64::from(*answer))?;
        }
        Ok(())
    }

    // The line is to end here.
    pub fn expect_end(&mut self) -> Result<(), Mismatch> {
        match self.peek() {
            None | Some(b'\n') => Ok(()),
            Some(_) => Err(Mismatch::NotOfTheForm),
        }
    }

    // Past what is left of the line, and its end.
    pub fn next_line(&mut self) {
        for _ in 0..MOST_READ {
            let byte = self.peek();
            self.advance();
            if byte.is_none() || byte == Some(b'\n') {
                break;
            }
        }
    }
}
