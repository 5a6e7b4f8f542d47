// A line under way: its fields one after the other, each with the byte after it, in the line's own 64 bytes. No field has more than 8 bytes.
// A line is written for every row, so each field goes straight into the line's bytes, with no `write!`, `ArrayString` or `itoa` between. Each field asks for its room in a clause: the room is the call's, as the line only grows.
ghost use Rattle.std.specs.Prelude.{◌≡◌, ◌+◌, ◌%◌, ◌<◌, ◌≤◌, [], ◌∷◌, ◌++◌, length, decimal, MatchResult};
ghost use Rattle.lines.specs.Lines.{optional, after_byte, place_bytes, Lined};

use crate::writing::ShortBuffer;
use model::Place;
use std::marker::Model;

const ROOM: usize = 64;

// Refuses a buffer that hasn't room for every line. It's asked before a line is begun, so that none is made for a short buffer.
pub(crate) fn room_in(buf: &[u8]) -> Result<(), ShortBuffer>
    ensures { MatchResult result (λ _. ROOM ≤ length buf.now) (λ _. length buf.now < ROOM) }
{
    if buf.len() < ROOM {
        return Err(ShortBuffer);
    }
    Ok(())
}

// What stands after a field.
#[derive(Clone, Copy, PartialEq, Eq, Debug)]
pub(crate) enum After {
    Blank,
    LineFeed,
}

impl After {
    fn as_byte(self) -> u8
        ensures { result ≡ after_byte self }
    {
        match self {
            After::Blank => b' ',
            After::LineFeed => b'\n',
        }
    }
}

// The length has 32 bits and stands before the bytes: no index reaches back to it, so the compiler sees that writing a byte leaves it as it was, and keeps it in a register.
#[derive(Drop)]
pub(crate) struct Line {
    len: u32,
    bytes: [u8; ROOM],
}

// A line is the bytes that were put into it.
impl Model for Line {
    ghost use Rattle.std.specs.Prelude.{ℕ, List, ◌≤◌, take};
    ghost use Rattle.lines.specs.declared.line.TheConstants.{ROOM};

    ghost Value = { List ℕ };

    ghost view = { λ l. take l.len l.bytes };

    ghost invariant = { λ l. l.len ≤ ROOM };
}

impl Line {
    pub(crate) fn new() -> Line
        ensures { result ≡ [] }
    {
        Line {
            len: 0,
            bytes: [0; ROOM],
        }
    }

    fn put(&mut self, byte: u8)
        requires { length self.old < ROOM }
        ensures { self.new ≡ self.old ++ byte ∷ [] }
    {
        self.bytes[self.len as usize] = byte;
        self.len += 1;
    }

    fn last_digit(&mut self, n: u16)
        requires { length self.old < ROOM }
        ensures { self.new ≡ self.old ++ (48 + n % 10) ∷ [] }
    {
        self.put(b'0' + (n % 10) as u8);
    }

    // No number begins with a nought, but for nought itself.
    fn leading_digit(&mut self, n: u16)
        requires { length self.old < ROOM }
        ensures nought { n ≡ 0 → self.new ≡ self.old }
        ensures digit { 0 < n → self.new ≡ self.old ++ (48 + n % 10) ∷ [] }
        ensures short { length self.new ≤ length self.old + 1 }
    {
        if n > 0 {
            self.last_digit(n);
        }
    }

    // The digits of a number, which are five at most. They're kept out of line, since a line has up to five numbers.
    #[inline(never)]
    fn digits(&mut self, n: u16)
        requires { length self.old + 5 ≤ ROOM }
        ensures written { self.new ≡ self.old ++ decimal n }
        ensures short { length self.new ≤ length self.old + 5 }
    {
        self.leading_digit(n / 10000);
        self.leading_digit(n / 1000);
        self.leading_digit(n / 100);
        self.leading_digit(n / 10);
        self.last_digit(n);
    }

    // A word and the byte after it.
    pub(crate) fn word(&mut self, word: &str, after: After)
        requires room { length self.old + 9 ≤ ROOM }
        requires fits { length word.now ≤ 8 }
        ensures written { self.new ≡ self.old ++ (word.now ++ after_byte after ∷ []) }
        ensures short { length self.new ≤ length self.old + 9 }
    {
        let start = self.len as usize;
        let end = start + word.len();
        self.bytes[start..end].copy_from_slice(word.as_bytes());
        self.len = end as u32;
        self.put(after.as_byte());
    }

    // A number and the byte after it.
    pub(crate) fn number(&mut self, n: u16, after: After)
        requires room { length self.old + 9 ≤ ROOM }
        ensures written { self.new ≡ self.old ++ (decimal n ++ after_byte after ∷ []) }
        ensures short { length self.new ≤ length self.old + 9 }
    {
        self.digits(n);
        self.put(after.as_byte());
    }

    // A number or `-`, and the byte after it.
    pub(crate) fn number_or_dash(&mut self, n: Option<u16>, after: After)
        requires room { length self.old + 9 ≤ ROOM }
        ensures written { self.new ≡ self.old ++ (optional n ++ after_byte after ∷ []) }
        ensures short { length self.new ≤ length self.old + 9 }
    {
        match n {
            Some(n) => self.number(n, after),
            None => self.word("-", after),
        }
    }

    // The numbers of a place. They end the line.
    pub(crate) fn place(&mut self, place: Place)
        requires { length self.old + 18 ≤ ROOM }
        ensures { self.new ≡ self.old ++ place_bytes place }
    {
        match place {
            Place::At(n) => self.number(n, After::LineFeed),
            Place::Column { line, column } => {
                self.number(line, After::Blank);
                self.number(column, After::LineFeed);
            }
        }
    }

    // Writes the line over the front of a buffer, and answers its length.
    pub(crate) fn copy_to(&self, buf: &mut [u8]) -> Result<usize, ShortBuffer>
        ensures { Lined self.now buf.old result buf.new }
    {
        room_in(buf)?;
        let len = self.len as usize;
        buf[..len].copy_from_slice(&self.bytes[..len]);
        Ok(len)
    }
}
