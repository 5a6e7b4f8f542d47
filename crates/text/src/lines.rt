// One line of a text: what may be wrong with it, and the frame that it spells.
ghost use Rattle.std.specs.Prelude.{◌≡◌, ◌≤◌, true, [], ◌∷◌, length, is_some, IfOk, MatchOption, MatchResult};
ghost use Rattle.text.specs.Decoded.{Spelt};
ghost use Rattle.text.specs.Digit.{digit_of};
ghost use Rattle.text.specs.Line.{Digits, GoodLine, NoDigitAt, LineFault};
ghost use Rattle.text.specs.Spelling.{hex_pair};

use crate::digits::{digit, entry};
use crate::faults::TextFault;
use std::alloc::{AllocError, Global};

// What one line spells: the kind byte and the bytes after it.
#[derive(Debug, Drop)]
pub struct Frame {
    pub line: u16,
    pub kind: u8,
    pub fields: Vec<u8>,
}

// Where the first byte stands that is no digit.
fn no_digit(bytes: &[u8]) -> Option<usize>
    ensures { MatchOption result (Digits bytes.now (length bytes.now)) (λ k. NoDigitAt bytes.now k) }
{
    bytes.iter().position(|b| digit(*b).is_none())
}

// Whether the bytes of a line spell a frame.
pub(crate) fn check_line(bytes: &[u8], line: u16) -> Result<(), TextFault>
    requires { length bytes.now ≤ 65535 }
    ensures { MatchResult result (λ _. GoodLine bytes.now) (λ e. LineFault line bytes.now e) }
{
    if bytes.is_empty() {
        return Err(TextFault::EmptyLine { line });
    }
    if let Some(k) = no_digit(bytes) {
        let column = (k + 1) as u16;
        return Err(TextFault::NoDigit { line, column });
    }
    if bytes.len() % 2 == 1 {
        return Err(TextFault::OddDigits { line });
    }
    Ok(())
}

// The byte that two digits spell.
fn byte(high: u8, low: u8) -> u8
    requires { (is_some (digit_of high) ≡ true) × (is_some (digit_of low) ≡ true) }
    ensures { hex_pair result ≡ high ∷ low ∷ [] }
{
    entry(high) * 16 + entry(low)
}

// The frame that a good line spells.
pub(crate) fn frame_of(digits: &[u8], line: u16, heap: Global) -> Result<Frame, AllocError>
    requires { GoodLine digits.now }
    ensures { IfOk result (λ f. Spelt line digits.now f) }
{
    let kind = byte(digits[0], digits[1]);
    let mut fields = Vec::new(heap);
    for pair in digits[2..].chunks_exact(2) {
        fields.push(byte(pair[0], pair[1]))?;
    }
    Ok(Frame { line, kind, fields })
}
