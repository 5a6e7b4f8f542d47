// Why a text is turned away.
ghost use Rattle.std.specs.Prelude.{◌≡◌};
ghost use Rattle.text.specs.declared.faults.TextFault.TheVariants.{Memory};
ghost use Rattle.text.specs.Refused.{text_refusal};

use model::{Layer, Place, Refusal};
use std::alloc::{AllocError, AllocFailed};

// The first two are of the whole text, the next three of a line. Lines and columns count from 1.
#[derive(Clone, Copy, PartialEq, Eq, Debug)]
pub enum TextFault {
    TooLong,
    NoLineFeed { line: u16 },
    EmptyLine { line: u16 },
    NoDigit { line: u16, column: u16 },
    OddDigits { line: u16 },
    Memory,
}

impl TextFault {
    // What is told of the fault; want of memory has no number.
    pub fn refusal(self) -> Option<Refusal>
        ensures { result ≡ text_refusal self }
    {
        let (number, place) = match self {
            TextFault::TooLong => (11, Place::At(0)),
            TextFault::NoLineFeed { line } => (12, Place::At(line)),
            TextFault::EmptyLine { line } => (13, Place::At(line)),
            TextFault::NoDigit { line, column } => (14, Place::Column { line, column }),
            TextFault::OddDigits { line } => (15, Place::At(line)),
            TextFault::Memory => return None,
        };
        Some(Refusal {
            number,
            layer: Layer::Text,
            place,
        })
    }
}

impl From<AllocError> for TextFault {
    ghost from_gives = { λ _ r. r ≡ Memory };

    fn from(_e: AllocError) -> TextFault {
        TextFault::Memory
    }
}

// What `push` fails with holds the value that was not taken, so it is a type of its own beside the allocator's.
impl<T: Drop> From<AllocFailed<T>> for TextFault {
    ghost from_gives = { λ _ r. r ≡ Memory };

    fn from(_e: AllocFailed<T>) -> TextFault {
        TextFault::Memory
    }
}
