// Why a text is turned away as a table. A fault of the text itself is carried whole.
ghost use Rattle.std.specs.Prelude.{◌≡◌};
ghost use Rattle.plan.specs.declared.faults.PlanFault.TheVariants.{Text, Memory};
ghost use Rattle.plan.specs.Refused.{plan_refusal};

use model::{Layer, Place, Refusal};
use std::alloc::{AllocError, AllocFailed};
use text::TextFault;

// After a text's own faults, those of a line, in the order of the checks, then those of the whole table. Lines count from 1.
#[derive(Clone, Copy, PartialEq, Eq, Debug)]
pub enum PlanFault {
    Text(TextFault),
    KindNotAllowed { line: u16 },
    WrongLength { line: u16 },
    BadLogic { line: u16 },
    TooManySteps { line: u16 },
    TooManyLinks { line: u16 },
    NoStep { line: u16 },
    Incomplete { line: u16 },
    BadEnds,
    Memory,
}

impl PlanFault {
    // What is told of the fault; want of memory has no number.
    pub fn refusal(self) -> Option<Refusal>
        ensures { result ≡ plan_refusal self }
    {
        let (number, line) = match self {
            PlanFault::Text(fault) => return fault.refusal(),
            PlanFault::KindNotAllowed { line } => (21, line),
            PlanFault::WrongLength { line } => (22, line),
            PlanFault::BadLogic { line } => (23, line),
            PlanFault::TooManySteps { line } => (25, line),
            PlanFault::TooManyLinks { line } => (26, line),
            PlanFault::NoStep { line } => (27, line),
            PlanFault::Incomplete { line } => (28, line),
            PlanFault::BadEnds => (29, 1),
            PlanFault::Memory => return None,
        };
        Some(Refusal {
            number,
            layer: Layer::Plan,
            place: Place::At(line),
        })
    }
}

impl From<TextFault> for PlanFault {
    ghost from_gives = { λ e r. r ≡ Text e };

    fn from(e: TextFault) -> PlanFault {
        PlanFault::Text(e)
    }
}

impl From<AllocError> for PlanFault {
    ghost from_gives = { λ _ r. r ≡ Memory };

    fn from(_e: AllocError) -> PlanFault {
        PlanFault::Memory
    }
}

// What `push` fails with holds the value that was not taken, so it is a type of its own beside the allocator's.
impl<T: Drop> From<AllocFailed<T>> for PlanFault {
    ghost from_gives = { λ _ r. r ≡ Memory };

    fn from(_e: AllocFailed<T>) -> PlanFault {
        PlanFault::Memory
    }
}
