// Why a plan has no book: what is wrong with its shape, at the smallest link or step.
ghost use Rattle.std.specs.Prelude.{◌≡◌};
ghost use Rattle.search.specs.declared.shapes.ShapeFault.TheVariants.{Memory};
ghost use Rattle.search.specs.Shapes.{shape_refusal};

use lists::NoMemory;
use model::{Layer, LinkNo, Place, Refusal, StepNo};
use std::alloc::AllocError;

#[derive(Clone, Copy, PartialEq, Eq, Debug)]
pub enum ShapeFault {
    EntersFirst(LinkNo),
    LeavesLast(LinkNo),
    NotReached(StepNo),
    NoWayOut(StepNo),
    Memory,
}

impl ShapeFault {
    // Want of memory has no number.
    pub fn refusal(self) -> Option<Refusal>
        ensures { result ≡ shape_refusal self }
    {
        let (number, place) = match self {
            ShapeFault::EntersFirst(link) => (42, link.0),
            ShapeFault::LeavesLast(link) => (43, link.0),
            ShapeFault::NotReached(step) => (44, step.0),
            ShapeFault::NoWayOut(step) => (45, step.0),
            ShapeFault::Memory => return None,
        };
        Some(Refusal {
            number,
            layer: Layer::Shape,
            place: Place::At(place),
        })
    }
}

impl From<AllocError> for ShapeFault {
    ghost from_gives = { λ _ r. r ≡ Memory };

    fn from(_e: AllocError) -> ShapeFault {
        ShapeFault::Memory
    }
}

impl From<NoMemory> for ShapeFault {
    ghost from_gives = { λ _ r. r ≡ Memory };

    fn from(_e: NoMemory) -> ShapeFault {
        ShapeFault::Memory
    }
}
