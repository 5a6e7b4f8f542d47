// Why a call of a book is turned away.
ghost use Rattle.std.specs.Prelude.{◌≡◌};
ghost use Rattle.book.specs.Faults.{book_refusal};

use model::{Layer, LinkNo, Place, Refusal, StepNo};

#[derive(Clone, Copy, PartialEq, Eq, Debug)]
pub enum BookFault {
    NoStep(StepNo),
    NoLink(LinkNo),
}

impl BookFault {
    pub fn refusal(self) -> Refusal
        ensures { result ≡ book_refusal self }
    {
        let (number, place) = match self {
            BookFault::NoStep(step) => (64, step.0),
            BookFault::NoLink(link) => (66, link.0),
        };
        Refusal {
            number,
            layer: Layer::Book,
            place: Place::At(place),
        }
    }
}
