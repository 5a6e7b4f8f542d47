// What turns a text away: a fault of the table that it tells, carried whole, or of the plan's shape.
ghost use Rattle.std.specs.Prelude.{◌≡◌};
ghost use Rattle.listing.specs.Faults.{browser_refusal};
ghost use Rattle.listing.specs.declared.faults.BrowserFault.TheVariants.{Table, Shape, Memory};

use lists::NoMemory;
use model::Refusal;
use plan::PlanFault;
use search::ShapeFault;
use std::alloc::AllocError;

#[derive(Clone, Copy, Debug)]
pub enum BrowserFault {
    Table(PlanFault),
    Shape(ShapeFault),
    Memory,
}

impl BrowserFault {
    // Want of memory has no number.
    pub fn refusal(self) -> Option<Refusal>
        ensures { result ≡ browser_refusal self }
    {
        match self {
            BrowserFault::Table(fault) => fault.refusal(),
            BrowserFault::Shape(fault) => fault.refusal(),
            BrowserFault::Memory => None,
        }
    }
}

impl From<PlanFault> for BrowserFault {
    ghost from_gives = { λ e r. r ≡ Table e };

    fn from(e: PlanFault) -> BrowserFault {
        BrowserFault::Table(e)
    }
}

impl From<ShapeFault> for BrowserFault {
    ghost from_gives = { λ e r. r ≡ Shape e };

    fn from(e: ShapeFault) -> BrowserFault {
        BrowserFault::Shape(e)
    }
}

impl From<NoMemory> for BrowserFault {
    ghost from_gives = { λ _ r. r ≡ Memory };

    fn from(_e: NoMemory) -> BrowserFault {
        BrowserFault::Memory
    }
}

impl From<AllocError> for BrowserFault {
    ghost from_gives = { λ _ r. r ≡ Memory };

    fn from(_e: AllocError) -> BrowserFault {
        BrowserFault::Memory
    }
}
