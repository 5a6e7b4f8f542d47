// Steps, links and rows are numbered from 0. Each has a type of its own, so that a call takes only its own kind of number. The field is public: `.0 as usize`, where a number is an index, loses nothing, and a conversion by name would say no more.
ghost use Rattle.std.specs.Prelude.{◌≡◌};
ghost use Rattle.model.specs.Words.{logic_number, NumbersLogic};

#[derive(Clone, Copy, PartialEq, Eq, PartialOrd, Ord, Debug)]
pub struct StepNo(pub u16);

#[derive(Clone, Copy, PartialEq, Eq, PartialOrd, Ord, Debug)]
pub struct LinkNo(pub u16);

#[derive(Clone, Copy, PartialEq, Eq, PartialOrd, Ord, Debug)]
pub struct RowNo(pub u16);

// Whether one branch of a step is taken, or every branch.
#[derive(Clone, Copy, PartialEq, Eq, Debug)]
pub enum Logic {
    One,
    All,
}

impl Logic {
    pub fn number(self) -> u8
        ensures { result ≡ logic_number self }
    {
        match self {
            Logic::One => 0,
            Logic::All => 1,
        }
    }
}

// A number that stands for no logic.
#[derive(Clone, Copy, PartialEq, Eq, Debug)]
pub struct NotALogic(pub u8);

impl TryFrom<u8> for Logic {
    type Error = NotALogic;

    ghost try_from_gives = { NumbersLogic };

    fn try_from(number: u8) -> Result<Logic, NotALogic> {
        match number {
            0 => Ok(Logic::One),
            1 => Ok(Logic::All),
            _ => Err(NotALogic(number)),
        }
    }
}

// The two steps of a link, which may be one step.
#[derive(Clone, Copy, PartialEq, Eq, Debug)]
pub struct Ends {
    pub tail: StepNo,
    pub head: StepNo,
}

impl Ends {
    // The ends of the link that leads the other way.
    pub fn turned(self) -> Ends
        ensures { result ≡ record { tail = self.head; head = self.tail } }
    {
        Ends {
            tail: self.head,
            head: self.tail,
        }
    }
}
