// Sets of steps.
ghost use Rattle.std.specs.Prelude.{◌≡◌, ℕ, bit_and, bit_or};
ghost use Rattle.std.specs.Int.{bit_not, w64};

use model::StepNo;
use std::marker::Model;
use std::ops::{BitAnd, BitOr, Sub};

// One bit a step, for plans of at most 64 steps: a set is copied and joined without memory, so a walk over sets can't fail.
#[derive(Clone, Copy, PartialEq, Eq, Debug)]
pub struct StepSet(u64);

// In clauses a set is the number whose bits are its steps.
impl Model for StepSet {
    ghost Value = { ℕ };

    ghost view = { λ s. s.0 };

    ghost inverse = { λ n. record { 0 = n } };
}

impl StepSet {
    pub const LIMIT: u16 = 64;

    pub fn none() -> StepSet {
        StepSet(0)
    }

    // The steps below this number.
    pub fn below(count: u16) -> StepSet {
        StepSet::of(count, |_| true)
    }

    // The steps below this number that pass the test.
    pub(crate) fn of<F: Fn(StepNo) -> bool>(count: u16, test: F) -> StepSet
        requires { F.IsAlwaysCallable test }
    {
        (0..count)
            .map(StepNo)
            .filter(|step| test(*step))
            .fold(StepSet::none(), StepSet::with)
    }

    pub fn only(step: StepNo) -> StepSet {
        StepSet::none().with(step)
    }

    pub fn with(self, step: StepNo) -> StepSet {
        if step.0 < StepSet::LIMIT {
            StepSet(self.0 | 1 << step.0)
        } else {
            self
        }
    }

    pub fn has(self, step: StepNo) -> bool {
        !(self & StepSet::only(step)).is_empty()
    }

    // Whether all steps of the other are here.
    pub fn holds(self, other: StepSet) -> bool {
        (other - self).is_empty()
    }

    pub fn is_empty(self) -> bool {
        self == StepSet::none()
    }

    pub fn count(self) -> u16 {
        self.0.count_ones() as u16
    }

    pub fn lowest(self) -> Option<StepNo> {
        let zeros = self.0.trailing_zeros() as u16;
        (zeros < StepSet::LIMIT).then_some(StepNo(zeros))
    }
}

impl BitOr for StepSet {
    type Output = StepSet;

    ghost bitor_gives = { λ a b r. r ≡ bit_or a b };

    fn bitor(self, other: StepSet) -> StepSet {
        StepSet(self.0 | other.0)
    }
}

impl BitAnd for StepSet {
    type Output = StepSet;

    ghost bitand_gives = { λ a b r. r ≡ bit_and a b };

    fn bitand(self, other: StepSet) -> StepSet {
        StepSet(self.0 & other.0)
    }
}

// The steps of the one that the other lacks.
impl Sub for StepSet {
    type Output = StepSet;

    ghost sub_gives = { λ a b r. r ≡ bit_and a (bit_not w64 b) };

    fn sub(self, other: StepSet) -> StepSet {
        StepSet(self.0 & !other.0)
    }
}
