// Plans made by chance: links scattered among the steps, or parts put in the place of links, again and again.
ghost use Rattle.std.specs.Prelude.{◌≡◌, ◌+◌, ◌≤◌, vec_len};
ghost use Rattle.oracle.specs.declared.drafts.TheConstants.{MOST_STEPS};

use crate::dice::Dice;
use model::{Ends, Logic, StepNo};
use reference::walks::{next_steps, reached};
use reference::{Sketch, StepSet};
use std::alloc::{AllocError, Global};

const MOST_STEPS: u16 = 40;

const FIRST: StepNo = StepNo(0);

const LAST: StepNo = StepNo(1);

// What takes the place of a link: so many new steps, entered at the first and left at the last of them, with links among them.
struct Form {
    steps: u16,
    links: &'static [(u16, u16)],
}

// A step, rings, forks and meshes.
const FORMS: [Form; 9] = [
    Form {
        steps: 1,
        links: &[],
    },
    Form {
        steps: 1,
        links: &[(0, 0)],
    },
    Form {
        steps: 2,
        links: &[(0, 1), (1, 0)],
    },
    Form {
        steps: 2,
        links: &[(0, 1), (0, 1)],
    },
    Form {
        steps: 2,
        links: &[(0, 1), (0, 1), (0, 1)],
    },
    Form {
        steps: 3,
        links: &[(0, 1), (0, 2), (1, 2)],
    },
    Form {
        steps: 3,
        links: &[(0, 1), (1, 2), (2, 0), (1, 0)],
    },
    Form {
        steps: 4,
        links: &[(0, 1), (0, 2), (1, 2), (1, 3), (2, 3)],
    },
    Form {
        steps: 4,
        links: &[(0, 1), (1, 2), (2, 1), (2, 3), (0, 3), (3, 3)],
    },
];

// A plan in the making, from step 0 to step 1. No link enters the one or leaves the other.
#[derive(Drop)]
struct Draft<'a> {
    dice: &'a mut Dice,
    logics: Vec<Logic>,
    links: Vec<Ends>,
    ghost few: { vec_len logics ≤ MOST_STEPS },
}

impl<'a> Draft<'a> {
    fn new(dice: &'a mut Dice, steps: u16, heap: Global) -> Result<Draft<'a>, AllocError>
        requires { steps ≤ MOST_STEPS }
    {
        let mut draft = Draft {
            dice,
            logics: Vec::new(heap),
            links: Vec::new(heap),
        };
        draft.add_steps(steps)?;
        Ok(draft)
    }

    fn steps(&self) -> u16
        ensures { result ≡ vec_len self.now.logics }
    {
        self.logics.len() as u16
    }

    // Steps of one logic, or of one logic each.
    fn add_steps(&mut self, count: u16) -> Result<(), AllocError>
        requires { vec_len self.old.logics + count ≤ MOST_STEPS }
    {
        let mut logic = some_logic(self.dice);
        let differ = self.dice.roll(3) == 0;
        for _step in 0..count {
            if differ {
                logic = some_logic(self.dice);
            }
            self.logics.push(logic)?;
        }
        Ok(())
    }

    fn add_link(&mut self, tail: StepNo, head: StepNo) -> Result<(), AllocError> {
        self.links.push(Ends { tail, head })?;
        Ok(())
    }

    // A link between any two steps.
    fn scatter(&mut self) -> Result<(), AllocError> {
        let steps = self.steps();
        let tail = StepNo(self.dice.roll(steps));
        let head = StepNo(self.dice.roll(steps));
        if tail != LAST && head != FIRST {
            self.add_link(tail, head)?;
        }
        Ok(())
    }

    // As many times as there are steps, or up to twice as many.
    fn scatter_links(&mut self) -> Result<(), AllocError> {
        let steps = self.steps();
        for _ in 0..steps + self.dice.roll(steps) {
            self.scatter()?;
        }
        Ok(())
    }

    // Another link beside a link, or one with equal ends.
    fn double(&mut self) -> Result<(), AllocError> {
        let Some(ends) = self.dice.pick(&self.links).copied() else {
            return Ok(());
        };
        if ends.head != LAST && self.dice.roll(2) == 0 {
            self.add_link(ends.head, ends.head)
        } else {
            self.add_link(ends.tail, ends.head)
        }
    }

    // Puts the form in the place of some link.
    fn splice(&mut self, form: &Form) -> Result<(), AllocError> {
        let begin = self.steps();
        if form.steps > MOST_STEPS - begin {
            return Ok(());
        }
        let end = begin + form.steps.saturating_sub(1);
        let at = self.dice.place(self.links.len());
        let Some(ends) = self.links.get_mut(at) else {
            return Ok(());
        };
        let after = ends.head;
        ends.head = StepNo(begin);
        self.add_steps(form.steps)?;
        for (tail, head) in form.links {
            self.add_link(
                StepNo(begin.saturating_add(*tail)),
                StepNo(begin.saturating_add(*head)),
            )?;
        }
        self.add_link(StepNo(end), after)
    }

    // Fewer changes than `most`.
    fn grow(&mut self, most: u16) -> Result<(), AllocError> {
        for _ in 0..self.dice.roll(most) {
            // The roll is the choice: a table of closures would be asked by the same number.
            match self.dice.roll(16) {
                0 => self.scatter()?,
                1 => self.double()?,
                _ => self.splice_some()?,
            }
        }
        Ok(())
    }

    fn splice_some(&mut self) -> Result<(), AllocError> {
        match self.dice.pick(&FORMS) {
            Some(form) => self.splice(form),
            None => Ok(()),
        }
    }

    // The steps on walks from first to last. The links are turned here, and not by `Ends::turned`, which the search goes by: an error there would leave no plan to compare.
    fn on_walks(&self, heap: Global) -> Result<StepSet, AllocError> {
        let turned: Vec<Ends> = self
            .links
            .iter()
            .map(|&Ends { tail, head }| Ends {
                tail: head,
                head: tail,
            })
            .collect(heap)?;
        let after = next_steps(self.steps(), &self.links, None, heap)?;
        let before = next_steps(self.steps(), &turned, None, heap)?;
        Ok(reached(&after, FIRST) & reached(&before, LAST))
    }

    // The steps on walks from first to last and the links between them, numbered by chance.
    fn sketch(&mut self, heap: Global) -> Result<Option<Sketch>, AllocError> {
        let kept = self.on_walks(heap)?;
        let mut order: Vec<StepNo> = (0..self.steps()).map(StepNo).collect(heap)?;
        self.dice.shuffle(&mut order);
        order.retain(|step| kept.has(*step));
        let logics = order
            .iter()
            .filter_map(|step| self.logics.get(usize::from(step.0)).copied())
            .collect(heap)?;
        let numbers = self.numbers_by(&order, heap)?;
        let links = self.links_by(&numbers, heap)?;
        let (Some(first), Some(last)) = (number_of(&numbers, FIRST), number_of(&numbers, LAST))
        else {
            return Ok(None);
        };
        Ok(Sketch::new(links, logics, first, last))
    }

    // For each step its new number, which is its place in the order, if it stands there.
    fn numbers_by(
        &self,
        order: &[StepNo],
        heap: Global,
    ) -> Result<Vec<Option<StepNo>>, AllocError> {
        let mut numbers = vec![in heap; None; self.logics.len()]?;
        for (number, step) in (0..).map(StepNo).zip(order) {
            if let Some(place) = numbers.get_mut(usize::from(step.0)) {
                *place = Some(number);
            }
        }
        Ok(numbers)
    }

    // The links, by chance in a new order, between the steps that have a number.
    fn links_by(
        &mut self,
        numbers: &[Option<StepNo>],
        heap: Global,
    ) -> Result<Vec<Ends>, AllocError> {
        let mut links = Vec::from_slice(heap, &self.links)?;
        self.dice.shuffle(&mut links);
        links
            .iter()
            .filter_map(|ends| {
                Some(Ends {
                    tail: number_of(numbers, ends.tail)?,
                    head: number_of(numbers, ends.head)?,
                })
            })
            .collect(heap)
    }
}

fn number_of(numbers: &[Option<StepNo>], step: StepNo) -> Option<StepNo> {
    numbers.get(usize::from(step.0)).copied()?
}

fn some_logic(dice: &mut Dice) -> Logic {
    if dice.roll(2) == 0 {
        Logic::One
    } else {
        Logic::All
    }
}

// The plan of one link, from step 0 to step 1, both of the logic `one`.
pub fn one_link(heap: Global) -> Result<Option<Sketch>, AllocError> {
    let link = Ends {
        tail: FIRST,
        head: LAST,
    };
    let links = vec![in heap; link]?;
    let logics = vec![in heap; Logic::One; 2]?;
    Ok(Sketch::new(links, logics, FIRST, LAST))
}

// A plan of links between any two steps, in every second one parts in the place of some.
pub fn scattered(dice: &mut Dice, heap: Global) -> Result<Option<Sketch>, AllocError> {
    let steps = dice.roll(MOST_STEPS - 1) + 2;
    let mut draft = Draft::new(dice, steps, heap)?;
    draft.scatter_links()?;
    if draft.dice.roll(2) == 0 {
        draft.grow(12)?;
    }
    draft.sketch(heap)
}

// A plan grown from one link.
pub fn nested(dice: &mut Dice, heap: Global) -> Result<Option<Sketch>, AllocError> {
    let mut draft = Draft::new(dice, 2, heap)?;
    draft.add_link(FIRST, LAST)?;
    draft.grow(24)?;
    draft.sketch(heap)
}
