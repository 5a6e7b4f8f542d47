// Plans of three makes, from step 0 to the highest step: a chain through all steps, and the links that the make adds.
use model::{Ends, Logic, StepNo};
use rand::seq::IndexedRandom;
use rand_pcg::Pcg32;
use std::alloc::{AllocError, Global};
use std::fmt;
use std::fmt::Write;

// One fixed sequence of numbers, so that every run makes the same plans.
const SEED: u64 = 42;

const STREAM: u64 = 54;

#[derive(Clone, Copy, PartialEq, Eq, Debug)]
pub enum Make {
    Chain,
    Ladder,
    Random,
}

impl Make {
    pub const ALL: [Make; 3] = [Make::Chain, Make::Ladder, Make::Random];

    fn links(self, steps: u16, heap: Global) -> Result<Vec<Ends>, AllocError> {
        let mut links = chain(steps, heap)?;
        let more = match self {
            Make::Chain => Vec::new(heap),
            Make::Ladder => second_branches(steps, heap)?,
            Make::Random => scattered(&links, heap)?,
        };
        links.extend_from_slice(&more)?;
        Ok(links)
    }

    // The text of a table: the head, then a line for each step, then one for each link.
    pub fn text(self, steps: u16, heap: Global) -> Result<String, AllocError> {
        let mut text = String::new(heap);
        let last = steps.saturating_sub(1);
        writeln!(text, "010000{last:04X}")?;
        for _ in 0..steps {
            writeln!(text, "10{:02X}", Logic::One.number())?;
        }
        for ends in self.links(steps, heap)?.iter() {
            writeln!(text, "20{:04X}{:04X}", ends.tail.0, ends.head.0)?;
        }
        Ok(text)
    }
}

impl fmt::Display for Make {
    fn fmt<W: fmt::Write>(&self, f: &mut fmt::Formatter<W>) -> fmt::Result {
        f.pad(match self {
            Make::Chain => "chain",
            Make::Ladder => "ladder",
            Make::Random => "random",
        })
    }
}

fn link((tail, head): (u16, u16)) -> Ends {
    Ends {
        tail: StepNo(tail),
        head: StepNo(head),
    }
}

// All steps in a row.
fn chain(steps: u16, heap: Global) -> Result<Vec<Ends>, AllocError> {
    (0..steps).zip(1..steps).map(link).collect(heap)
}

// From each inner step of the first half to its mirror image in the second half. So each of them opens a choice within the one before: on along the chain, or at once to where the choice closes.
fn second_branches(steps: u16, heap: Global) -> Result<Vec<Ends>, AllocError> {
    let mirrored = (0..steps).rev().skip(1);
    (1..steps / 2).zip(mirrored).map(link).collect(heap)
}

// As many as make two links a step, with those of the chain. Each has the tail of some link of the chain and the head of some, so that none enters the first step or leaves the last.
fn scattered(chain: &[Ends], heap: Global) -> Result<Vec<Ends>, AllocError> {
    let mut numbers = Pcg32::new(SEED, STREAM);
    (0..chain.len() + 2)
        .filter_map(|_| {
            Some(Ends {
                tail: chain.choose(&mut numbers)?.tail,
                head: chain.choose(&mut numbers)?.head,
            })
        })
        .collect(heap)
}
