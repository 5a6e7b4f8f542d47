// Compares the book with the reference, over plans made by chance.
#![tactic(auto)]

mod comparing;
mod dice;
mod drafts;
mod tally;
mod writing;

use book::Book;
use comparing::{Difference, compare, compare_book};
use dice::Dice;
use drafts::{nested, one_link, scattered};
use model::Kind;
use plan::{GatewayTable, Turned};
use reference::{Listing, Sketch};
use std::alloc::{AllocError, Global};
use std::io;
use tally::Tally;
use thiserror::Error;
use writing::written;

// A plan grown from one link and a scattered one a round.
const ROUNDS: u32 = 2_500;

const FEWEST_PLANS: u32 = 3_000;

const FEWEST_ROWS: u32 = 50;

#[derive(Debug, Drop, Error)]
enum Trouble {
    #[error("out of memory")]
    Memory,
    #[error(transparent)]
    Print(#[from] io::Error),
    #[error("a new book does not open")]
    Book,
    #[error("the plan made by chance is not sound")]
    Unsound,
    #[error("the table does not take the plan's text")]
    Text,
    #[error("the book of the plan differs: {0:?}")]
    Differs(#[from] Difference),
    #[error("the book of the turned plan differs: {0:?}")]
    DiffersTurned(Difference),
    #[error("fewer than {min} plans were compared", min = FEWEST_PLANS)]
    FewPlans,
    #[error("fewer than {min} rows are {0}", min = FEWEST_ROWS)]
    FewRows(Kind),
}

// By hand: `from` needs a field to fill, and a program that ends so prints the case with its fields. This one is printed by its name alone.
impl From<AllocError> for Trouble {
    fn from(_error: AllocError) -> Trouble {
        Trouble::Memory
    }
}

// A book, and what it was compared on.
#[derive(Drop)]
struct Trial {
    book: Book,
    tally: Tally,
}

impl Trial {
    // A new book is that of the plan of one link.
    fn new(heap: Global) -> Result<Trial, Trouble> {
        let mut book = Book::new(heap).map_err(|_| Trouble::Book)?;
        if let Some(sketch) = one_link(heap)? {
            compare_book(&mut book, &Listing::new(&sketch, heap)?)?;
        }
        Ok(Trial {
            book,
            tally: Tally::new(),
        })
    }

    // The plan and the plan turned, each read, opened and asked for all that the book tells.
    fn compare(&mut self, sketch: &Sketch, text: &str, heap: Global) -> Result<(), Trouble> {
        if !sketch.sound(heap)? {
            return Err(Trouble::Unsound);
        }
        let mut table = GatewayTable::new(heap)?;
        table.read(text.as_bytes()).map_err(|_| Trouble::Text)?;
        let listing = Listing::new(sketch, heap)?;
        compare(&mut self.book, &table, &listing)?;
        let back = Listing::new(&sketch.turned(heap)?, heap)?;
        compare(&mut self.book, &Turned::new(table), &back).map_err(Trouble::DiffersTurned)?;
        self.tally.add_plan(sketch);
        self.tally.add_rows(&listing.rows);
        self.tally.add_rows(&back.rows);
        Ok(())
    }

    // Compares the plan, if one was made, and prints it where there is trouble.
    fn add<R: AllocGlobal + Eprint>(
        &mut self,
        made: Option<Sketch>,
        rt: &R,
    ) -> Result<(), Trouble> {
        let Some(sketch) = made else {
            return Ok(());
        };
        let text = written(&sketch, rt.alloc())?;
        let compared = self.compare(&sketch, text.as_str(), rt.alloc());
        if compared.is_err() {
            eprintln!(rt; "{text}")?;
        }
        compared
    }
}

fn compare_all<R: AllocGlobal + Eprint>(rt: &R) -> Result<Tally, Trouble> {
    let heap = rt.alloc();
    let mut trial = Trial::new(heap)?;
    let mut dice = Dice::new();
    for _ in 0..ROUNDS {
        trial.add(nested(&mut dice, heap)?, rt)?;
        trial.add(scattered(&mut dice, heap)?, rt)?;
    }
    Ok(trial.tally)
}

fn main(rt: HostRuntime) -> Result<(), Trouble> {
    let tally = compare_all(&rt)?;
    if tally.plans < FEWEST_PLANS {
        return Err(Trouble::FewPlans);
    }
    if let Some(kind) = tally.rarer(FEWEST_ROWS) {
        return Err(Trouble::FewRows(kind));
    }
    tally.print(&rt)?;
    Ok(())
}
