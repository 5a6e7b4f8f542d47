// What a book tells, beside what the reference finds.
use book::Book;
use model::{LinkNo, RowNo, StepNo};
use plan::Plan;
use reference::Listing;

// Where they differ.
#[derive(Clone, Copy, PartialEq, Eq, Debug)]
pub enum Difference {
    // The book did not open.
    Open,
    Class(LinkNo),
    // A link that the plan lacks has a class.
    NoLink,
    Row(RowNo),
    // No end after the last row.
    End,
    Find(StepNo),
    // A step that the plan lacks was found.
    NoStep,
    Restart,
}

// Opens the book over the plan and asks it for all that it tells.
pub fn compare<P: Plan>(book: &mut Book, plan: &P, listing: &Listing) -> Result<(), Difference> {
    book.open(plan).map_err(|_| Difference::Open)?;
    compare_book(book, listing)
}

// The listing is at its start, and one row on when all is well.
pub fn compare_book(book: &mut Book, listing: &Listing) -> Result<(), Difference> {
    let mut pair = Pair { book, listing };
    pair.classes()?;
    pair.no_step()?;
    pair.rows()?;
    pair.end()?;
    for step in 0..listing.steps {
        pair.home(StepNo(step))?;
    }
    pair.end()?;
    pair.restart()
}

// A book, and the listing that it should tell.
#[derive(Drop)]
struct Pair<'a> {
    book: &'a mut Book,
    listing: &'a Listing,
}

impl Pair<'_> {
    fn classes(&self) -> Result<(), Difference> {
        // A reference has no more links than link numbers; if it had, the class past the last number would differ.
        let links = u16::try_from(self.listing.classes.len()).unwrap_or(u16::MAX);
        for (link, name) in (0..links).map(LinkNo).zip(self.listing.classes.iter()) {
            if self.book.class(link).ok() != Some(*name) {
                return Err(Difference::Class(link));
            }
        }
        if self.book.class(LinkNo(links)).is_ok() {
            return Err(Difference::NoLink);
        }
        Ok(())
    }

    // After each row a step is asked for, and the next row has to come all the same.
    fn rows(&mut self) -> Result<(), Difference> {
        let listing = self.listing;
        for listed in listing.rows.iter() {
            let row = listed.row;
            if self.book.next() != Some(row) {
                return Err(Difference::Row(row.number));
            }
            self.home(StepNo(row.number.0 % listing.steps.max(1)))?;
            self.no_step()?;
        }
        Ok(())
    }

    fn end(&mut self) -> Result<(), Difference> {
        if self.book.next().is_some() || self.book.next().is_some() {
            return Err(Difference::End);
        }
        Ok(())
    }

    fn home(&mut self, step: StepNo) -> Result<(), Difference> {
        if self.book.find(step).ok() != Some(self.listing.home(step)) {
            return Err(Difference::Find(step));
        }
        Ok(())
    }

    fn no_step(&mut self) -> Result<(), Difference> {
        if self.book.find(StepNo(self.listing.steps)).is_ok() {
            return Err(Difference::NoStep);
        }
        Ok(())
    }

    fn restart(&mut self) -> Result<(), Difference> {
        self.book.restart();
        if self.book.next() != self.listing.rows.first().map(|listed| listed.row) {
            return Err(Difference::Restart);
        }
        Ok(())
    }
}
