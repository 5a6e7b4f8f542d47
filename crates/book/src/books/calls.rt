// The calls of an open book. None of them takes memory.
ghost use Rattle.std.specs.Prelude.{◌≡◌, ◌-◌, length};
ghost use Rattle.std.specs.Iterator.{at_most};
ghost use Rattle.book.specs.Calls.{rows_of, next_of, at_row, Next, class_of, Found};

use crate::books::Book;
use crate::faults::BookFault;
use crate::places::{Cursor, CursorGuard};
use model::{LinkNo, Row, RowNo, StepNo};

impl Book {
    // The following row, or none after the last one and from then on.
    pub fn next(&mut self) -> Option<Row>
        ensures { Next self.old result self.new }
    {
        let row = self.table.row(self.cursor.next)?;
        self.cursor.next += 1;
        Some(row)
    }

    // The listing goes back to its start.
    pub fn restart(&mut self)
        ensures { self.new ≡ at_row self.old 0 }
    {
        self.cursor = Cursor { next: 0 };
    }

    // The smallest link of the link's class.
    pub fn class(&self, link: LinkNo) -> Result<LinkNo, BookFault>
        ensures { result ≡ class_of self.now link }
    {
        self.classes
            .get(link.0 as usize)
            .copied()
            .ok_or(BookFault::NoLink(link))
    }

    // The row of fewest steps that the step is inside: the last one whose run has the step's home.
    // A rule of the project: the walk has the listing's own place, and the guard puts that back whichever way out is taken.
    pub fn find(&mut self, step: StepNo) -> Result<RowNo, BookFault>
        ensures same { self.new ≡ self.old }
        ensures found { Found self.old step result }
    {
        let Book {
            homes,
            table,
            cursor,
            ..
        } = self;
        let saved = *cursor;
        let guard = CursorGuard { cursor, saved };
        let RowNo(home) = *homes.get(step.0 as usize).ok_or(BookFault::NoStep(step))?;
        let mut found = RowNo(0);
        guard.cursor.next = 0;
        while let Some(run) = table.run(guard.cursor.next) {
            // A run begins with its row, so that none of the rows after the home has it.
            if run.start > home {
                break;
            }
            if run.contains(&home) {
                found = RowNo(run.start);
            }
            guard.cursor.next += 1;
        }
        Ok(found)
    }
}

// The rows of the listing, from its place on.
impl Iterator for Book {
    type Item = Row;

    ghost next_gives = { Next };

    ghost remaining = { λ b. at_most (length (rows_of b) - next_of b) };

    fn next(&mut self) -> Option<Row> {
        Book::next(self)
    }
}
