// Making and opening a book.
ghost use Rattle.std.specs.Prelude.{◌≡◌, length, IfOk, MatchResult};
ghost use Rattle.book.specs.Opens.{Opened, Smallest};
ghost use Rattle.model.specs.Meaning.{Meaning};
ghost use Rattle.search.specs.Shapes.{Misshaped};

use crate::books::Book;
use crate::places::Cursor;
use crate::tables::Table;
use classes::classes;
use lists::NoMemory;
use model::{Kind, LinkNo, Row, RowNo};
use plan::{Graph, Plan, logics_of};
use rows::{Arranged, Classed, RowRun};
use search::{ShapeFault, sound_order};
use std::alloc::Global;

impl Book {
    // The book of the smallest plan, one link from step 0 to step 1: one row, in which both steps are.
    pub fn new(heap: Global) -> Result<Book, NoMemory>
        ensures { IfOk result Smallest }
    {
        let whole = Row {
            number: RowNo(0),
            parent: None,
            kind: Kind::Whole,
            entry: None,
            exit: None,
            inside: 2,
        };
        let classes = vec![in heap; LinkNo(0)]?;
        let homes = vec![in heap; RowNo(0), RowNo(0)]?;
        let table = Table::new(&[RowRun { row: whole, run: 1 }], heap)?;
        Ok(Book {
            classes,
            homes,
            table,
            cursor: Cursor { next: 0 },
        })
    }

    // The book of a sound plan, its listing at the start.
    fn of<P: Plan>(plan: &P, heap: Global) -> Result<Book, ShapeFault>
        ensures { MatchResult result (λ b. Opened (P.Plan.meaning plan.now) b) (λ e. Misshaped (P.Plan.meaning plan.now).graph e) }
    {
        let graph = Graph::of(plan, heap)?;
        let order = sound_order(&graph, heap)?;
        let classes = classes(&graph, heap)?;
        let logics = logics_of(plan, heap)?;
        let classed = Classed {
            links: &graph.links,
            logics: &logics,
            order: &order,
            classes: &classes,
        };
        let Arranged { rows, homes } = classed.arrange(heap)?;
        let table = Table::new(&rows, heap)?;
        Ok(Book {
            classes,
            homes,
            table,
            cursor: Cursor { next: 0 },
        })
    }

    // Puts the rows of a sound plan into the book, with no row out and the listing at its start. A refused opening leaves the book as it was.
    pub fn open<P: Plan>(&mut self, plan: &P) -> Result<(), ShapeFault>
        ensures { MatchResult result (λ _. Opened (P.Plan.meaning plan.now) self.new) (λ e. Misshaped (P.Plan.meaning plan.now).graph e × (self.new ≡ self.old)) }
    {
        let heap = *self.classes.allocator();
        *self = Book::of(plan, heap)?;
        Ok(())
    }
}
