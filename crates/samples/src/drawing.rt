// Plans by their links, as texts, tables and books.
use book::Book;
use lines::{refusal_line, row_line};
use model::{Logic, Refusal, Row};
use plan::GatewayTable;
use std::alloc::{AllocError, Global};
use std::fmt::Write;
use std::test::Fail;

// The first step is 0 and the last the highest; the logic of each step is `one` but of those named.
#[derive(Clone, Copy)]
pub struct Drawn {
    pub links: &'static [(u16, u16)],
    pub steps: u16,
    pub all: &'static [u16],
}

// The text of a table, written frame by frame: many of these texts are of no plan, or of one too large for the reference.
#[derive(Drop)]
pub struct Text {
    lines: String,
}

impl Text {
    // The head of a table.
    pub fn new(first: u16, last: u16, heap: Global) -> Result<Text, AllocError> {
        Ok(Text {
            lines: format!(in heap; "01{first:04X}{last:04X}\n")?,
        })
    }

    pub fn step(&mut self, logic: Logic) -> Result<(), AllocError> {
        writeln!(self.lines, "10{:02X}", logic.number())
    }

    pub fn link(&mut self, tail: u16, head: u16) -> Result<(), AllocError> {
        writeln!(self.lines, "20{tail:04X}{head:04X}")
    }

    pub fn as_bytes(&self) -> &[u8] {
        self.lines.as_bytes()
    }
}

pub fn text_of(drawn: Drawn, heap: Global) -> Result<Text, AllocError> {
    let mut text = Text::new(0, drawn.steps.saturating_sub(1), heap)?;
    for step in 0..drawn.steps {
        text.step(if drawn.all.contains(&step) {
            Logic::All
        } else {
            Logic::One
        })?;
    }
    for (tail, head) in drawn.links {
        text.link(*tail, *head)?;
    }
    Ok(text)
}

// Three lines that each crate of tests has for the texts of its own; a crate for them would be longer.
pub fn table_of(text: &Text, heap: Global) -> Result<GatewayTable, Fail> {
    let mut table = GatewayTable::new(heap)?;
    table.read(text.as_bytes())?;
    Ok(table)
}

pub fn book_of(drawn: Drawn, heap: Global) -> Result<Book, Fail> {
    let text = text_of(drawn, heap)?;
    let table = table_of(&text, heap)?;
    let mut book = Book::new(heap)?;
    book.open(&table)?;
    Ok(book)
}

// Apart from the lines of `listing`, so that what the tests of the book see is the book's alone.
fn put_line(row: Row, out: &mut Vec<u8>) -> Result<(), Fail> {
    let mut buf = [0; 64];
    let end = row_line(row, &mut buf)?;
    out.extend_from_slice(&buf[..end])?;
    Ok(())
}

// The lines of the rows that are left of the round.
pub fn lines_left(book: &mut Book, heap: Global) -> Result<Vec<u8>, Fail> {
    let mut out = Vec::new(heap);
    for row in book {
        put_line(row, &mut out)?;
    }
    Ok(out)
}

pub fn refusal_bytes(refusal: Refusal, heap: Global) -> Result<Vec<u8>, Fail> {
    let mut buf = [0; 64];
    let end = refusal_line(refusal, &mut buf)?;
    Ok(Vec::from_slice(heap, &buf[..end])?)
}
