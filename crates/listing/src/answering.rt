// The answer to a text: the lines of all rows of its plan, or the line of its refusal.
ghost use Rattle.std.specs.Prelude.{◌≡◌, ◌++◌, drop, IfOk, MatchResult, OnOk, Some};
ghost use Rattle.book.specs.Calls.{rows_of, next_of};
ghost use Rattle.lines.specs.Lines.{refusal_bytes, Lined};
ghost use Rattle.model.specs.declared.refusals.Refusal.{Refusal};
ghost use Rattle.listing.specs.Answers.{lines_of, Listed, Unlisted, Answers};
ghost use Rattle.listing.specs.Faults.{browser_refusal};
ghost use Rattle.listing.specs.Written.{line_bytes};

use crate::faults::BrowserFault;
use book::Book;
use lines::{ShortBuffer, refusal_line, row_line};
use lists::NoMemory;
use model::{Refusal, Row};
use plan::GatewayTable;
use std::alloc::Global;

// A line of the answer.
#[derive(Clone, Copy)]
enum Line {
    Row(Row),
    Refusal(Refusal),
}

impl Line {
    fn write(self, buf: &mut [u8]) -> Result<usize, ShortBuffer>
        ensures { Lined (line_bytes self) buf.old result buf.new }
    {
        match self {
            Line::Row(row) => row_line(row, buf),
            Line::Refusal(refusal) => refusal_line(refusal, buf),
        }
    }
}

// Adds a line. A buffer of 64 bytes is long enough for every line.
fn add_line(lines: &mut Vec<u8>, line: Line) -> Result<(), NoMemory>
    ensures { OnOk result (lines.new.items ≡ lines.old.items ++ line_bytes line) }
{
    let mut buf = [0u8; 64];
    let len = line.write(&mut buf).unwrap();
    lines.extend_from_slice(&buf[..len])?;
    Ok(())
}

// The lines of all rows of the book, from the place of its listing on.
fn all_rows(book: &mut Book, heap: Global) -> Result<Vec<u8>, NoMemory>
    ensures { IfOk result (λ v. v.items ≡ lines_of (drop (next_of book.old) (rows_of book.old))) }
{
    let mut lines = Vec::new(heap);
    for row in book {
        add_line(&mut lines, Line::Row(row))?;
    }
    Ok(lines)
}

// Reads the table that the text tells, opens a book over it, and lists its rows.
fn listed(text: &[u8], heap: Global) -> Result<Vec<u8>, BrowserFault>
    ensures { MatchResult result (λ v. Listed text.now v.items) (λ e. Unlisted text.now e) }
{
    let mut table = GatewayTable::new(heap)?;
    table.read(text)?;
    let mut book = Book::new(heap)?;
    book.open(&table)?;
    Ok(all_rows(&mut book, heap)?)
}

// The refusal line that a fault is told by. Want of memory has none.
fn told_off(fault: BrowserFault, heap: Global) -> Result<Vec<u8>, NoMemory>
    ensures { IfOk result (λ v. (r : Refusal) × (browser_refusal fault ≡ Some r) × (v.items ≡ refusal_bytes r)) }
{
    let refusal = fault.refusal().ok_or(NoMemory)?;
    let mut lines = Vec::new(heap);
    add_line(&mut lines, Line::Refusal(refusal))?;
    Ok(lines)
}

// The lines of all rows, or one refusal line. Only want of memory leaves no answer.
pub fn answer(text: &[u8], heap: Global) -> Result<Vec<u8>, NoMemory>
    ensures { IfOk result (λ v. Answers text.now v.items) }
{
    listed(text, heap).or_else(|fault| told_off(fault, heap))
}
