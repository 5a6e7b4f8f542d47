// What the calls of a book answer, and what they leave as it was.
use crate::drawing::{Drawn, book_of, lines_left, refusal_bytes, table_of, text_of};
use crate::plans::{FORK, RING};
use book::Book;
use lines::{refusal_line, row_line};
use model::{Layer, LinkNo, Place, Refusal, RowNo, StepNo};
use std::alloc::Global;
use std::process::Abort;
use std::test::Fail;

const DEAD_END: Drawn = Drawn {
    links: &[(0, 1), (0, 2)],
    steps: 3,
    all: &[],
};

#[test]
fn new_book(rt: HostRuntime) -> Result<(), Fail> {
    let heap = rt.alloc();
    let mut book = Book::new(heap)?;
    assert_eq!(rt; book.class(LinkNo(0))?, LinkNo(0));
    assert_eq!(rt; book.find(StepNo(1))?, RowNo(0));
    let lines = lines_left(&mut book, heap)?;
    assert!(rt; lines.as_slice() == b"0 - whole - - 2\n".as_slice());
    Ok(())
}

// The book of the fork with two rows shown: whatever happens, the third comes next.
fn check_third(rt: &impl Abort, book: &mut Book, heap: Global) -> Result<(), Fail> {
    assert_eq!(rt; book.class(LinkNo(4))?, LinkNo(3));
    assert_eq!(rt; book.find(StepNo(3))?, RowNo(3));
    let lines = lines_left(book, heap)?;
    assert!(rt; lines.as_slice() == b"2 1 single 1 2 1\n3 1 single 3 4 1\n".as_slice());
    book.restart();
    assert!(rt; book.next().is_some() && book.next().is_some());
    Ok(())
}

#[test]
fn refused_opening(rt: HostRuntime) -> Result<(), Fail> {
    let heap = rt.alloc();
    let mut book = book_of(FORK, heap)?;
    assert!(rt; book.next().is_some() && book.next().is_some());
    let mut table = table_of(&text_of(DEAD_END, heap)?, heap)?;
    let fault = book.open(&table).err().ok_or("opened")?;
    let line = refusal_bytes(fault.refusal().ok_or("no memory")?, heap)?;
    assert!(rt; line.as_slice() == b"refused 45 shape 1\n".as_slice());
    check_third(&rt, &mut book, heap)?;
    // The book does not ask its plan again.
    book.open(&table_of(&text_of(FORK, heap)?, heap)?)?;
    assert!(rt; book.next().is_some() && book.next().is_some());
    table.read(text_of(RING, heap)?.as_bytes())?;
    check_third(&rt, &mut book, heap)?;
    book.open(&table)?;
    assert_eq!(rt; book.find(StepNo(3))?, RowNo(1));
    Ok(())
}

fn no_such(number: u16, place: u16) -> Refusal {
    Refusal {
        number,
        layer: Layer::Book,
        place: Place::At(place),
    }
}

#[test]
fn no_step_and_no_link(rt: HostRuntime) -> Result<(), Fail> {
    let heap = rt.alloc();
    let mut book = book_of(FORK, heap)?;
    assert!(rt; book.next().is_some() && book.next().is_some());
    for number in [6, 7, 1024, 65535] {
        let fault = book.find(StepNo(number)).err().ok_or("found")?;
        assert_eq!(rt; fault.refusal(), no_such(64, number));
        let fault = book.class(LinkNo(number)).err().ok_or("has a class")?;
        assert_eq!(rt; fault.refusal(), no_such(66, number));
        check_third(&rt, &mut book, heap)?;
    }
    Ok(())
}

// Whether every byte is as it was.
fn untouched(bytes: &[u8]) -> bool {
    bytes.iter().all(|b| *b == 7)
}

#[test]
fn buffers(rt: HostRuntime) -> Result<(), Fail> {
    let mut book = book_of(FORK, rt.alloc())?;
    let row = book.next().ok_or("no row")?;
    let refusal = no_such(64, 6);
    let mut short = [7; 63];
    let fault = row_line(row, &mut short).err().ok_or("a row's line")?;
    assert_eq!(rt; fault.refusal(), no_such(65, 64));
    assert!(rt; refusal_line(refusal, &mut short).is_err() && untouched(&short));
    let mut long = [7; 64];
    assert_eq!(rt; row_line(row, &mut long)?, 16);
    assert!(rt; &long[0..16] == b"0 - whole - - 6\n".as_slice() && untouched(&long[16..64]));
    let mut longer = [7; 80];
    assert_eq!(rt; refusal_line(refusal, &mut longer)?, 18);
    assert!(rt; &longer[0..18] == b"refused 64 book 6\n".as_slice() && untouched(&longer[18..80]));
    Ok(())
}
