// The largest plans and texts, and those that are one larger.
use crate::drawing::{Text, table_of};
use book::Book;
use listing::answer;
use model::{Kind, LinkNo, Logic, Row, RowNo};
use std::alloc::{AllocError, Global};
use std::test::Fail;

// 1,024 steps in a row and 510 loops around the middle, each within the one before, with two links or more back: 2,048 links.
fn nested(heap: Global) -> Result<Text, AllocError> {
    let mut text = Text::new(0, 1023, heap)?;
    for _ in 0..1024 {
        text.step(Logic::One)?;
    }
    for step in 0..1023u16 {
        text.link(step, step + 1)?;
    }
    for _ in 0..2 {
        for k in 1..511u16 {
            text.link(1023 - k, k)?;
        }
    }
    for _ in 0..5 {
        text.link(1022, 1)?;
    }
    Ok(text)
}

// The row of the loop of this number, which lies in the one before.
fn loop_row(k: u16) -> Row {
    Row {
        number: RowNo(k),
        parent: Some(RowNo(k.saturating_sub(1))),
        kind: Kind::Loop,
        entry: Some(LinkNo(k.saturating_sub(1))),
        exit: Some(LinkNo(1023u16.saturating_sub(k))),
        inside: 1024u16.saturating_sub(k.saturating_mul(2)),
    }
}

#[test]
fn largest_plan(rt: HostRuntime) -> Result<(), Fail> {
    let heap = rt.alloc();
    let mut text = nested(heap)?;
    let table = table_of(&text, heap)?;
    let mut book = Book::new(heap)?;
    book.open(&table)?;
    assert_eq!(rt; book.next().ok_or("no row")?.inside, 1024);
    for k in 1..511u16 {
        assert_eq!(rt; book.next().ok_or("no row")?, loop_row(k));
    }
    for entry in 510..512u16 {
        let row = book.next().ok_or("no row")?;
        assert_eq!(rt; row.parent, Some(RowNo(510)));
        assert!(rt; row.inside == 1 && row.entry == Some(LinkNo(entry)));
    }
    assert!(rt; book.next().is_none());
    text.link(0, 1)?;
    let line = answer(text.as_bytes(), heap)?;
    assert!(rt; line.as_slice() == b"refused 26 plan 3074\n".as_slice());
    Ok(())
}

#[test]
fn one_step_more(rt: HostRuntime) -> Result<(), Fail> {
    let heap = rt.alloc();
    let mut text = Text::new(0, 1, heap)?;
    for _ in 0..1025 {
        text.step(Logic::One)?;
    }
    let line = answer(text.as_bytes(), heap)?;
    assert!(rt; line.as_slice() == b"refused 25 plan 1026\n".as_slice());
    Ok(())
}

// Texts of so many bytes, all the same but for the last.
#[test]
fn longest_text(rt: HostRuntime) -> Result<(), Fail> {
    let heap = rt.alloc();
    for (count, fill, last, line) in [
        (65534, b'\n', b'\n', "refused 13 text 1\n"),
        (65535, b'\n', b'\n', "refused 11 text 0\n"),
        (65534, b'\n', b'0', "refused 12 text 65535\n"),
        (65535, b'\n', b'0', "refused 11 text 0\n"),
        (65534, b'0', b'\n', "refused 21 plan 1\n"),
        (65533, b'0', b'\n', "refused 15 text 1\n"),
    ] {
        let mut text = vec![in heap; fill; count]?;
        text.push(last)?;
        assert!(rt; answer(&text, heap)?.as_slice() == line.as_bytes());
    }
    Ok(())
}
