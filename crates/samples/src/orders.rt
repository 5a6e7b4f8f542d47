// Two rounds from one step, with the links written in every order: a cap from the step to itself would part links of one class in some of them.
use crate::drawing::{Text, table_of};
use book::Book;
use model::{LinkNo, Logic};
use plan::{GatewayTable, Turned};
use std::alloc::{AllocError, Global};
use std::process::Abort;
use std::test::Fail;

// A link and a name for its class.
#[derive(Clone, Copy)]
struct Named {
    tail: u16,
    head: u16,
    class: u8,
}

const LINKS: [Named; 6] = [
    Named {
        tail: 0,
        head: 1,
        class: 0,
    },
    Named {
        tail: 1,
        head: 2,
        class: 1,
    },
    Named {
        tail: 2,
        head: 1,
        class: 1,
    },
    Named {
        tail: 1,
        head: 3,
        class: 2,
    },
    Named {
        tail: 3,
        head: 1,
        class: 2,
    },
    Named {
        tail: 1,
        head: 4,
        class: 0,
    },
];

// The order of this number: each link is taken from those left, at the place that the number's remainder tells.
fn ordered(number: usize, heap: Global) -> Result<Vec<Named>, AllocError> {
    let mut left = Vec::from_slice(heap, &LINKS)?;
    let mut rest = number;
    let mut out = Vec::new(heap);
    while !left.is_empty() {
        let count = left.len();
        out.push(left.remove(rest % count))?;
        rest /= count;
    }
    Ok(out)
}

fn table(links: &[Named], heap: Global) -> Result<GatewayTable, Fail> {
    let mut text = Text::new(0, 4, heap)?;
    for _ in 0..5 {
        text.step(Logic::One)?;
    }
    for link in links {
        text.link(link.tail, link.head)?;
    }
    table_of(&text, heap)
}

// The first link of this class.
fn first_of(links: &[Named], class: u8) -> Option<LinkNo> {
    let (number, _) = (0..)
        .map(LinkNo)
        .zip(links)
        .find(|(_, link)| link.class == class)?;
    Some(number)
}

fn check_classes(rt: &impl Abort, book: &Book, links: &[Named], order: usize) -> Result<(), Fail> {
    for (number, link) in (0..).map(LinkNo).zip(links) {
        assert_eq!(rt;
            Some(book.class(number)?),
            first_of(links, link.class),
            "in order {order}"
        );
    }
    Ok(())
}

#[test]
fn classes_in_every_order(rt: HostRuntime) -> Result<(), Fail> {
    let heap = rt.alloc();
    let mut book = Book::new(heap)?;
    for number in 0..720 {
        let links = ordered(number, heap)?;
        let table = table(&links, heap)?;
        book.open(&table)?;
        check_classes(&rt, &book, &links, number)?;
        book.open(&Turned::new(table))?;
        check_classes(&rt, &book, &links, number)?;
    }
    Ok(())
}
