// Every refusal of a text and of a plan, by its line.
use crate::drawing::Text;
use listing::answer;
use model::Logic;
use std::alloc::Global;
use std::test::Fail;

// Texts, and the lines that they are answered by.
const CASES: [(&str, &str); 39] = [
    ("0100000001\n1000\n1000\n2000000001", "refused 12 text 4\n"),
    ("0", "refused 12 text 1\n"),
    ("\n\n0", "refused 12 text 3\n"),
    ("0100000001\n\n1000\n", "refused 13 text 2\n"),
    ("\n", "refused 13 text 1\n"),
    ("0100000001\n1g00\n", "refused 14 text 2 2\n"),
    ("010000000a\n", "refused 14 text 1 10\n"),
    ("0100000001\r\n", "refused 14 text 1 11\n"),
    ("01 0000 0001\n", "refused 14 text 1 3\n"),
    ("0100000001\n100\n", "refused 15 text 2\n"),
    ("1000\n", "refused 21 plan 1\n"),
    ("0100000001\n0100000001\n", "refused 21 plan 2\n"),
    (
        "0100000001\n1000\n1000\n2000000001\n1000\n",
        "refused 21 plan 5\n",
    ),
    ("0100000001\n3000\n", "refused 21 plan 2\n"),
    ("010000000100\n", "refused 22 plan 1\n"),
    ("0100000001\n10\n", "refused 22 plan 2\n"),
    ("0100000001\n1000\n1000\n20000001\n", "refused 22 plan 4\n"),
    ("0100000001\n1002\n", "refused 23 plan 2\n"),
    (
        "0100000001\n1000\n1000\n2000020000\n",
        "refused 27 plan 4\n",
    ),
    (
        "0100000001\n1000\n1000\n2000000002\n",
        "refused 27 plan 4\n",
    ),
    ("", "refused 28 plan 0\n"),
    ("0100000001\n", "refused 28 plan 1\n"),
    ("0100000001\n1000\n2000000000\n", "refused 28 plan 3\n"),
    ("0100000001\n1000\n1000\n", "refused 28 plan 3\n"),
    (
        "0100020001\n1000\n1000\n2000000001\n",
        "refused 29 plan 1\n",
    ),
    (
        "0100000002\n1000\n1000\n2000000001\n",
        "refused 29 plan 1\n",
    ),
    (
        "0100010001\n1000\n1000\n2000000001\n",
        "refused 29 plan 1\n",
    ),
    // Two faults in one line.
    ("0100000001\n1x0\n", "refused 14 text 2 2\n"),
    ("0100000001\nXY\n", "refused 14 text 2 1\n"),
    ("0100000001\n30\n", "refused 21 plan 2\n"),
    ("0100000001\n100200\n", "refused 22 plan 2\n"),
    // Two faulty lines, of one layer and of two.
    ("0100000001\n1002\n3000\n", "refused 23 plan 2\n"),
    ("0100000001\n\nx\n", "refused 13 text 2\n"),
    ("0100000001\n1002\n\n", "refused 23 plan 2\n"),
    ("0100000001\n1\n1002\n", "refused 15 text 2\n"),
    // A faulty line before what is missing, and what is missing before first and last.
    ("0100010001\n1000\n1002\n", "refused 23 plan 3\n"),
    ("0100010001\n1000\n", "refused 28 plan 2\n"),
    ("\nx\n2", "refused 12 text 3\n"),
    // A table that is not turned away.
    (
        "0100000002\n1000\n1000\n1000\n2000000001\n2000010002\n",
        "0 - whole - - 3\n1 0 single 0 1 1\n",
    ),
];

#[test]
fn texts(rt: HostRuntime) -> Result<(), Fail> {
    for (text, line) in CASES.iter() {
        let told = answer(text.as_bytes(), rt.alloc())?;
        assert!(rt; told.as_slice() == line.as_bytes(), "{text}");
    }
    Ok(())
}

// A plan, and the line that it is answered by.
struct Shape {
    steps: u16,
    first: u16,
    last: u16,
    links: &'static [(u16, u16)],
    line: &'static str,
}

const SHAPES: [Shape; 12] = [
    Shape {
        steps: 2,
        first: 0,
        last: 1,
        links: &[(0, 1), (1, 0)],
        line: "refused 42 shape 1\n",
    },
    Shape {
        steps: 2,
        first: 0,
        last: 1,
        links: &[(0, 1), (0, 0), (1, 0)],
        line: "refused 42 shape 1\n",
    },
    Shape {
        steps: 2,
        first: 1,
        last: 0,
        links: &[(1, 0), (0, 1)],
        line: "refused 42 shape 1\n",
    },
    Shape {
        steps: 3,
        first: 0,
        last: 2,
        links: &[(0, 1), (2, 1), (1, 2)],
        line: "refused 43 shape 1\n",
    },
    Shape {
        steps: 3,
        first: 0,
        last: 2,
        links: &[(0, 1), (1, 2), (2, 2), (2, 1)],
        line: "refused 43 shape 2\n",
    },
    Shape {
        steps: 4,
        first: 0,
        last: 3,
        links: &[(0, 3), (1, 2), (2, 3)],
        line: "refused 44 shape 1\n",
    },
    Shape {
        steps: 4,
        first: 0,
        last: 3,
        links: &[(2, 3), (1, 3)],
        line: "refused 44 shape 1\n",
    },
    Shape {
        steps: 2,
        first: 0,
        last: 1,
        links: &[(0, 1)],
        line: "0 - whole - - 2\n",
    },
    Shape {
        steps: 4,
        first: 0,
        last: 3,
        links: &[(0, 3), (0, 2), (0, 1), (1, 2)],
        line: "refused 45 shape 1\n",
    },
    Shape {
        steps: 4,
        first: 0,
        last: 3,
        links: &[(0, 1), (1, 2), (2, 1), (0, 3)],
        line: "refused 45 shape 1\n",
    },
    // What comes first where several are wrong.
    Shape {
        steps: 4,
        first: 0,
        last: 3,
        links: &[(3, 0), (1, 2)],
        line: "refused 42 shape 0\n",
    },
    Shape {
        steps: 4,
        first: 0,
        last: 3,
        links: &[(0, 1), (3, 2)],
        line: "refused 43 shape 1\n",
    },
];

fn shaped(shape: &Shape, heap: Global) -> Result<Vec<u8>, Fail> {
    let mut text = Text::new(shape.first, shape.last, heap)?;
    for _ in 0..shape.steps {
        text.step(Logic::One)?;
    }
    for (tail, head) in shape.links {
        text.link(*tail, *head)?;
    }
    Ok(answer(text.as_bytes(), heap)?)
}

#[test]
fn shapes(rt: HostRuntime) -> Result<(), Fail> {
    for (number, shape) in SHAPES.iter().enumerate() {
        let told = shaped(shape, rt.alloc())?;
        assert!(rt; told.as_slice() == shape.line.as_bytes(), "{number}");
    }
    Ok(())
}
