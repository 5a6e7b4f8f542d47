use model::{Ends, Layer, LinkNo, Logic, Place, Refusal, StepNo};
use plan::{GatewayTable, Graph, Plan, Turned, logics_of};
use std::alloc::{AllocError, Global};
use std::process::Abort;
use std::test::Fail;

const EXAMPLE: &str = "0100000002\n1000\n1001\n1000\n2000000001\n2000010002\n";

// The smallest table, the example, one whose first step is above the last and whose link has equal ends.
const TABLES: [&str; 3] = [
    "0100000001\n1000\n1000\n2000000001\n",
    EXAMPLE,
    "0100010000\n1001\n1000\n2000000000\n",
];

// Texts that are turned away, and the number, the layer and the place that are told.
const FAULTY: [(&str, u16, Layer, Place); 37] = [
    // The text's own faults, carried whole.
    ("01", 12, Layer::Text, Place::At(1)),
    ("0100000001\n1000\n10", 12, Layer::Text, Place::At(3)),
    ("0100000001\n\n", 13, Layer::Text, Place::At(2)),
    (
        "0100000001\n100x\n",
        14,
        Layer::Text,
        Place::Column { line: 2, column: 4 },
    ),
    ("0100000001\n100\n", 15, Layer::Text, Place::At(2)),
    // A kind that is not allowed: before the head, a second head, a step among links, an unknown one.
    ("1000\n", 21, Layer::Plan, Place::At(1)),
    ("2000000001\n", 21, Layer::Plan, Place::At(1)),
    ("0100000001\n0100000001\n", 21, Layer::Plan, Place::At(2)),
    (
        "0100000001\n1000\n1000\n2000000001\n1000\n",
        21,
        Layer::Plan,
        Place::At(5),
    ),
    (
        "0100000001\n1000\n1000\n2000000001\n0100000001\n",
        21,
        Layer::Plan,
        Place::At(5),
    ),
    ("0100000001\n1100\n", 21, Layer::Plan, Place::At(2)),
    // A length that is wrong, too short and too long.
    ("01000000\n", 22, Layer::Plan, Place::At(1)),
    ("010000000100\n", 22, Layer::Plan, Place::At(1)),
    ("0100000001\n10\n", 22, Layer::Plan, Place::At(2)),
    ("0100000001\n100000\n", 22, Layer::Plan, Place::At(2)),
    (
        "0100000001\n1000\n1000\n20000000\n",
        22,
        Layer::Plan,
        Place::At(4),
    ),
    // A logic that is none.
    ("0100000001\n1002\n", 23, Layer::Plan, Place::At(2)),
    // A link that names no step: its tail, its head, a link right after the head.
    (
        "0100000001\n1000\n1000\n2000020001\n",
        27,
        Layer::Plan,
        Place::At(4),
    ),
    (
        "0100000001\n1000\n1000\n2000000002\n",
        27,
        Layer::Plan,
        Place::At(4),
    ),
    ("0100000001\n2000000001\n", 27, Layer::Plan, Place::At(2)),
    // Not all there: no head, one step, no link.
    ("", 28, Layer::Plan, Place::At(0)),
    ("0100000001\n", 28, Layer::Plan, Place::At(1)),
    (
        "0100000001\n1000\n2000000000\n",
        28,
        Layer::Plan,
        Place::At(3),
    ),
    ("0100000001\n1000\n1000\n", 28, Layer::Plan, Place::At(3)),
    // First or last no step, or equal.
    (
        "0100020001\n1000\n1000\n2000000001\n",
        29,
        Layer::Plan,
        Place::At(1),
    ),
    (
        "0100000002\n1000\n1000\n2000000001\n",
        29,
        Layer::Plan,
        Place::At(1),
    ),
    (
        "0101000100\n1000\n1000\n2000000001\n",
        29,
        Layer::Plan,
        Place::At(1),
    ),
    (
        "0100010001\n1000\n1000\n2000000001\n",
        29,
        Layer::Plan,
        Place::At(1),
    ),
    // Two faults in one line: the smaller number.
    ("0100000001\n1100FF\n", 21, Layer::Plan, Place::At(2)),
    ("0100000001\n100200\n", 22, Layer::Plan, Place::At(2)),
    (
        "0100000001\n1X0\n",
        14,
        Layer::Text,
        Place::Column { line: 2, column: 2 },
    ),
    // Two faulty lines: the earlier, of either layer, but for the last line feed.
    ("0100000001\n1002\n1100\n", 23, Layer::Plan, Place::At(2)),
    ("0100000001\n1002\n1\n", 23, Layer::Plan, Place::At(2)),
    ("0100000001\n1\n1002\n", 15, Layer::Text, Place::At(2)),
    ("1000\n\n20", 12, Layer::Text, Place::At(3)),
    // A faulty line before what is wrong with the whole table.
    ("0100010001\n1000\n1003\n", 23, Layer::Plan, Place::At(3)),
    ("0100010001\n1000\n", 28, Layer::Plan, Place::At(2)),
];

// What is told of a text; none where it is a table.
fn told(text: &[u8], heap: Global) -> Result<Option<Refusal>, Fail> {
    let mut table = GatewayTable::new(heap)?;
    let Err(fault) = table.read(text) else {
        return Ok(None);
    };
    Ok(Some(fault.refusal().ok_or("no memory")?))
}

fn refusal(number: u16, layer: Layer, place: Place) -> Option<Refusal> {
    Some(Refusal {
        number,
        layer,
        place,
    })
}

#[test]
fn texts_are_told_by_their_first_fault(rt: HostRuntime) -> Result<(), Fail> {
    for text in TABLES {
        assert_eq!(rt; told(text.as_bytes(), rt.alloc())?, None, "{text}");
    }
    for (text, number, layer, place) in FAULTY {
        let want = refusal(number, layer, place);
        assert_eq!(rt; told(text.as_bytes(), rt.alloc())?, want, "{text}");
    }
    Ok(())
}

// A text with so many steps and links.
fn text_of(steps: usize, links: usize, heap: Global) -> Result<Vec<u8>, AllocError> {
    let steps = "1000\n".repeat(heap, steps)?;
    let links = "2000000001\n".repeat(heap, links)?;
    Ok(format!(in heap; "0100000001\n{steps}{links}")?.into_bytes())
}

#[test]
fn counts_have_their_edges(rt: HostRuntime) -> Result<(), Fail> {
    let heap = rt.alloc();
    let counts = [
        (1024, 2048, None),
        (1025, 1, refusal(25, Layer::Plan, Place::At(1026))),
        (2, 2049, refusal(26, Layer::Plan, Place::At(2052))),
    ];
    for (steps, links, want) in counts {
        assert_eq!(rt; told(&text_of(steps, links, heap)?, heap)?, want);
    }
    let long = vec![in heap; b'\n'; 65536]?;
    assert_eq!(rt; told(&long, heap)?, refusal(11, Layer::Text, Place::At(0)));
    Ok(())
}

fn ends(tail: u16, head: u16) -> Ends {
    Ends {
        tail: StepNo(tail),
        head: StepNo(head),
    }
}

// The example's table: three steps in a row, the second `all`.
fn check_example(rt: &impl Abort, table: &GatewayTable) {
    assert_eq!(rt; (table.step_count(), table.link_count()), (3, 2));
    assert_eq!(rt; (table.first(), table.last()), (StepNo(0), StepNo(2)));
    assert_eq!(rt; table.logic(StepNo(1)), Some(Logic::All));
    assert_eq!(rt; table.ends(LinkNo(1)), Some(ends(1, 2)));
    assert_eq!(rt; table.ends(LinkNo(2)), None);
}

#[test]
fn refused_readings_change_nothing(rt: HostRuntime) -> Result<(), Fail> {
    let mut table = GatewayTable::new(rt.alloc())?;
    table.read(EXAMPLE.as_bytes())?;
    check_example(&rt, &table);
    for (text, ..) in FAULTY {
        assert!(rt; table.read(text.as_bytes()).is_err());
        check_example(&rt, &table);
    }
    Ok(())
}

#[test]
fn copies_are_of_every_make(rt: HostRuntime) -> Result<(), Fail> {
    let heap = rt.alloc();
    let mut table = GatewayTable::new(heap)?;
    table.read(EXAMPLE.as_bytes())?;
    let graph = Graph::of(&table, heap)?;
    assert_eq!(rt;
        (graph.steps, graph.first, graph.last),
        (3, StepNo(0), StepNo(2))
    );
    assert_eq!(rt; graph.links.as_slice(), [ends(0, 1), ends(1, 2)].as_slice());
    let turned = Turned::new(table);
    let back = Graph::of(&turned, heap)?;
    assert_eq!(rt;
        (back.steps, back.first, back.last),
        (3, StepNo(2), StepNo(0))
    );
    assert_eq!(rt; back.links.as_slice(), [ends(1, 0), ends(2, 1)].as_slice());
    let logics = logics_of(&turned, heap)?;
    assert_eq!(rt;
        logics.as_slice(),
        [Logic::One, Logic::All, Logic::One].as_slice()
    );
    Ok(())
}
