use brackets::Spanning;
use model::{Ends, LinkNo, StepNo};
use plan::{GatewayTable, Turned};
use search::{Digraph, Graph, ShapeFault, Visit, depth_first, sound_order};
use std::alloc::Global;
use std::test::Fail;

// 0→1, 1→2, 2→4, 1→3, 3→4, 4→5
const CHOICE: &str =
    "0100000005\n1000\n1000\n1000\n1000\n1000\n1000\n2000000001\n2000010002\n2000020004\n2000010003\n2000030004\n2000040005\n";

// 0→1, 1→2, 2→3, 3→4, 4→1, 3→5
const LOOP: &str =
    "0100000005\n1000\n1000\n1000\n1000\n1000\n1000\n2000000001\n2000010002\n2000020003\n2000030004\n2000040001\n2000030005\n";

// Plans that are not sound, each with the first fault in the order of the checks.
const FAULTY: [(&str, ShapeFault); 6] = [
    // 0→1, 1→0: the second link enters the first step, and leaves the last
    (
        "0100000001\n1000\n1000\n2000000001\n2000010000\n",
        ShapeFault::EntersFirst(LinkNo(1)),
    ),
    // 0→1, 1→1
    (
        "0100000001\n1000\n1000\n2000000001\n2000010001\n",
        ShapeFault::LeavesLast(LinkNo(1)),
    ),
    // 0→2, 1→2
    (
        "0100000002\n1000\n1000\n1000\n2000000002\n2000010002\n",
        ShapeFault::NotReached(StepNo(1)),
    ),
    // 0→3, 1→2, 2→1: neither reached nor with a way out
    (
        "0100000003\n1000\n1000\n1000\n1000\n2000000003\n2000010002\n2000020001\n",
        ShapeFault::NotReached(StepNo(1)),
    ),
    // 0→1, 0→2
    (
        "0100000002\n1000\n1000\n1000\n2000000001\n2000000002\n",
        ShapeFault::NoWayOut(StepNo(1)),
    ),
    // 0→1, 1→1, 0→2
    (
        "0100000002\n1000\n1000\n1000\n2000000001\n2000010001\n2000000002\n",
        ShapeFault::NoWayOut(StepNo(1)),
    ),
];

// Three lines that each crate of tests has for the texts of its own; a crate for them would be longer.
fn table_of(heap: Global, text: &str) -> Result<GatewayTable, Fail> {
    let mut table = GatewayTable::new(heap)?;
    table.read(text.as_bytes())?;
    Ok(table)
}

#[test]
fn orders_of_sound_plans(rt: HostRuntime) -> Result<(), Fail> {
    let heap = rt.alloc();
    let choice = Graph::of(&table_of(heap, CHOICE)?, heap)?;
    let order = sound_order(&choice, heap)?;
    assert_eq!(rt; order.as_slice(), [0, 3, 1, 4, 2, 5].map(LinkNo).as_slice());
    let around = Graph::of(&table_of(heap, LOOP)?, heap)?;
    let order = sound_order(&around, heap)?;
    assert_eq!(rt; order.as_slice(), [0, 1, 2, 5, 3, 4].map(LinkNo).as_slice());
    let back = Graph::of(&Turned::new(table_of(heap, LOOP)?), heap)?;
    let order = sound_order(&back, heap)?;
    assert_eq!(rt; order.as_slice(), [5, 2, 1, 4, 0, 3].map(LinkNo).as_slice());
    Ok(())
}

#[test]
fn faults_of_unsound_plans(rt: HostRuntime) -> Result<(), Fail> {
    let heap = rt.alloc();
    for (text, fault) in FAULTY {
        let graph = Graph::of(&table_of(heap, text)?, heap)?;
        assert_eq!(rt; sound_order(&graph, heap).err(), Some(fault));
    }
    Ok(())
}

// 0→2, 1→2: step 1 is not reached, and the link that leaves it is not in the order.
#[test]
fn orders_stop_where_no_link_leads(rt: HostRuntime) -> Result<(), Fail> {
    let heap = rt.alloc();
    let table = table_of(
        heap,
        "0100000002\n1000\n1000\n1000\n2000000002\n2000010002\n",
    )?;
    let graph = Graph::of(&table, heap)?;
    let digraph = Digraph {
        links: &graph.links,
        steps: graph.steps as usize,
    };
    let order = digraph.order_from(StepNo(0), heap)?;
    assert_eq!(rt; order.links.as_slice(), [LinkNo(0)].as_slice());
    assert_eq!(rt; order.reached.as_slice(), [true, false, true].as_slice());
    Ok(())
}

#[test]
fn trees_have_every_step(rt: HostRuntime) -> Result<(), Fail> {
    let heap = rt.alloc();
    let graph = Graph::of(&table_of(heap, CHOICE)?, heap)?;
    let tree = depth_first(&graph, heap)?;
    let expected = [
        (0, 0, 0),
        (5, 0, 6),
        (4, 1, 5),
        (3, 2, 4),
        (1, 3, 3),
        (2, 4, 1),
    ];
    let expected = expected.map(|(step, parent, link)| Visit {
        step: StepNo(step),
        parent,
        link: LinkNo(link),
    });
    assert_eq!(rt; tree.visits.as_slice(), expected.as_slice());
    Ok(())
}

// The tree that the method of classes takes, beside the plan's links with the return link behind them.
#[test]
fn spannings_have_the_return_link(rt: HostRuntime) -> Result<(), Fail> {
    let heap = rt.alloc();
    let graph = Graph::of(&table_of(heap, LOOP)?, heap)?;
    let search = Spanning::of(&graph, heap)?;
    let links = [(0, 1), (1, 2), (2, 3), (3, 4), (4, 1), (3, 5), (5, 0)];
    let links = links.map(|(tail, head)| Ends {
        tail: StepNo(tail),
        head: StepNo(head),
    });
    assert_eq!(rt; search.links.as_slice(), links.as_slice());
    let tree = depth_first(&graph, heap)?;
    assert_eq!(rt; search.tree.visits.as_slice(), tree.visits.as_slice());
    Ok(())
}
