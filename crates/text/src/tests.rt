use crate::{TextFault, decode};
use std::alloc::Global;
use std::test::Fail;

// How many frames come out, and what ends them.
fn told(text: &[u8], heap: Global) -> (usize, Option<TextFault>) {
    match decode(text, heap) {
        Ok(out) => (out.frames.len(), out.end.err()),
        Err(fault) => (0, Some(fault)),
    }
}

#[test]
fn frames_have_kind_fields_and_line(rt: HostRuntime) -> Result<(), Fail> {
    let out = decode(b"1001\n20000A00FF\n", rt.alloc())?;
    assert!(rt; out.frames.len() == 2);
    let link = &out.frames[1];
    assert_eq!(rt; (link.line, link.kind), (2, 32));
    assert_eq!(rt; link.fields.as_slice(), [0, 10, 0, 255].as_slice());
    Ok(())
}

#[test]
fn faults_have_their_order(rt: HostRuntime) {
    let heap = rt.alloc();
    assert_eq!(rt; told(b"", heap), (0, None));
    assert_eq!(rt;
        told(b"10\n1x\n\n20", heap),
        (0, Some(TextFault::NoLineFeed { line: 4 }))
    );
    assert_eq!(rt;
        told(b"10\n\n1x\n", heap),
        (1, Some(TextFault::EmptyLine { line: 2 }))
    );
    assert_eq!(rt;
        told(b"10\n20\n1ff\n", heap),
        (2, Some(TextFault::NoDigit { line: 3, column: 2 }))
    );
    assert_eq!(rt;
        told(b"100\n", heap),
        (0, Some(TextFault::OddDigits { line: 1 }))
    );
}

#[test]
fn length_has_its_edge(rt: HostRuntime) -> Result<(), Fail> {
    let heap = rt.alloc();
    let most = vec![in heap; 10; 65535]?;
    assert_eq!(rt;
        told(&most, heap),
        (0, Some(TextFault::EmptyLine { line: 1 }))
    );
    let over = vec![in heap; 10; 65536]?;
    assert_eq!(rt; told(&over, heap), (0, Some(TextFault::TooLong)));
    Ok(())
}
