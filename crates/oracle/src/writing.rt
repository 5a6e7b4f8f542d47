// The text of a plan.
use reference::Sketch;
use std::alloc::{AllocError, Global};
use std::fmt::Write;

// The head, then a line for each step, then one for each link.
pub fn written(sketch: &Sketch, heap: Global) -> Result<String, AllocError> {
    let mut text = String::new(heap);
    writeln!(text, "01{:04X}{:04X}", sketch.first.0, sketch.last.0)?;
    for logic in sketch.logics.iter() {
        writeln!(text, "10{:02X}", logic.number())?;
    }
    for ends in sketch.links.iter() {
        writeln!(text, "20{:04X}{:04X}", ends.tail.0, ends.head.0)?;
    }
    Ok(text)
}
