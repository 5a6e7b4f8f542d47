// A whole text: its lines one after the other, up to the first faulty one.
ghost use Rattle.std.specs.Prelude.{◌≡◌, ◌≤◌, length, MatchResult};
ghost use Rattle.text.specs.Decoded.{line_feeds, Ended, WholeFault, Decoded};

use crate::faults::TextFault;
use crate::lines::{Frame, check_line, frame_of};
use std::alloc::Global;

const LINE_FEED: u8 = 10;

// The most bytes that a text may have.
const MOST: usize = 65535;

// The frames of the lines before the first faulty one, and that line's fault if there is one.
#[derive(Debug, Drop)]
pub struct Frames {
    pub frames: Vec<Frame>,
    pub end: Result<(), TextFault>,
}

fn count_line_feeds(text: &[u8]) -> usize
    ensures { result ≡ line_feeds text.now }
{
    text.iter().filter(|b| **b == LINE_FEED).count()
}

// Whether the text is short enough, and ended by a line feed.
fn check_whole(text: &[u8]) -> Result<(), TextFault>
    ensures { MatchResult result (λ _. (length text.now ≤ 65535) × Ended text.now) (λ e. WholeFault text.now e) }
{
    if text.len() > MOST {
        return Err(TextFault::TooLong);
    }
    if text.last().is_some_and(|b| *b != LINE_FEED) {
        let line = (count_line_feeds(text) + 1) as u16;
        return Err(TextFault::NoLineFeed { line });
    }
    Ok(())
}

// A fault of the whole text is the error; a fault of a line stands at the end of the frames before it.
pub fn decode(text: &[u8], heap: Global) -> Result<Frames, TextFault>
    ensures { Decoded text.now result }
{
    check_whole(text)?;
    let mut frames = Vec::new(heap);
    for (k, ended) in text.split_inclusive(|b| *b == LINE_FEED).enumerate() {
        let line = (k + 1) as u16;
        // A piece ends in its line feed, the last one too, since the text does.
        let bytes = &ended[..ended.len() - 1];
        if let Err(fault) = check_line(bytes, line) {
            let end = Err(fault);
            return Ok(Frames { frames, end });
        }
        frames.push(frame_of(bytes, line, heap)?)?;
    }
    let end = Ok(());
    Ok(Frames { frames, end })
}
