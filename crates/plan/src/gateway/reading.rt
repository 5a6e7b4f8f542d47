// Reading a text into a table.
ghost use Rattle.std.specs.Prelude.{◌≡◌, ◌≤◌, ◌⊎◌, map, length, MatchResult};
ghost use Rattle.text.specs.Decoded.{Numbered, bytes_of};
ghost use Rattle.text.specs.Spelling.{Spells};
ghost use Rattle.plan.specs.Checks.{written};
ghost use Rattle.plan.specs.Drafts.{told_by};
ghost use Rattle.plan.specs.Reading.{Stray, Refused, Reading, GivesBack};
ghost use Rattle.plan.specs.Table.{meaning_of};
ghost use Rattle.plan.specs.Writing.{frames_of};
ghost use Rattle.plan.specs.declared.faults.PlanFault.TheVariants.{Memory};

use crate::faults::PlanFault;
use crate::gateway::GatewayTable;
use crate::gateway::drafts::Draft;
use std::alloc::Global;
use text::{Frame, decode};

// The line of the last frame, 0 if there is none.
fn last_line(frames: &[Frame]) -> u16
    requires { Numbered frames.now }
    ensures { result ≡ length frames.now }
{
    frames.last().map_or(0, |frame| frame.line)
}

// What all the frames tell.
fn draft_of(frames: &[Frame], heap: Global) -> Result<Draft, PlanFault>
    requires { Numbered frames.now }
    ensures { MatchResult result (λ d. written (told_by d) ≡ map bytes_of frames.now) (λ e. Stray (map bytes_of frames.now) e ⊎ (e ≡ Memory)) }
{
    let mut draft = Draft::new(heap);
    for frame in frames {
        draft = draft.take(frame)?;
    }
    Ok(draft)
}

// The table that the text tells.
fn table_of(text: &[u8], heap: Global) -> Result<GatewayTable, PlanFault>
    ensures { MatchResult result (λ t. (length text.now ≤ 65535) × Spells text.now (frames_of (meaning_of t))) (λ e. Refused text.now e) }
{
    let out = decode(text, heap)?;
    let draft = draft_of(&out.frames, heap)?;
    out.end?;
    draft.finish(last_line(&out.frames))
}

impl GatewayTable {
    // Makes the table the one that the text tells; a text that is turned away leaves it as it was.
    pub fn read(&mut self, text: &[u8]) -> Result<(), PlanFault>
        ensures reads { Reading text.now (meaning_of self.old) result (meaning_of self.new) }
        ensures gives_back { GivesBack text.now result (meaning_of self.new) }
    {
        let table = table_of(text, *self.graph.links.allocator())?;
        *self = table;
        Ok(())
    }
}
