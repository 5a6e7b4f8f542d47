// What one frame tells, by its kind and its fields.
ghost use Rattle.std.specs.Prelude.{◌≡◌};
ghost use Rattle.plan.specs.Frames.{NamesKind, TwoSteps, StepLogic};

use crate::faults::PlanFault;
use model::{Logic, StepNo};
use text::Frame;

#[derive(Clone, Copy)]
pub(crate) enum FrameKind {
    Head,
    Step,
    Link,
}

// A byte that names no kind of frame.
#[derive(Clone, Copy)]
pub(crate) struct NotAKind(pub(crate) u8);

impl TryFrom<u8> for FrameKind {
    type Error = NotAKind;

    ghost try_from_gives = { NamesKind };

    fn try_from(byte: u8) -> Result<FrameKind, NotAKind> {
        match byte {
            0x01 => Ok(FrameKind::Head),
            0x10 => Ok(FrameKind::Step),
            0x20 => Ok(FrameKind::Link),
            _ => Err(NotAKind(byte)),
        }
    }
}

// The two steps that a head or a link names, the high byte of each first.
pub(crate) fn two_steps(frame: &Frame) -> Result<(StepNo, StepNo), PlanFault>
    ensures { TwoSteps frame.now result }
{
    let line = frame.line;
    let &[a, b, c, d] = frame.fields.as_slice() else {
        return Err(PlanFault::WrongLength { line });
    };
    let one = StepNo(u16::from_be_bytes([a, b]));
    let other = StepNo(u16::from_be_bytes([c, d]));
    Ok((one, other))
}

// The logic that a step has.
pub(crate) fn step_logic(frame: &Frame) -> Result<Logic, PlanFault>
    ensures { StepLogic frame.now result }
{
    let line = frame.line;
    let &[number] = frame.fields.as_slice() else {
        return Err(PlanFault::WrongLength { line });
    };
    Logic::try_from(number).map_err(|_| PlanFault::BadLogic { line })
}
