// The six questions. Whoever adds a make of plan says what it means, and shows the answers and the limits.
ghost use Rattle.std.specs.Prelude.{◌≡◌, length};
ghost use Rattle.model.specs.Meaning.{Meaning, Limits, ends_of, logic_of};

use model::{Ends, LinkNo, Logic, StepNo};

pub trait Plan {
    ghost meaning: { Self → Meaning };

    ghost limits: { (p : Self) → Limits (meaning p) };

    fn step_count(&self) -> u16
        ensures { result ≡ (meaning self.now).graph.steps };

    fn link_count(&self) -> u16
        ensures { result ≡ length (meaning self.now).graph.links };

    fn first(&self) -> StepNo
        ensures { result.0 ≡ (meaning self.now).graph.first };

    fn last(&self) -> StepNo
        ensures { result.0 ≡ (meaning self.now).graph.last };

    // None when no link has that number.
    fn ends(&self, link: LinkNo) -> Option<Ends>
        ensures { result ≡ ends_of (meaning self.now) link.0 };

    // None when no step has that number.
    fn logic(&self, step: StepNo) -> Option<Logic>
        ensures { result ≡ logic_of (meaning self.now) step.0 };
}
