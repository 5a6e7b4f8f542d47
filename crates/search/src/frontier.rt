// The steps that a search has reached, and those of them that wait for their turn, in the order in which it reached them.
ghost use Rattle.std.specs.Prelude.{◌≡◌, ◌<◌, true, false, [], ◌∷◌, ◌++◌, replicate, IfOk, vec_len, MatchBool, OnOk, slice_index_or, slice_set};

use lists::NoMemory;
use model::StepNo;
use std::alloc::Global;
use std::collections::VecDeque;

#[derive(Drop)]
pub struct Reach {
    pub reached: Vec<bool>,
    pub queue: VecDeque<StepNo>,
}

impl Reach {
    // Only `start` is reached.
    pub(crate) fn new(heap: Global, steps: usize, start: StepNo) -> Result<Reach, NoMemory>
        requires { start.0 < steps }
        ensures { IfOk result (λ t. (t.reached.items ≡ slice_set (replicate steps false) start.0 true) × (t.queue.items ≡ start ∷ [])) }
    {
        let mut reached = vec![in heap; false; steps]?;
        reached[start.0 as usize] = true;
        let mut queue = VecDeque::new(heap);
        queue.push_back(start)?;
        Ok(Reach { reached, queue })
    }

    // Adds `step`, unless it is reached already.
    pub(crate) fn add(&mut self, step: StepNo) -> Result<(), NoMemory>
        requires { step.0 < vec_len self.old.reached }
        ensures { OnOk result (MatchBool (slice_index_or self.old.reached.items step.0 false) ((self.new.reached.items ≡ self.old.reached.items) × (self.new.queue.items ≡ self.old.queue.items)) ((self.new.reached.items ≡ slice_set self.old.reached.items step.0 true) × (self.new.queue.items ≡ self.old.queue.items ++ step ∷ []))) }
    {
        if self.reached[step.0 as usize] {
            return Ok(());
        }
        self.queue.push_back(step)?;
        self.reached[step.0 as usize] = true;
        Ok(())
    }
}
