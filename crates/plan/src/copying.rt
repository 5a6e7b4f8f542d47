// Copies of what a plan answers: a question is asked of each number in turn, and the copy stops where the number has no answer.
ghost use Rattle.std.specs.Prelude.{◌≡◌, ℕ, ◌<◌, ◌≤◌, Option, length, IfOk};
ghost use Rattle.std.specs.List.{slice_get};
ghost use Rattle.plan.specs.Copied.{graph_of};

use crate::asking::Plan;
use crate::graphs::Graph;
use model::{LinkNo, Logic, StepNo};
use std::alloc::{AllocError, Global};

// The answers to the numbers from 0 on, up to the first number that has none.
fn all_answers<T: Drop, F: Fn(u16) -> Option<T>>(ask: F, heap: Global) -> Result<Vec<T>, AllocError>
    requires callable { F.IsAlwaysCallable ask }
    requires ends { (n : ℕ) × (n < u16.MAX) × ((answer : Option T) → F.post ask n answer → answer ≡ None) }
    ensures { IfOk result (λ v. (k : ℕ) → k ≤ length v.items → F.post ask k (slice_get v.items k)) }
{
    let mut all = Vec::new(heap);
    // A rule for every copy of a plan: it asks number by number, and no more once there was no answer.
    for number in 0..u16::MAX {
        let Some(answer) = ask(number) else {
            break;
        };
        all.push(answer)?;
    }
    Ok(all)
}

impl Graph {
    pub fn of<P: Plan>(plan: &P, heap: Global) -> Result<Graph, AllocError>
        ensures { IfOk result (λ g. graph_of g ≡ (P.Plan.meaning plan.now).graph) }
    {
        let links = all_answers(|l| plan.ends(LinkNo(l)), heap)?;
        Ok(Graph {
            steps: plan.step_count(),
            links,
            first: plan.first(),
            last: plan.last(),
        })
    }
}

// The logic of each step.
pub fn logics_of<P: Plan>(plan: &P, heap: Global) -> Result<Vec<Logic>, AllocError>
    ensures { IfOk result (λ v. v.items ≡ (P.Plan.meaning plan.now).logics) }
{
    all_answers(|s| plan.logic(StepNo(s)), heap)
}
