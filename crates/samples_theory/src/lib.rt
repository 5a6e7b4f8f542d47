// The sample plans, and a second look at the definitions. Each theorem is the contract of a function, so that the crate is proved only with its proof.
#![tactic(auto)]

ghost use Rattle.samples_theory.specs.Samples.{SamplesStand, BookHappens};
ghost use Rattle.samples_theory.specs.Second.{InsideNotDominance, PairNotCanonical, ClassesDiffer, BothAreNeeded, ReturnNamesNone, EqualEndsBranch, OwnIsMore, SoundnessRefuses, ClassesInterleave, FurtherStand};

// Each sample has its rows, kinds and classes, and its takes and give-backs their answers.
pub fn samples_stand()
    ensures { SamplesStand }
{}

// A book over the fifth sample can have a history with every call and every refusal.
pub fn book_happens()
    ensures { BookHappens }
{}

// A step between two links on every walk need not be inside their fragment.
pub fn inside_is_not_dominance()
    ensures { InsideNotDominance }
{}

// Not every pair of a class is a canonical fragment.
pub fn pairs_need_not_be_canonical()
    ensures { PairNotCanonical }
{}

// Links are neither all alone in their class nor all in one.
pub fn classes_differ()
    ensures { ClassesDiffer }
{}

// Neither leading nor sharing alone makes a single-entry single-exit pair.
pub fn sharing_and_leading_are_both_needed()
    ensures { BothAreNeeded }
{}

// The return link shares classes and names none.
pub fn return_link_names_none()
    ensures { ReturnNamesNone }
{}

// A step with a link to itself branches, and neither opens nor closes.
pub fn equal_ends_branch()
    ensures { EqualEndsBranch }
{}

// A step can be inside a fragment and not its own.
pub fn own_is_more_than_inside()
    ensures { OwnIsMore }
{}

// Each condition of soundness rules out a plan.
pub fn unsound_plans_are_refused()
    ensures { SoundnessRefuses }
{}

// Two classes whose links alternate keep their fragments.
pub fn classes_interleave()
    ensures { ClassesInterleave }
{}

// Rows by entry, a row three deep, and the kinds that the samples leave out.
pub fn further_samples_stand()
    ensures { FurtherStand }
{}
