// The theorems on walks, classes, fragments, listings and calls. Each is the contract of a function, so that the crate is proved only with its proof.
#![tactic(auto)]

ghost use Rattle.theory.specs.Cuts.{ReachDecided, ShareDecided, ShareIsCut, ClassNamed, EqualEndsAlone};
ghost use Rattle.theory.specs.Orders.{ClassInLine, LeaderFirst, FragmentsNeighbours};
ghost use Rattle.theory.specs.Insides.{InsideCutOff, FragmentsNest, InsideTells, PlainAlone, OwnBranches};
ghost use Rattle.theory.specs.Listings.{OneListing, BelowByParents, ParentLeast, RunsNest};
ghost use Rattle.theory.specs.Calls.{LawStands, OneAnswer};

// Whether a walk leads from a step to another without passing a link is computed.
pub fn reaching_is_decided()
    ensures { ReachDecided }
{}

// Whether two links share a class is computed.
pub fn sharing_is_decided()
    ensures { ShareDecided }
{}

// Two links share a class exactly when some set of steps is crossed by them and by no other link of the closed plan.
pub fn sharing_is_a_cut()
    ensures { ShareIsCut }
{}

// Every link has exactly one class name.
pub fn classes_are_named()
    ensures { ClassNamed }
{}

// A link with equal ends is alone in its class.
pub fn equal_ends_stand_alone()
    ensures { EqualEndsAlone }
{}

// Of two links of a class one leads the other, and not both.
pub fn classes_stand_in_line()
    ensures { ClassInLine }
{}

// In every order of search a link stands after those that lead it.
pub fn leaders_stand_first()
    ensures { LeaderFirst }
{}

// The canonical fragments are the neighbours of a class in any order of search.
pub fn fragments_are_neighbours()
    ensures { FragmentsNeighbours }
{}

// The inside of a fragment is what its entry and exit cut off, without first and last, and is computed.
pub fn insides_are_cut_off()
    ensures { InsideCutOff }
{}

// Two canonical fragments have no step in common, or one has all steps of the other.
pub fn fragments_nest()
    ensures { FragmentsNest }
{}

// Two canonical fragments with the same inside are one.
pub fn insides_tell_fragments()
    ensures { InsideTells }
{}

// A step that does not branch is alone in a fragment.
pub fn plain_steps_are_alone()
    ensures { PlainAlone }
{}

// An own step that does not branch is all that its fragment has.
pub fn own_steps_branch()
    ensures { OwnBranches }
{}

// A sound plan has one listing.
pub fn listings_are_one()
    ensures { OneListing }
{}

// The rows below a row are those that its children, their children and so on stand for.
pub fn rows_below_are_told_by_parents()
    ensures { BelowByParents }
{}

// The parent of a row lies in every other row that has all its steps.
pub fn parents_are_least()
    ensures { ParentLeast }
{}

// Two runs of rows are apart, or one lies within the other.
pub fn runs_nest()
    ensures { RunsNest }
{}

// Every list of calls on a book that is opened over a sound plan follows the law.
pub fn law_stands()
    ensures { LawStands }
{}

// The law leaves one answer to each call.
pub fn answers_are_one()
    ensures { OneAnswer }
{}
