// The method of classes: brackets of a spanning tree, lists with caps, and names. Each theorem is the contract of a function, so that the crate is proved only with its proof.
#![tactic(auto)]

ghost use Rattle.naming.specs.Classes.{NamesTellClasses, TreeLinksBracketed};
ghost use Rattle.naming.specs.Brackets.{BracketsTell};
ghost use Rattle.naming.specs.Names.{NamesTell, CarriedTell};
ghost use Rattle.naming.specs.Crossing.{NamesCrossStands};
ghost use Rattle.naming.specs.Built.{BuildStands};
ghost use Rattle.naming.specs.Searched.{SearchedStands};
ghost use Rattle.naming.specs.Turns.{TurnsStand, ListsBounded};
ghost use Rattle.naming.specs.DepthFirst.{DepthFirstNumbered};
ghost use Rattle.naming.specs.Ended.{EndsCounted};
ghost use Rattle.naming.specs.Firsts.{FirstsStand};
ghost use Rattle.naming.specs.Bridge.{BridgeStands, ExampleStands};
ghost use Rattle.naming.specs.Caps.{CapToItself};

// Two links share a class exactly when they have the same name.
pub fn names_tell_classes()
    ensures { NamesTellClasses }
{}

// Two links of a spanning tree share a class exactly when they have the same brackets, and a bracket shares with a tree link exactly when it is its only one.
pub fn brackets_tell_classes()
    ensures { BracketsTell }
{}

// Two tree links have the same top and length exactly when they have the same brackets.
pub fn names_tell_brackets()
    ensures { NamesTell }
{}

// Names tell which of the links outside the tree cross a subtree.
pub fn names_tell_crossings()
    ensures { NamesCrossStands }
{}

// A list may keep items that have ended, if they are passed over at its top and not counted.
pub fn ended_items_may_stay()
    ensures { CarriedTell }
{}

// The lists, lowest numbers and subtrees that are computed from parents and own items are those of the method.
pub fn lists_are_built()
    ensures { BuildStands }
{}

// Caps can be numbered behind the links.
pub fn caps_are_numbered()
    ensures { SearchedStands }
{}

// A falling loop over the numbers that adds each into its parent builds the lists.
pub fn turns_stand()
    ensures { TurnsStand }
{}

// No list gets longer than there are links and numbers together, nor do the lists of the children of one number.
pub fn lists_are_bounded()
    ensures { ListsBounded }
{}

// A depth-first tree of all steps of the closed plan is a search as the method asks.
pub fn trees_are_searches()
    ensures { DepthFirstNumbered }
{}

// Back links that end at a number can be counted beforehand, caps as they are made.
pub fn ends_are_counted()
    ensures { EndsCounted }
{}

// Every tree link of a sound plan has a bracket.
pub fn tree_links_have_brackets()
    ensures { TreeLinksBracketed }
{}

// One link stands for each name: equal names come one after the other, as the lists with one top get no longer.
pub fn links_stand_for_names()
    ensures { FirstsStand }
{}

// A link between a number and one above it crosses a subtree exactly when it leads out of it to above its root.
pub fn subtrees_are_crossed()
    ensures { BridgeStands }
{}

// With a cap from a step to itself the names would part two links of one class.
pub fn caps_never_end_where_they_begin()
    ensures { CapToItself }
{}

// A tree of five numbers with a cap.
pub fn example_stands()
    ensures { ExampleStands }
{}
