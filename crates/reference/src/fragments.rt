// Canonical fragments, and the steps of their own.
use crate::sets::StepSet;
use crate::walks::Walks;
use model::{LinkNo, StepNo};
use std::alloc::{AllocError, Global};

#[derive(Clone, Copy, PartialEq, Eq, Debug)]
pub struct Fragment {
    pub entry: LinkNo,
    pub exit: LinkNo,
    // The entry's head and the exit's tail.
    pub begin: StepNo,
    pub end: StepNo,
    pub inside: StepSet,
}

// The canonical fragments by rising entry.
pub fn fragments(walks: &Walks, heap: Global) -> Result<Vec<Fragment>, AllocError> {
    let links = walks.sketch.link_count();
    (0..links)
        .flat_map(|entry| {
            (0..links).filter_map(move |exit| enclosed(walks, LinkNo(entry), LinkNo(exit)))
        })
        .collect(heap)
}

// What the two links enclose, if that is a canonical fragment.
fn enclosed(walks: &Walks, entry: LinkNo, exit: LinkNo) -> Option<Fragment> {
    if !walks.canonical(entry, exit) {
        return None;
    }
    Some(Fragment {
        entry,
        exit,
        begin: walks.sketch.ends(entry)?.head,
        end: walks.sketch.ends(exit)?.tail,
        inside: walks.inside(entry, exit),
    })
}

// The steps inside the fragment and inside no fragment of fewer steps.
pub fn own_steps(fragments: &[Fragment], fragment: Fragment) -> StepSet {
    fragments
        .iter()
        .map(|other| other.inside)
        .filter(|inside| inside.count() < fragment.inside.count())
        .fold(fragment.inside, |own, inside| own - inside)
}

// The place of the smallest other fragment that contains all steps of the one at this place.
pub fn parent(fragments: &[Fragment], place: usize) -> Option<usize> {
    let child = fragments.get(place)?;
    let (found, _) = fragments
        .iter()
        .enumerate()
        .filter(|(other, fragment)| *other != place && fragment.inside.holds(child.inside))
        .min_by_key(|(_, fragment)| fragment.inside.count())?;
    Some(found)
}
