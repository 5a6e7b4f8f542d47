// Names: two links have the same name exactly when the top and the length of their lists are the same.
ghost use Rattle.std.specs.Prelude.{◌≡◌, ◌<◌, ◌≤◌, length, replicate, IfSome, IfOk, None};
ghost use Rattle.classes.specs.Bounds.{Below};
ghost use Rattle.classes.specs.Named.{Named};
ghost use Rattle.theory.specs.Each.{Each, EachSome};

use brackets::Name;
use lists::NoMemory;
use model::LinkNo;
use std::alloc::Global;

// The length of the last list that a bracket was the top of, and the link that was named then.
#[derive(Clone, Copy)]
pub(crate) struct Latest {
    pub len: u32,
    pub link: LinkNo,
}

// For each bracket, the latest: the back links by their numbers, and the caps after them. With the same top, the lists get no longer as the numbers fall, so that equal ones come one after the other.
#[derive(Drop)]
pub(crate) struct Names {
    pub(crate) links: u16,
    pub(crate) latest: Vec<Option<Latest>>,
    ghost known: { EachSome (Named links) latest.items },
}

impl Names {
    pub(crate) fn new(links: u16, brackets: u16, heap: Global) -> Result<Names, NoMemory>
        ensures { IfOk result (λ t. (t.links ≡ links) × (t.latest.items ≡ replicate brackets None)) }
    {
        let latest = vec![in heap; None; brackets as usize]?;
        Ok(Names { links, latest })
    }

    // The first link with this name: a list of one bracket names that back link. Where no bracket passes it, as in no sound plan, the link is named by itself.
    pub(crate) fn first_named(&mut self, name: Option<Name>, link: LinkNo) -> LinkNo
        requires top { IfSome name (λ n. n.top < length self.old.latest.items) }
        requires link { link.0 < self.old.links }
        ensures below { result.0 < self.old.links }
        ensures links { self.new.links ≡ self.old.links }
        ensures len { length self.new.latest.items ≡ length self.old.latest.items }
    {
        let Some(Name { top, len }) = name else {
            return link;
        };
        if len == 1 && top < self.links {
            return LinkNo(top);
        }
        let latest = self.latest[top as usize]
            .filter(|before| before.len == len)
            .unwrap_or(Latest { len, link });
        self.latest[top as usize] = Some(latest);
        latest.link
    }
}

// For each link of the plan, the smallest link whose first named link is the same. A plain vector, with what is known of its numbers in the clauses: a type of its own would be taken apart by every caller. The return link, the last of all, names none.
pub(crate) fn smallest(
    firsts: &[LinkNo],
    links: usize,
    heap: Global,
) -> Result<Vec<LinkNo>, NoMemory>
    requires few { links ≤ 2048 }
    requires enough { links ≤ length firsts.now }
    requires below { Each (Below (length firsts.now)) (record { 0 = 0 }) firsts.now }
    ensures { IfOk result (λ v. (length v.items ≡ links) × Each (Below links) (record { 0 = 0 }) v.items) }
{
    let mut names = vec![in heap; None; firsts.len()]?;
    let mut classes = Vec::new(heap);
    for (l, first) in firsts[..links].iter().enumerate() {
        let class = *names[first.0 as usize].get_or_insert(LinkNo(l as u16));
        classes.push(class)?;
    }
    Ok(classes)
}
