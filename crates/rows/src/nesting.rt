// How the fragments nest, found along the order of search: a link leaves the innermost fragment of its tail if it is the exit, and enters the fragment whose entry it is.
ghost use Rattle.std.specs.Prelude.{◌≡◌, ℕ, ◌+◌, ◌^◌, ◌<◌, ◌≤◌, [], ◌∷◌, ◌++◌, length, IfSome, IfOk, OnOk, slice_index_or, slice_set};
ghost use Rattle.rows.specs.Bounds.{AllBelow, Below, LinksBelow, SomeBelow, StepsBelow};
ghost use Rattle.rows.specs.Nests.{Sites, Entries, Exits, Placed, Entered, no_fragment, left_of, home_after, put_in};

use crate::kinding::Own;
use lists::NoMemory;
use model::{Ends, LinkNo};
use std::alloc::Global;

// Where a fragment lies: the fragment directly around it, its entry and its exit.
#[derive(Clone, Copy)]
pub struct Site {
    pub parent: u16,
    pub entry: LinkNo,
    pub exit: LinkNo,
}

// A fragment by its site, how many fragments it lies in, its own steps, and how many steps are inside it. The whole plan has no site.
#[derive(Clone, Copy, Default)]
pub struct Fragment {
    pub site: Option<Site>,
    pub depth: u16,
    pub own: Own,
    pub inside: u16,
}

// The fragments, first the whole plan, then each after its parent; for each step the innermost fragment that it is inside; and for each link the fragment that it enters.
#[derive(Drop)]
pub struct Nesting {
    pub fragments: Vec<Fragment>,
    pub homes: Vec<u16>,
    pub entered: Vec<Option<u16>>,
    ghost some: { 1 ≤ length fragments.items },
    ghost sites: { Sites fragments.items },
    ghost placed: { Placed fragments.items },
    ghost homed: { AllBelow (length fragments.items) homes.items },
    ghost known: { Entered (length fragments.items) entered.items },
}

impl Nesting {
    // The whole plan alone.
    pub fn new(steps: usize, links: usize, heap: Global) -> Result<Nesting, NoMemory>
        ensures { IfOk result (λ t. (length t.fragments.items ≡ 1) × (length t.homes.items ≡ steps) × (length t.entered.items ≡ links)) }
    {
        let homes = vec![in heap; 0; steps]?;
        let entered = vec![in heap; None; links]?;
        let fragments = vec![in heap; Fragment::default()]?;
        Ok(Nesting {
            fragments,
            homes,
            entered,
        })
    }

    // The fragment that one is in after the link, if `here` is the fragment before it.
    fn left(&self, here: u16, link: LinkNo) -> u16
        requires { here < length self.now.fragments.items }
        ensures within { result < length self.now.fragments.items }
        ensures left { result ≡ left_of (slice_index_or self.now.fragments.items here no_fragment).site here link }
    {
        let Some(site) = self.fragments[here as usize].site else {
            return here;
        };
        if site.exit == link { site.parent } else { here }
    }

    // Puts in the fragment of a site, and answers its number. That there are few is asked and not in the type, which may hold one more afterwards.
    fn enter(&mut self, site: Site) -> Result<u16, NoMemory>
        requires parent { site.parent < length self.old.fragments.items }
        requires entry { site.entry.0 < length self.old.entered.items }
        requires few { length self.old.fragments.items < 2 ^ 16 }
        ensures made { IfOk result (λ k. (k ≡ length self.old.fragments.items) × (self.new.fragments.items ≡ self.old.fragments.items ++ put_in (slice_index_or self.old.fragments.items site.parent no_fragment) site ∷ []) × (self.new.entered.items ≡ slice_set self.old.entered.items site.entry.0 (Some k))) }
        ensures entries { (m : ℕ) → Below m site.entry → Entries m self.old.fragments.items → Entries m self.new.fragments.items }
        ensures exits { (m : ℕ) → Below m site.exit → Exits m self.old.fragments.items → Exits m self.new.fragments.items }
        ensures more { length self.new.fragments.items ≤ length self.old.fragments.items + 1 }
        ensures homes { self.new.homes ≡ self.old.homes }
        ensures links { length self.new.entered.items ≡ length self.old.entered.items }
    {
        let number = self.fragments.len() as u16;
        let around = self.fragments[site.parent as usize];
        self.fragments.push(Fragment {
            site: Some(site),
            depth: around.depth.saturating_add(1),
            ..Fragment::default()
        })?;
        self.entered[site.entry.0 as usize] = Some(number);
        Ok(number)
    }

    // Goes along a link, which enters a fragment if it has an exit.
    pub fn follow(
        &mut self,
        entry: LinkNo,
        ends: Ends,
        exit: Option<LinkNo>,
    ) -> Result<(), NoMemory>
        requires link { entry.0 < length self.old.entered.items }
        requires tail { ends.tail.0 < length self.old.homes.items }
        requires head { ends.head.0 < length self.old.homes.items }
        requires few { length self.old.fragments.items < 2 ^ 16 }
        ensures home { OnOk result (self.new.homes.items ≡ slice_set self.old.homes.items ends.head.0 (home_after self.old.fragments.items self.old.homes.items entry ends exit)) }
        ensures entries { (m : ℕ) → Below m entry → Entries m self.old.fragments.items → Entries m self.new.fragments.items }
        ensures exits { (m : ℕ) → IfSome exit (Below m) → Exits m self.old.fragments.items → Exits m self.new.fragments.items }
        ensures more { length self.new.fragments.items ≤ length self.old.fragments.items + 1 }
        ensures steps { length self.new.homes.items ≡ length self.old.homes.items }
        ensures links { length self.new.entered.items ≡ length self.old.entered.items }
    {
        let parent = self.left(self.homes[ends.tail.0 as usize], entry);
        let inside = match exit {
            Some(exit) => self.enter(Site {
                parent,
                entry,
                exit,
            })?,
            None => parent,
        };
        self.homes[ends.head.0 as usize] = inside;
        Ok(())
    }
}

// Follows the links in the order of search.
pub fn nest(
    links: &[Ends],
    steps: usize,
    order: &[LinkNo],
    exits: &[Option<LinkNo>],
    heap: Global,
) -> Result<Nesting, NoMemory>
    requires ends { StepsBelow steps links.now }
    requires order { LinksBelow (length links.now) order.now }
    requires exits { length exits.now ≡ length links.now }
    requires few { length order.now < 2 ^ 15 }
    ensures { IfOk result (λ t. (length t.homes.items ≡ steps) × (length t.entered.items ≡ length links.now) × (length t.fragments.items ≤ length order.now + 1) × Entries (length links.now) t.fragments.items × ((m : ℕ) → SomeBelow m exits.now → Exits m t.fragments.items)) }
{
    let mut nesting = Nesting::new(steps, links.len(), heap)?;
    for link in order {
        let at = link.0 as usize;
        nesting.follow(*link, links[at], exits[at])?;
    }
    Ok(nesting)
}
