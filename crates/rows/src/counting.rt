// What is counted at each step and at each fragment. A plan has at most 2,048 links and 1,024 steps, so that no count reaches the end of its type.
ghost use Rattle.std.specs.Prelude.{◌≡◌, ℕ, map, length, replicate, IfOk};
ghost use Rattle.rows.specs.Bounds.{AllBelow, StepsBelow};
ghost use Rattle.rows.specs.Counts.{count_at, counted_by, linked_by};
ghost use Rattle.rows.specs.Kinds.{branching, opening, closing};
ghost use Rattle.rows.specs.Nests.{Sites, site_of};

use crate::nesting::{Fragment, Nesting};
use lists::NoMemory;
use model::{Ends, Logic};
use std::alloc::Global;

// How many links enter and leave a step.
#[derive(Clone, Copy, Default)]
pub struct Degree {
    pub ins: u16,
    pub outs: u16,
}

impl Degree {
    pub fn branches(self) -> bool
        ensures { result ≡ branching self }
    {
        self.ins >= 2 || self.outs >= 2
    }

    pub fn opens(self) -> bool
        ensures { result ≡ opening self }
    {
        self.ins == 1 && self.outs >= 2
    }

    pub fn closes(self) -> bool
        ensures { result ≡ closing self }
    {
        self.ins >= 2 && self.outs == 1
    }
}

// For each step, how many links enter and leave it.
pub fn degrees(links: &[Ends], steps: usize, heap: Global) -> Result<Vec<Degree>, NoMemory>
    requires { StepsBelow steps links.now }
    ensures { IfOk result (λ v. (length v.items ≡ steps) × (v.items ≡ linked_by (replicate steps (record { ins = 0; outs = 0 })) links.now)) }
{
    let mut degrees = vec![in heap; Degree::default(); steps]?;
    for ends in links {
        let tail = &mut degrees[ends.tail.0 as usize];
        tail.outs = tail.outs.saturating_add(1);
        let head = &mut degrees[ends.head.0 as usize];
        head.ins = head.ins.saturating_add(1);
    }
    Ok(degrees)
}

impl Fragment {
    // One own step more, which is inside the fragment.
    fn count(&mut self, logic: Logic, branches: bool)
        ensures { self.new ≡ count_at self.old logic branches }
    {
        self.own = self.own.with(logic, branches);
        self.inside = self.inside.saturating_add(1);
    }
}

// Counts each step at the smallest fragment that it is inside, its home. The logics are the plan's and the homes the nesting's, so that no one vector has a step's three.
fn count_own(fragments: &mut [Fragment], homes: &[u16], logics: &[Logic], degrees: &[Degree])
    requires { AllBelow (length fragments.old) homes.now }
    ensures { fragments.new ≡ counted_by fragments.old homes.now logics.now degrees.now }
{
    for ((home, logic), degree) in homes.iter().zip(logics).zip(degrees) {
        fragments[*home as usize].count(*logic, degree.branches());
    }
}

// Adds the steps inside each fragment to those inside its parent, which stands before it.
fn count_inside(fragments: &mut [Fragment])
    requires { Sites fragments.old }
    ensures { map site_of fragments.new ≡ map site_of fragments.old }
{
    // By number, since a fragment's parent, which is written, stands in the same slice.
    for k in (0..fragments.len()).rev() {
        let fragment = fragments[k];
        if let Some(site) = fragment.site {
            let parent = &mut fragments[site.parent as usize];
            parent.inside = parent.inside.saturating_add(fragment.inside);
        }
    }
}

impl Nesting {
    // Counts the own steps of each fragment and the steps inside it.
    pub(crate) fn count(&mut self, logics: &[Logic], degrees: &[Degree])
        ensures sites { map site_of self.new.fragments.items ≡ map site_of self.old.fragments.items }
        ensures homes { self.new.homes ≡ self.old.homes }
        ensures entered { self.new.entered ≡ self.old.entered }
    {
        count_own(
            self.fragments.as_mut_slice(),
            self.homes.as_slice(),
            logics,
            degrees,
        );
        count_inside(self.fragments.as_mut_slice());
    }
}
