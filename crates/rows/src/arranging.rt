// The rows in their order: a row is followed directly by all rows below it, and rows of one parent stand by rising entry.
ghost use Rattle.std.specs.Prelude.{◌≡◌, ◌^◌, ◌<◌, ◌≤◌, [], take, length, sum_by, slice_set, IfOk};
ghost use Rattle.std.specs.List.{All};
ghost use Rattle.lists.specs.Many.{row, EachItem};
ghost use Rattle.rows.specs.Bounds.{AllBelow};
ghost use Rattle.rows.specs.Nests.{Entries, Exits};
ghost use Rattle.rows.specs.Orders.{After, Known, Lies, Numbered, gathered};

use crate::nesting::{Fragment, Nesting};
use lists::{Lists, NoMemory};
use std::alloc::Global;

// A fragment with its number, as it stands among the rows below a row.
#[derive(Clone, Copy)]
pub struct Record {
    pub number: u16,
    pub fragment: Fragment,
}

// Moves the lists of the children of `k` in front of its own list, that of the smallest entry last, so that it comes first.
fn gather(below: &mut Lists<Record>, children: &mut Lists<u16>, k: usize)
    requires within { k < length below.old }
    requires same { length children.old ≡ length below.old }
    requires after { All (After (length below.old) k) (row children.old k) }
    ensures below { below.new ≡ gathered below.old k (row children.old k) }
    ensures children { children.new ≡ slice_set children.old k [] }
{
    while let Some(child) = children.pop_at(k) {
        below.join_at(k, child as usize);
    }
}

impl Nesting {
    // For each fragment, those directly below it, by falling entry.
    fn children(&self, heap: Global) -> Result<Lists<u16>, NoMemory>
        ensures { IfOk result (λ t. (length t ≡ length self.now.fragments.items) × EachItem (After (length self.now.fragments.items)) t) }
    {
        let mut children = Lists::new(heap, self.fragments.len())?;
        for number in self.entered.iter().flatten() {
            if let Some(site) = self.fragments[*number as usize].site {
                children.push_at(site.parent as usize, *number)?;
            }
        }
        Ok(children)
    }

    // For each fragment its record and those of all below it, which end up in the list of the whole plan.
    pub fn in_order(&self, heap: Global) -> Result<Lists<Record>, NoMemory>
        requires { length self.now.fragments.items < 2 ^ 16 }
        ensures { IfOk result (λ t. (length t ≡ length self.now.fragments.items) × EachItem (λ _. Numbered (length self.now.fragments.items)) t × (Entries (length self.now.entered.items) self.now.fragments.items → Exits (length self.now.entered.items) self.now.fragments.items → EachItem (λ _. Known (length self.now.entered.items) (length self.now.fragments.items)) t) × EachItem (λ _. Lies) t × (sum_by length t ≤ length t)) }
    {
        let mut children = self.children(heap)?;
        let mut below = Lists::new(heap, self.fragments.len())?;
        for (k, fragment) in self.fragments.iter().enumerate().rev() {
            gather(&mut below, &mut children, k);
            let record = Record {
                number: k as u16,
                fragment: *fragment,
            };
            below.push_at(k, record)?;
        }
        Ok(below)
    }
}

// The fragment of each row, and the row of each fragment.
#[derive(Drop)]
pub struct Table {
    pub records: Vec<Record>,
    pub row_of: Vec<u16>,
}

// Numbers the fragments in the order of the whole plan's list, no more of them than there are lists.
pub fn tabulate(mut below: Lists<Record>, heap: Global) -> Result<Table, NoMemory>
    requires some { 0 < length below }
    requires few { length below < 2 ^ 16 }
    requires known { All (λ (r : Record). r.number < length below) (row below 0) }
    ensures { IfOk result (λ t. (t.records.items ≡ take (length below) (row below 0)) × (length t.row_of.items ≡ length below) × AllBelow (length below) t.row_of.items) }
{
    let count = below.len();
    let mut row_of = vec![in heap; 0u16; count]?;
    let mut records = Vec::new(heap);
    // No more turns than there are lists, however long the first one is, so that each row's number is below theirs.
    for row in 0..count {
        let Some(record) = below.pop_at(0) else {
            break;
        };
        row_of[record.number as usize] = row as u16;
        records.push(record)?;
    }
    Ok(Table { records, row_of })
}
