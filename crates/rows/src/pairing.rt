// Canonical fragments: the neighbours of each class in the order of search.
ghost use Rattle.std.specs.Prelude.{◌≡◌, length, IfOk};
ghost use Rattle.rows.specs.Bounds.{LinksBelow, SomeBelow};
ghost use Rattle.rows.specs.Pairs.{Paired};

use lists::NoMemory;
use model::LinkNo;
use std::alloc::Global;

// For each link, the exit of the fragment that it enters, if it enters one.
pub fn exits(
    order: &[LinkNo],
    classes: &[LinkNo],
    heap: Global,
) -> Result<Vec<Option<LinkNo>>, NoMemory>
    requires order { LinksBelow (length classes.now) order.now }
    requires classes { LinksBelow (length classes.now) classes.now }
    ensures { IfOk result (λ v. (length v.items ≡ length classes.now) × SomeBelow (length classes.now) v.items × Paired classes.now v.items) }
{
    let mut exits = vec![in heap; None; classes.len()]?;
    let mut latest = vec![in heap; None; classes.len()]?;
    for link in order {
        let class = classes[link.0 as usize];
        if let Some(entry) = latest[class.0 as usize].replace(*link) {
            exits[entry.0 as usize] = Some(*link);
        }
    }
    Ok(exits)
}
