// What is held while the numbers are handled.
ghost use Rattle.std.specs.Prelude.{◌≡◌, ◌+◌, length, vec_len};

use crate::levels::Level;
use lists::Lists;

// A back link by its number, or a cap by the closed plan's link count and the number it starts from; and the number that it ends at. One row of numbers for both, no enum: what was named last with each stands in one vector, at that number.
#[derive(Clone, Copy)]
pub struct Bracket {
    pub item: u16,
    pub to: u16,
}

// The name of a tree link: the top of the list of the number below it, and how long that list is.
#[derive(Clone, Copy)]
pub struct Name {
    pub top: u16,
    pub len: u32,
}

// What is known of each of n numbers. List k has the brackets that pass the tree link above number k, list n + k those that start at k: both in one `Lists`, within which alone a list is joined to another.
#[derive(Drop)]
pub struct Sweep {
    pub(crate) brackets: Lists<Bracket>,
    pub(crate) levels: Vec<Level>,
    ghost lists: { length brackets ≡ vec_len levels + vec_len levels },
}
