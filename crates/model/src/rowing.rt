// A row of the listing.
use crate::kinds::Kind;
use crate::numbers::{LinkNo, RowNo};

// Row 0, the whole plan, has no parent, no entry and no exit. Each is an option of its own, since a line tells each by itself: a number, or a dash.
#[derive(Clone, Copy, PartialEq, Eq, Debug)]
pub struct Row {
    pub number: RowNo,
    pub parent: Option<RowNo>,
    pub kind: Kind,
    pub entry: Option<LinkNo>,
    pub exit: Option<LinkNo>,
    pub inside: u16,
}
