// A book keeps what it needs of its plan: the class of each link, for each step the row of its innermost fragment, the table of rows, and the place of the listing.
use crate::places::Cursor;
use crate::tables::Table;
use model::{LinkNo, RowNo};

mod calls;
mod opening;

#[derive(Drop)]
pub struct Book {
    pub(crate) classes: Vec<LinkNo>,
    pub(crate) homes: Vec<RowNo>,
    pub(crate) table: Table,
    pub(crate) cursor: Cursor,
}
