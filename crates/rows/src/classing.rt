// A plan whose links have an order of search and classes.
ghost use Rattle.std.specs.Prelude.{◌≡◌, ◌^◌, ◌<◌, length};
ghost use Rattle.rows.specs.Bounds.{LinksBelow, StepsBelow};

use model::{Ends, LinkNo, Logic};

// The links and the logic of each step, an order of search of the links, and the class of each link.
#[derive(Clone, Copy)]
pub struct Classed<'a> {
    pub links: &'a [Ends],
    pub logics: &'a [Logic],
    pub order: &'a [LinkNo],
    pub classes: &'a [LinkNo],
    pub ghost ends_below: { StepsBelow (length logics.now) links.now },
    pub ghost order_below: { LinksBelow (length links.now) order.now },
    pub ghost few: { length order.now < 2 ^ 15 },
    pub ghost each: { length classes.now ≡ length links.now },
    pub ghost classes_below: { LinksBelow (length links.now) classes.now },
}
