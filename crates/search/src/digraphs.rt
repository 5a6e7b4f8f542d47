// What the searches go over.
ghost use Rattle.std.specs.Prelude.{◌≤◌, map, length};
ghost use Rattle.model.specs.Meaning.{EndsBelow, pair_of};

use model::Ends;

// Links between `steps` steps, as many as have numbers: a plan's own, or these turned, or these with the return link.
#[derive(Clone, Copy)]
pub struct Digraph<'a> {
    pub links: &'a [Ends],
    pub steps: usize,
    ghost below: { EndsBelow steps (map pair_of links.now) },
    ghost few: { length links.now ≤ 65536 },
}
