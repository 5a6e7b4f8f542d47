// What is told when a call is turned away: a number, the layer that turned it away, and a place.
ghost use Rattle.std.specs.Prelude.{◌≡◌, Some};
ghost use Rattle.std.specs.Fmt.{padded};
ghost use Rattle.model.specs.Words.{layer_word};

use std::fmt;

#[derive(Clone, Copy, PartialEq, Eq, Debug)]
pub enum Layer {
    Text,
    Plan,
    Shape,
    Book,
}

impl Layer {
    pub fn word(self) -> &'static str
        ensures { result.now ≡ layer_word self }
    {
        match self {
            Layer::Text => "text",
            Layer::Plan => "plan",
            Layer::Shape => "shape",
            Layer::Book => "book",
        }
    }
}

// A layer is shown by its word.
impl fmt::Display for Layer {
    ghost output = { λ l. Some (layer_word l) };

    ghost styled_output = { λ l spec. Some (padded spec (layer_word l)) };

    fn fmt<W: fmt::Write>(&self, f: &mut fmt::Formatter<W>) -> fmt::Result {
        f.pad(self.word())
    }
}

// One number (a line, a link, a step, a row, a size), or a line with a column.
#[derive(Clone, Copy, PartialEq, Eq, Debug)]
pub enum Place {
    At(u16),
    Column { line: u16, column: u16 },
}

#[derive(Clone, Copy, PartialEq, Eq, Debug)]
pub struct Refusal {
    pub number: u16,
    pub layer: Layer,
    pub place: Place,
}
