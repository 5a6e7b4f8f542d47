// The two lines. A buffer of 64 bytes has room for every line.
ghost use Rattle.std.specs.Prelude.{◌≡◌};
ghost use Rattle.lines.specs.Lines.{row_bytes, refusal_bytes, Lined};
ghost use Rattle.lines.specs.Short.{short_refusal};

use crate::line::{After, Line, room_in};
use model::{Layer, Place, Refusal, Row};

// A buffer of fewer than 64 bytes.
#[derive(Clone, Copy, PartialEq, Eq, Debug)]
pub struct ShortBuffer;

impl ShortBuffer {
    pub fn refusal(self) -> Refusal
        ensures { result ≡ short_refusal }
    {
        Refusal {
            number: 65,
            layer: Layer::Book,
            place: Place::At(64),
        }
    }
}

// Number, parent, word, entry, exit and inside count.
pub fn row_line(row: Row, buf: &mut [u8]) -> Result<usize, ShortBuffer>
    ensures { Lined (row_bytes row) buf.old result buf.new }
{
    room_in(buf)?;
    let mut line = Line::new();
    line.number(row.number.0, After::Blank);
    line.number_or_dash(row.parent.map(|r| r.0), After::Blank);
    line.word(row.kind.word(), After::Blank);
    line.number_or_dash(row.entry.map(|l| l.0), After::Blank);
    line.number_or_dash(row.exit.map(|l| l.0), After::Blank);
    line.number(row.inside, After::LineFeed);
    line.copy_to(buf)
}

// `refused`, number, layer and place.
pub fn refusal_line(refusal: Refusal, buf: &mut [u8]) -> Result<usize, ShortBuffer>
    ensures { Lined (refusal_bytes refusal) buf.old result buf.new }
{
    room_in(buf)?;
    let mut line = Line::new();
    line.word("refused", After::Blank);
    line.number(refusal.number, After::Blank);
    line.word(refusal.layer.word(), After::Blank);
    line.place(refusal.place);
    line.copy_to(buf)
}
