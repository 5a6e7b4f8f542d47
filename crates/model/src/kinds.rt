// The kinds of rows.
ghost use Rattle.std.specs.Prelude.{◌≡◌, Some};
ghost use Rattle.std.specs.Fmt.{padded};
ghost use Rattle.model.specs.Words.{kind_number, kind_word};

use std::fmt;

#[derive(Clone, Copy, PartialEq, Eq, Debug)]
pub enum Kind {
    Whole,
    Single,
    Choice,
    Parallel,
    Loop,
    MeshOne,
    MeshAll,
    Mixed,
}

impl Kind {
    // All kinds, in the order of their numbers.
    pub const ALL: [Kind; 8] = [
        Kind::Whole,
        Kind::Single,
        Kind::Choice,
        Kind::Parallel,
        Kind::Loop,
        Kind::MeshOne,
        Kind::MeshAll,
        Kind::Mixed,
    ];

    pub fn number(self) -> u8
        ensures { result ≡ kind_number self }
    {
        match self {
            Kind::Whole => 0,
            Kind::Single => 1,
            Kind::Choice => 2,
            Kind::Parallel => 3,
            Kind::Loop => 4,
            Kind::MeshOne => 5,
            Kind::MeshAll => 6,
            Kind::Mixed => 7,
        }
    }

    pub fn word(self) -> &'static str
        ensures { result.now ≡ kind_word self }
    {
        match self {
            Kind::Whole => "whole",
            Kind::Single => "single",
            Kind::Choice => "choice",
            Kind::Parallel => "parallel",
            Kind::Loop => "loop",
            Kind::MeshOne => "mesh-one",
            Kind::MeshAll => "mesh-all",
            Kind::Mixed => "mixed",
        }
    }
}

// A kind is shown by its word.
impl fmt::Display for Kind {
    ghost output = { λ k. Some (kind_word k) };

    ghost styled_output = { λ k spec. Some (padded spec (kind_word k)) };

    fn fmt<W: fmt::Write>(&self, f: &mut fmt::Formatter<W>) -> fmt::Result {
        f.pad(self.word())
    }
}
