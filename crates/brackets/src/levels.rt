// What is known of a number of the tree before it is handled.
ghost use Rattle.std.specs.Prelude.{◌≡◌, ◌+◌, ◌-◌, ◌^◌, ◌<◌, min};
ghost use Rattle.brackets.specs.Levels.{bare, having_back_link, having_end, having_child, cap_by};

// `hi0` is the lowest number that its own upward back links reach. Of the lowest numbers that its children's subtrees reach, `hi1` is the lowest and `hi2` the second lowest, equal ones counted apart. Where nothing is reached, the count of all numbers stands, which no number reaches, so that min and max are taken without cases. `len` is the length of its children's lists together, and `ends` tells how many brackets and caps end at it.
#[derive(Clone, Copy)]
pub struct Level {
    pub hi0: u16,
    pub hi1: u16,
    pub hi2: u16,
    pub len: u32,
    pub ends: u32,
}

impl Level {
    // Nothing is known yet.
    pub(crate) fn bare(numbers: u16) -> Level
        ensures { result ≡ bare numbers }
    {
        Level {
            hi0: numbers,
            hi1: numbers,
            hi2: numbers,
            len: 0,
            ends: 0,
        }
    }

    // One own back link more.
    pub(crate) fn with_back_link(self, to: u16) -> Level
        ensures { result ≡ having_back_link self to }
    {
        Level {
            hi0: to.min(self.hi0),
            ..self
        }
    }

    // One bracket or cap more that ends here.
    pub(crate) fn with_end(self) -> Level
        ensures { self.ends + 1 < 2 ^ 32 → result ≡ having_end self }
    {
        Level {
            ends: self.ends.saturating_add(1),
            ..self
        }
    }

    // One child more: its subtree reaches up to `hi`, and its list has `len` items.
    pub(crate) fn with_child(self, hi: u16, len: u32) -> Level
        ensures { len + self.len < 2 ^ 32 → result ≡ having_child self hi len }
    {
        Level {
            hi1: hi.min(self.hi1),
            hi2: hi.max(self.hi1).min(self.hi2),
            len: len.saturating_add(self.len),
            ..self
        }
    }

    // The length of its list, if it has `own` brackets and caps of its own: those that end at it are in its children's lists.
    pub(crate) fn list_len(self, own: u32) -> u32
        ensures { own + self.len < 2 ^ 32 → result ≡ own + self.len - self.ends }
    {
        own.saturating_add(self.len).saturating_sub(self.ends)
    }

    // The lowest number that the back links of its subtree reach.
    pub(crate) fn hi(self) -> u16
        ensures { result ≡ min self.hi0 self.hi1 }
    {
        self.hi0.min(self.hi1)
    }

    // Where a cap from `v` ends, if it has one: the second lowest of its children reaches above both what its own back links reach and `v` itself.
    pub(crate) fn cap(self, v: u16) -> Option<u16>
        ensures { result ≡ cap_by self v }
    {
        if self.hi2 < self.hi0 && self.hi2 < v {
            Some(self.hi2)
        } else {
            None
        }
    }
}
