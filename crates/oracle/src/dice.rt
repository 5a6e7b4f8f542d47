// Numbers that look random.
ghost use Rattle.std.specs.Prelude.{◌<◌, max};

// One fixed sequence, so that every run makes the same plans.
#[derive(Drop)]
pub struct Dice {
    state: u64,
}

impl Dice {
    pub fn new() -> Dice {
        Dice {
            state: 0x9E37_79B9_7F4A_7C15,
        }
    }

    // A number below `sides`; 0 where there is none.
    pub fn roll(&mut self, sides: u16) -> u16
        ensures { 0 < sides → result < sides }
    {
        self.place(usize::from(sides)) as u16
    }

    // A place among so many; 0 where there is none.
    pub fn place(&mut self, count: usize) -> usize
        ensures { result < max 1 count }
    {
        let mut next = self.state;
        next ^= next << 13;
        next ^= next >> 7;
        next ^= next << 17;
        self.state = next;
        (next >> 32) as usize % count.max(1)
    }

    pub fn pick<'a, T>(&mut self, items: &'a [T]) -> Option<&'a T> {
        items.get(self.place(items.len()))
    }

    // Puts the items in some order.
    pub fn shuffle<T>(&mut self, items: &mut [T]) {
        // By number, since two places of one slice change at once.
        for place in 0..items.len() {
            let other = self.place(items.len());
            items.swap(place, other);
        }
    }
}
