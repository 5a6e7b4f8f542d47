// What was compared.
use model::Kind;
use reference::{Listed, Sketch};
use std::io;

#[derive(Drop)]
pub struct Tally {
    pub plans: u32,
    most_steps: u16,
    most_links: u16,
    // How many rows of each kind, by the kind's number: an array needs no memory that can be wanting, as a map would.
    kinds: [u32; 8],
}

impl Tally {
    pub fn new() -> Tally {
        Tally {
            plans: 0,
            most_steps: 0,
            most_links: 0,
            kinds: [0; 8],
        }
    }

    pub fn add_plan(&mut self, sketch: &Sketch) {
        self.plans = self.plans.saturating_add(1);
        self.most_steps = self.most_steps.max(sketch.steps);
        self.most_links = self.most_links.max(sketch.link_count());
    }

    pub fn add_rows(&mut self, rows: &[Listed]) {
        for listed in rows {
            if let Some(count) = self.kinds.get_mut(usize::from(listed.row.kind.number())) {
                *count = count.saturating_add(1);
            }
        }
    }

    pub fn rows_of(&self, kind: Kind) -> u32 {
        self.kinds
            .get(usize::from(kind.number()))
            .copied()
            .unwrap_or(0)
    }

    // A kind of which fewer rows than this were seen.
    pub fn rarer(&self, least: u32) -> Option<Kind> {
        Kind::ALL
            .iter()
            .copied()
            .find(|kind| self.rows_of(*kind) < least)
    }

    pub fn print(&self, rt: &impl Print) -> io::Result<()> {
        println!(rt; "compared {} plans, and each of them turned", self.plans)?;
        println!(rt;
            "the largest: {} steps, {} links",
            self.most_steps, self.most_links
        )?;
        for kind in Kind::ALL.iter() {
            println!(rt; "{} rows {kind}", self.rows_of(*kind))?;
        }
        println!(rt; "none differ")
    }
}
