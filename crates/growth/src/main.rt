// Shows how the time to read a table and to open a book over it grows with the plan. The figures go to standard error, since no two runs have the same.
#![tactic(auto)]

mod figures;
mod makes;

use figures::{Figures, Growth};
use makes::Make;
use std::rt::Clock;

const SMALLEST: u16 = 64;

const BETWEEN: [u16; 3] = [128, 256, 512];

const LARGEST: u16 = 1024;

// Measures a plan and prints its line.
fn show<R: AllocGlobal + Eprint + Clock>(
    make: Make,
    steps: u16,
    rt: &R,
) -> anyhow::Result<Figures> {
    let figures = Figures::measured(make, steps, rt)?;
    eprintln!(rt; "{figures}")?;
    Ok(figures)
}

fn show_all<R: AllocGlobal + Eprint + Clock>(make: Make, rt: &R) -> anyhow::Result<Growth> {
    let smaller = show(make, SMALLEST, rt)?;
    for steps in BETWEEN {
        show(make, steps, rt)?;
    }
    let larger = show(make, LARGEST, rt)?;
    Ok(Growth::new(smaller, larger))
}

fn main(rt: HostRuntime) -> anyhow::Result<()> {
    let mut growths = Vec::new(rt.alloc());
    for make in Make::ALL {
        growths.push(show_all(make, &rt)?)?;
    }
    for growth in &growths {
        eprintln!(rt; "{growth}")?;
    }
    Ok(())
}
