// What is measured of a plan, and how it grows.
use crate::makes::Make;
use anyhow::anyhow;
use book::Book;
use plan::{GatewayTable, Plan};
use std::fmt;
use std::rt::Clock;
use std::time::{Duration, Instant};

const REPETITIONS: u32 = 200;

// The least time that the work took, which is the one that other programs disturbed least.
fn least<R: Clock, F: FnMut() -> anyhow::Result<()>>(
    rt: &R,
    mut work: F,
) -> anyhow::Result<Duration>
    requires { F.IsAlwaysCallable work }
{
    let mut least = Duration::MAX;
    for _ in 0..REPETITIONS {
        let start = Instant::now(rt)?;
        work()?;
        least = least.min(start.elapsed(rt)?);
    }
    Ok(least)
}

// How long one link took: to read the text of the plan into a table, and to open a book over the table.
#[derive(Clone, Copy)]
pub struct Figures {
    make: Make,
    steps: u16,
    links: u16,
    reading: Duration,
    opening: Duration,
}

impl Figures {
    pub fn measured<R: AllocGlobal + Clock>(
        make: Make,
        steps: u16,
        rt: &R,
    ) -> anyhow::Result<Figures> {
        let heap = rt.alloc();
        let text = make.text(steps, heap)?;
        let mut table = GatewayTable::new(heap)?;
        let reading = least(rt, || {
            table
                .read(text.as_bytes())
                .map_err(|fault| anyhow!("the text is turned away: {fault:?}"))
        })?;
        let mut book = Book::new(heap).map_err(|_| anyhow!("no memory for a book"))?;
        let opening = least(rt, || {
            book.open(&table)
                .map_err(|fault| anyhow!("the book does not open: {fault:?}"))
        })?;
        let links = table.link_count();
        Ok(Figures {
            make,
            steps: table.step_count(),
            links,
            reading: reading / u32::from(links),
            opening: opening / u32::from(links),
        })
    }
}

impl fmt::Display for Figures {
    fn fmt<W: fmt::Write>(&self, f: &mut fmt::Formatter<W>) -> fmt::Result {
        let Figures {
            make,
            steps,
            links,
            ..
        } = self;
        let reading = self.reading.as_nanos();
        let opening = self.opening.as_nanos();
        write!(
            f,
            "{make:<6} {steps:>5} steps {links:>5} links   ns a link: {reading:>5} to read, {opening:>5} to open"
        )
    }
}

// A smaller and a larger plan of one make: where the time is linear, a link takes about as long in both.
#[derive(Clone, Copy)]
pub struct Growth {
    smaller: Figures,
    larger: Figures,
}

impl Growth {
    pub fn new(smaller: Figures, larger: Figures) -> Growth {
        Growth { smaller, larger }
    }
}

impl fmt::Display for Growth {
    fn fmt<W: fmt::Write>(&self, f: &mut fmt::Formatter<W>) -> fmt::Result {
        let Growth { smaller, larger } = self;
        let reading = larger.reading.div_duration_f64(smaller.reading);
        let opening = larger.opening.div_duration_f64(smaller.opening);
        write!(
            f,
            "{:<6} time a link at {} steps to that at {}: {reading:.2} to read, {opening:.2} to open",
            larger.make, larger.steps, smaller.steps
        )
    }
}
