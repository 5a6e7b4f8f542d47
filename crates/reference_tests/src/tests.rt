use model::{Ends, Kind, LinkNo, Logic, Row, RowNo, StepNo};
use reference::{Listing, Sketch};
use std::alloc::{AllocError, Global};
use std::process::Abort;
use std::test::Fail;

// A plan by its links as tail and head, with its classes and the rows after row 0. The plans stand in `samples` too: the two crates test two programs that are to share nothing.
// The first step is 0 and the last the highest; the logic of each step is `one` but of those named.
struct Sample {
    links: &'static [(u16, u16)],
    steps: u16,
    all: &'static [u16],
    turned: bool,
    classes: &'static [u16],
    rows: &'static [Shown],
}

// Parent, kind, entry, exit and how many steps are inside, by place, so that a row stands on one line as in a listing.
#[derive(Clone, Copy)]
struct Shown(u16, Kind, u16, u16, u16);

const FORK: &[(u16, u16)] = &[(0, 1), (1, 2), (2, 4), (1, 3), (3, 4), (4, 5)];

const RING: &[(u16, u16)] = &[(0, 1), (1, 2), (2, 3), (3, 4), (4, 1), (3, 5)];

const SAMPLES: [Sample; 10] = [
    Sample {
        links: &[(0, 1)],
        steps: 2,
        all: &[],
        turned: false,
        classes: &[0],
        rows: &[],
    },
    Sample {
        links: &[(0, 1), (0, 1)],
        steps: 2,
        all: &[],
        turned: false,
        classes: &[0, 1],
        rows: &[],
    },
    Sample {
        links: &[(0, 1), (1, 2)],
        steps: 3,
        all: &[],
        turned: false,
        classes: &[0, 0],
        rows: &[Shown(0, Kind::Single, 0, 1, 1)],
    },
    Sample {
        links: &[(0, 1), (1, 2), (2, 3)],
        steps: 4,
        all: &[],
        turned: false,
        classes: &[0, 0, 0],
        rows: &[
            Shown(0, Kind::Single, 0, 1, 1),
            Shown(0, Kind::Single, 1, 2, 1),
        ],
    },
    Sample {
        links: FORK,
        steps: 6,
        all: &[],
        turned: false,
        classes: &[0, 1, 1, 3, 3, 0],
        rows: &[
            Shown(0, Kind::Choice, 0, 5, 4),
            Shown(1, Kind::Single, 1, 2, 1),
            Shown(1, Kind::Single, 3, 4, 1),
        ],
    },
    Sample {
        links: RING,
        steps: 6,
        all: &[],
        turned: false,
        classes: &[0, 1, 1, 3, 3, 0],
        rows: &[
            Shown(0, Kind::Loop, 0, 5, 4),
            Shown(1, Kind::Single, 1, 2, 1),
            Shown(1, Kind::Single, 3, 4, 1),
        ],
    },
    Sample {
        links: &[(0, 1), (1, 1), (1, 2)],
        steps: 3,
        all: &[],
        turned: false,
        classes: &[0, 1, 0],
        rows: &[Shown(0, Kind::Loop, 0, 2, 1)],
    },
    Sample {
        links: &[(0, 1), (1, 1), (1, 2)],
        steps: 3,
        all: &[1],
        turned: false,
        classes: &[0, 1, 0],
        rows: &[Shown(0, Kind::MeshAll, 0, 2, 1)],
    },
    Sample {
        links: RING,
        steps: 6,
        all: &[],
        turned: true,
        classes: &[0, 1, 1, 3, 3, 0],
        rows: &[
            Shown(0, Kind::Loop, 5, 0, 4),
            Shown(1, Kind::Single, 2, 1, 1),
            Shown(1, Kind::Single, 4, 3, 1),
        ],
    },
    Sample {
        links: &[(0, 1), (1, 2), (2, 1), (1, 3), (3, 1), (1, 4)],
        steps: 5,
        all: &[],
        turned: false,
        classes: &[0, 1, 1, 3, 3, 0],
        rows: &[
            Shown(0, Kind::Loop, 0, 5, 3),
            Shown(1, Kind::Single, 1, 2, 1),
            Shown(1, Kind::Single, 3, 4, 1),
        ],
    },
];

fn sketch_of(sample: &Sample, heap: Global) -> Result<Option<Sketch>, AllocError> {
    let links = sample
        .links
        .iter()
        .map(|(tail, head)| Ends {
            tail: StepNo(*tail),
            head: StepNo(*head),
        })
        .collect(heap)?;
    let logics = (0..sample.steps)
        .map(|step| {
            if sample.all.contains(&step) {
                Logic::All
            } else {
                Logic::One
            }
        })
        .collect(heap)?;
    let last = StepNo(sample.steps.saturating_sub(1));
    let Some(sketch) = Sketch::new(links, logics, StepNo(0), last) else {
        return Ok(None);
    };
    Ok(Some(if sample.turned {
        sketch.turned(heap)?
    } else {
        sketch
    }))
}

// The row of this number that the sample shows.
fn shown_row(shown: Shown, number: u16) -> Row {
    let Shown(parent, kind, entry, exit, inside) = shown;
    Row {
        number: RowNo(number),
        parent: Some(RowNo(parent)),
        kind,
        entry: Some(LinkNo(entry)),
        exit: Some(LinkNo(exit)),
        inside,
    }
}

fn check_rows(rt: &impl Abort, listing: &Listing, rows: &[Shown]) {
    assert_eq!(rt; listing.rows.len(), rows.len().saturating_add(1));
    for (number, (listed, shown)) in (1..).zip(listing.rows.iter().skip(1).zip(rows)) {
        assert_eq!(rt; listed.row, shown_row(*shown, number));
    }
}

fn check_classes(rt: &impl Abort, listing: &Listing, names: &[u16]) {
    assert_eq!(rt; listing.classes.len(), names.len());
    for (class, name) in listing.classes.iter().zip(names) {
        assert_eq!(rt; *class, LinkNo(*name));
    }
}

#[test]
fn samples(rt: HostRuntime) -> Result<(), Fail> {
    let heap = rt.alloc();
    for sample in SAMPLES.iter() {
        let sketch = sketch_of(sample, heap)?.ok_or("no sketch")?;
        assert!(rt; sketch.sound(heap)?);
        let listing = Listing::new(&sketch, heap)?;
        check_classes(&rt, &listing, sample.classes);
        check_rows(&rt, &listing, sample.rows);
    }
    Ok(())
}
