// Sample plans with their classes, their rows and the innermost row of each step.
use crate::drawing::{Drawn, lines_left, table_of, text_of};
use book::Book;
use model::{LinkNo, RowNo, StepNo};
use plan::Turned;
use std::alloc::Global;
use std::process::Abort;
use std::test::Fail;

struct Sample {
    plan: Drawn,
    turned: bool,
    classes: &'static [u16],
    lines: &'static str,
    homes: &'static [u16],
}

const FORK_LINKS: &[(u16, u16)] = &[(0, 1), (1, 2), (2, 4), (1, 3), (3, 4), (4, 5)];

pub const FORK: Drawn = Drawn {
    links: FORK_LINKS,
    steps: 6,
    all: &[],
};

pub const RING: Drawn = Drawn {
    links: &[(0, 1), (1, 2), (2, 3), (3, 4), (4, 1), (3, 5)],
    steps: 6,
    all: &[],
};

const SAMPLES: [Sample; 12] = [
    Sample {
        plan: Drawn {
            links: &[(0, 1)],
            steps: 2,
            all: &[],
        },
        turned: false,
        classes: &[0],
        lines: "0 - whole - - 2\n",
        homes: &[0, 0],
    },
    Sample {
        plan: Drawn {
            links: &[(0, 1), (0, 1)],
            steps: 2,
            all: &[],
        },
        turned: false,
        classes: &[0, 1],
        lines: "0 - whole - - 2\n",
        homes: &[0, 0],
    },
    Sample {
        plan: Drawn {
            links: &[(0, 1), (1, 2)],
            steps: 3,
            all: &[],
        },
        turned: false,
        classes: &[0, 0],
        lines: "0 - whole - - 3\n1 0 single 0 1 1\n",
        homes: &[0, 1, 0],
    },
    // The pair (0, 2) has link 1 between, and is no row.
    Sample {
        plan: Drawn {
            links: &[(0, 1), (1, 2), (2, 3)],
            steps: 4,
            all: &[],
        },
        turned: false,
        classes: &[0, 0, 0],
        lines: "0 - whole - - 4\n1 0 single 0 1 1\n2 0 single 1 2 1\n",
        homes: &[0, 1, 2, 0],
    },
    Sample {
        plan: FORK,
        turned: false,
        classes: &[0, 1, 1, 3, 3, 0],
        lines: "0 - whole - - 6\n1 0 choice 0 5 4\n2 1 single 1 2 1\n3 1 single 3 4 1\n",
        homes: &[0, 1, 2, 3, 1, 0],
    },
    // With both branching steps `all`, and with one of them.
    Sample {
        plan: Drawn {
            links: FORK_LINKS,
            steps: 6,
            all: &[1, 4],
        },
        turned: false,
        classes: &[0, 1, 1, 3, 3, 0],
        lines: "0 - whole - - 6\n1 0 parallel 0 5 4\n2 1 single 1 2 1\n3 1 single 3 4 1\n",
        homes: &[0, 1, 2, 3, 1, 0],
    },
    Sample {
        plan: Drawn {
            links: FORK_LINKS,
            steps: 6,
            all: &[4],
        },
        turned: true,
        classes: &[0, 1, 1, 3, 3, 0],
        lines: "0 - whole - - 6\n1 0 mixed 5 0 4\n2 1 single 2 1 1\n3 1 single 4 3 1\n",
        homes: &[0, 1, 2, 3, 1, 0],
    },
    // Step 4 comes after link 1, and is not inside (1, 2).
    Sample {
        plan: RING,
        turned: false,
        classes: &[0, 1, 1, 3, 3, 0],
        lines: "0 - whole - - 6\n1 0 loop 0 5 4\n2 1 single 1 2 1\n3 1 single 3 4 1\n",
        homes: &[0, 1, 2, 1, 3, 0],
    },
    Sample {
        plan: Drawn {
            links: &[(0, 1), (1, 1), (1, 2)],
            steps: 3,
            all: &[],
        },
        turned: false,
        classes: &[0, 1, 0],
        lines: "0 - whole - - 3\n1 0 loop 0 2 1\n",
        homes: &[0, 1, 0],
    },
    Sample {
        plan: Drawn {
            links: &[(0, 1), (1, 1), (1, 2)],
            steps: 3,
            all: &[1],
        },
        turned: false,
        classes: &[0, 1, 0],
        lines: "0 - whole - - 3\n1 0 mesh-all 0 2 1\n",
        homes: &[0, 1, 0],
    },
    Sample {
        plan: RING,
        turned: true,
        classes: &[0, 1, 1, 3, 3, 0],
        lines: "0 - whole - - 6\n1 0 loop 5 0 4\n2 1 single 2 1 1\n3 1 single 4 3 1\n",
        homes: &[0, 1, 2, 1, 3, 0],
    },
    Sample {
        plan: Drawn {
            links: &[(0, 1), (1, 2), (2, 1), (1, 3), (3, 1), (1, 4)],
            steps: 5,
            all: &[],
        },
        turned: false,
        classes: &[0, 1, 1, 3, 3, 0],
        lines: "0 - whole - - 5\n1 0 loop 0 5 3\n2 1 single 1 2 1\n3 1 single 3 4 1\n",
        homes: &[0, 1, 2, 3, 0],
    },
];

fn opened(sample: &Sample, heap: Global) -> Result<Book, Fail> {
    let table = table_of(&text_of(sample.plan, heap)?, heap)?;
    let mut book = Book::new(heap)?;
    if sample.turned {
        book.open(&Turned::new(table))?;
    } else {
        book.open(&table)?;
    }
    Ok(book)
}

fn check_numbers(rt: &impl Abort, book: &mut Book, sample: &Sample) -> Result<(), Fail> {
    for (link, class) in (0..).map(LinkNo).zip(sample.classes) {
        assert_eq!(rt; book.class(link)?, LinkNo(*class), "{}", sample.lines);
    }
    for (step, home) in (0..).map(StepNo).zip(sample.homes) {
        assert_eq!(rt; book.find(step)?, RowNo(*home), "{}", sample.lines);
    }
    Ok(())
}

#[test]
fn samples(rt: HostRuntime) -> Result<(), Fail> {
    let heap = rt.alloc();
    for sample in SAMPLES.iter() {
        let mut book = opened(sample, heap)?;
        check_numbers(&rt, &mut book, sample)?;
        let lines = lines_left(&mut book, heap)?;
        assert!(rt;
            lines.as_slice() == sample.lines.as_bytes(),
            "{}",
            sample.lines
        );
        assert!(rt; book.next().is_none(), "after the last row");
        book.restart();
        let again = lines_left(&mut book, heap)?;
        assert!(rt;
            again.as_slice() == sample.lines.as_bytes(),
            "{}",
            sample.lines
        );
    }
    Ok(())
}
