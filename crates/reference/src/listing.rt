// Kinds, the order of rows, and the listing.
use crate::fragments::{Fragment, fragments, own_steps, parent};
use crate::sets::StepSet;
use crate::sketch::Sketch;
use crate::walks::Walks;
use model::{Kind, LinkNo, Logic, Row, RowNo, StepNo};
use std::alloc::{AllocError, Global};

// What the kinds ask of the steps of a plan.
#[derive(Clone, Copy, PartialEq, Eq, Debug)]
struct Marks {
    ones: StepSet,
    alls: StepSet,
    branch: StepSet,
    open: StepSet,
    close: StepSet,
}

impl Marks {
    fn new(sketch: &Sketch, heap: Global) -> Result<Marks, AllocError> {
        let back = sketch.turned(heap)?;
        let joins = sketch.entered(2);
        let forks = back.entered(2);
        Ok(Marks {
            ones: sketch.of_logic(Logic::One),
            alls: sketch.of_logic(Logic::All),
            branch: joins | forks,
            open: (sketch.entered(1) - joins) & forks,
            close: (back.entered(1) - forks) & joins,
        })
    }

    // The first kind of the table that fits.
    fn kind(&self, fragment: Fragment, own: StepSet) -> Kind {
        let branching = own & self.branch;
        let two = own.count() == 2;
        let opens = self.open.has(fragment.begin) && self.close.has(fragment.end);
        let closes = self.close.has(fragment.begin) && self.open.has(fragment.end);
        if branching.is_empty() {
            Kind::Single
        } else if two && self.ones.holds(own) && opens {
            Kind::Choice
        } else if two && self.alls.holds(own) && opens {
            Kind::Parallel
        } else if two && self.ones.holds(own) && closes {
            Kind::Loop
        } else if own.count() == 1 && self.ones.holds(own) {
            Kind::Loop
        } else if self.ones.holds(branching) {
            Kind::MeshOne
        } else if self.alls.holds(branching) {
            Kind::MeshAll
        } else {
            Kind::Mixed
        }
    }
}

// A fragment and the place of its parent, none where that is the whole plan.
#[derive(Clone, Copy, PartialEq, Eq, Debug)]
struct Nested {
    fragment: Fragment,
    parent: Option<usize>,
}

fn with_parents(fragments: &[Fragment], heap: Global) -> Result<Vec<Nested>, AllocError> {
    fragments
        .iter()
        .enumerate()
        .map(|(place, fragment)| Nested {
            fragment: *fragment,
            parent: parent(fragments, place),
        })
        .collect(heap)
}

// The places of the fragments, each followed by those below it, by rising entry under one parent.
fn depth_first(all: &[Nested], heap: Global) -> Result<Vec<usize>, AllocError> {
    let mut order = Vec::new(heap);
    let mut stack = Vec::new(heap);
    push_children(&mut stack, all, None)?;
    // Each fragment has one parent, so it is put on the stack at most once: a `for` over the fragments is as plain as a `while let`, and says how many turns there are.
    for _ in all {
        let Some(place) = stack.pop() else {
            break;
        };
        order.push(place)?;
        push_children(&mut stack, all, Some(place))?;
    }
    Ok(order)
}

// The first child comes to lie on top.
fn push_children(
    stack: &mut Vec<usize>,
    all: &[Nested],
    of: Option<usize>,
) -> Result<(), AllocError> {
    stack.extend(
        all.iter()
            .enumerate()
            .rev()
            .filter(|(_, below)| below.parent == of)
            .map(|(place, _)| place),
    )
}

// The row of the fragment, or row 0 of none: the rows are numbered in this order, after row 0.
fn row_of(order: &[usize], fragment: Option<usize>) -> RowNo {
    (1..)
        .map(RowNo)
        .zip(order)
        .find(|(_, place)| Some(**place) == fragment)
        .map_or(RowNo(0), |(number, _)| number)
}

// A row, and the steps inside it.
#[derive(Clone, Copy, PartialEq, Eq, Debug)]
pub struct Listed {
    pub row: Row,
    pub inside: StepSet,
}

#[derive(Drop)]
pub struct Listing {
    pub steps: u16,
    pub classes: Vec<LinkNo>,
    pub rows: Vec<Listed>,
}

impl Listing {
    pub fn new(sketch: &Sketch, heap: Global) -> Result<Listing, AllocError> {
        let walks = Walks::new(sketch, heap)?;
        let all = fragments(&walks, heap)?;
        let nested = with_parents(&all, heap)?;
        let order = depth_first(&nested, heap)?;
        let marks = Marks::new(sketch, heap)?;
        let mut rows = vec![in heap; whole(sketch)]?;
        for (number, place) in (1..).map(RowNo).zip(&order) {
            let Some(Nested { fragment, parent }) = nested.get(*place).copied() else {
                continue;
            };
            let row = Row {
                number,
                parent: Some(row_of(&order, parent)),
                kind: marks.kind(fragment, own_steps(&all, fragment)),
                entry: Some(fragment.entry),
                exit: Some(fragment.exit),
                inside: fragment.inside.count(),
            };
            rows.push(Listed {
                row,
                inside: fragment.inside,
            })?;
        }
        Ok(Listing {
            steps: sketch.steps,
            classes: classes(&walks, heap)?,
            rows,
        })
    }

    // The row of fewest steps that the step is inside.
    pub fn home(&self, step: StepNo) -> RowNo {
        // Of two rows with the same steps the one further down is the innermost.
        self.rows
            .iter()
            .rev()
            .filter(|listed| listed.inside.has(step))
            .min_by_key(|listed| listed.inside.count())
            .map_or(RowNo(0), |listed| listed.row.number)
    }
}

// Row 0.
fn whole(sketch: &Sketch) -> Listed {
    let row = Row {
        number: RowNo(0),
        parent: None,
        kind: Kind::Whole,
        entry: None,
        exit: None,
        inside: sketch.steps,
    };
    Listed {
        row,
        inside: StepSet::below(sketch.steps),
    }
}

fn classes(walks: &Walks, heap: Global) -> Result<Vec<LinkNo>, AllocError> {
    (0..walks.sketch.link_count())
        .map(|link| walks.class(LinkNo(link)))
        .collect(heap)
}
