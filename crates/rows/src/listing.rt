// The rows of a plan, all together.
ghost use Rattle.std.specs.Prelude.{◌≡◌, ◌^◌, ◌<◌, ◌≤◌, map, length, IfOk};
ghost use Rattle.std.specs.List.{All};
ghost use Rattle.rows.specs.Bounds.{AllBelow};
ghost use Rattle.rows.specs.Listed.{row_by};
ghost use Rattle.rows.specs.Nests.{entry_of, exit_of, LinkIn, SiteIn};
ghost use Rattle.rows.specs.Orders.{Known};
ghost use Rattle.rows.specs.Runs.{NestedRuns};
ghost use Rattle.rows.specs.declared.listing.RowRun.{RowRun};

use crate::arranging::{Table, tabulate};
use crate::classing::Classed;
use crate::counting::{Degree, degrees};
use crate::kinding::kind_of;
use crate::nesting::{Fragment, Nesting, nest};
use crate::pairing::exits;
use crate::running::runs;
use lists::NoMemory;
use model::{Kind, Row, RowNo};
use std::alloc::Global;

// A row, and how many rows its run has.
#[derive(Clone, Copy)]
pub struct RowRun {
    pub row: Row,
    pub run: u16,
}

// The rows in their order with their runs, and for each step the row of the innermost fragment that it is inside.
#[derive(Drop)]
pub struct Arranged {
    pub rows: Vec<RowRun>,
    pub homes: Vec<RowNo>,
}

impl Nesting {
    // For each step, the row of its innermost fragment.
    fn homes(&self, row_of: &[u16], heap: Global) -> Result<Vec<RowNo>, NoMemory>
        requires { length row_of.now ≡ length self.now.fragments.items }
        ensures { IfOk result (λ v. length v.items ≡ length self.now.homes.items) }
    {
        let homes = self
            .homes
            .iter()
            .map(|home| RowNo(row_of[*home as usize]))
            .collect(heap)?;
        Ok(homes)
    }
}

impl Classed<'_> {
    // The row of a fragment: its kind by the steps that its entry leads to and that its exit leaves.
    fn row(&self, number: RowNo, fragment: Fragment, row_of: &[u16], degrees: &[Degree]) -> Row
        requires site { SiteIn (length row_of.now) fragment }
        requires entry { LinkIn entry_of (length self.now.links.now) fragment }
        requires exit { LinkIn exit_of (length self.now.links.now) fragment }
        requires degrees { length degrees.now ≡ length self.now.logics.now }
        ensures { result ≡ row_by self.now.links.now degrees.now row_of.now number fragment }
    {
        let Some(site) = fragment.site else {
            return Row {
                number,
                parent: None,
                kind: Kind::Whole,
                entry: None,
                exit: None,
                inside: fragment.inside,
            };
        };
        let head = self.links[site.entry.0 as usize].head;
        let tail = self.links[site.exit.0 as usize].tail;
        Row {
            number,
            parent: Some(RowNo(row_of[site.parent as usize])),
            kind: kind_of(
                fragment.own,
                degrees[head.0 as usize],
                degrees[tail.0 as usize],
            ),
            entry: Some(site.entry),
            exit: Some(site.exit),
            inside: fragment.inside,
        }
    }

    // The rows of a table, each with its run.
    fn rows(
        &self,
        table: &Table,
        runs: &[u16],
        degrees: &[Degree],
        heap: Global,
    ) -> Result<Vec<RowRun>, NoMemory>
        requires few { length table.now.records.items < 2 ^ 16 }
        requires known { All (Known (length self.now.links.now) (length table.now.row_of.items)) table.now.records.items }
        requires runs { length runs.now ≡ length table.now.records.items }
        requires degrees { length degrees.now ≡ length self.now.logics.now }
        ensures { IfOk result (λ v. map (λ (r : RowRun). r.run) v.items ≡ runs.now) }
    {
        let mut rows = Vec::new(heap);
        for (record, run) in table.records.iter().zip(runs) {
            let number = RowNo(rows.len() as u16);
            let row = self.row(number, record.fragment, table.row_of.as_slice(), degrees);
            rows.push(RowRun { row, run: *run })?;
        }
        Ok(rows)
    }

    // The rows of the plan.
    pub fn arrange(&self, heap: Global) -> Result<Arranged, NoMemory>
        ensures { IfOk result (λ t. NestedRuns (map (λ (r : RowRun). r.run) t.rows.items) × (length t.homes.items ≡ length self.now.logics.now) × (length t.rows.items < 2 ^ 16)) }
    {
        let exits = exits(self.order, self.classes, heap)?;
        let mut nesting = nest(
            self.links,
            self.logics.len(),
            self.order,
            exits.as_slice(),
            heap,
        )?;
        let degrees = degrees(self.links, self.logics.len(), heap)?;
        nesting.count(self.logics, degrees.as_slice());
        let table = tabulate(nesting.in_order(heap)?, heap)?;
        let runs = runs(table.records.as_slice(), heap)?;
        let rows = self.rows(&table, runs.as_slice(), degrees.as_slice(), heap)?;
        let homes = nesting.homes(table.row_of.as_slice(), heap)?;
        Ok(Arranged { rows, homes })
    }
}
