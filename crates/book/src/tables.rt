// The rows with their runs and holders. Any two runs are apart, or one lies within the other: that is in the type.
ghost use Rattle.std.specs.Prelude.{◌≡◌, ◌+◌, ◌^◌, ◌<◌, ◌≤◌, map, length, IfOk, MatchOption, slice_index};
ghost use Rattle.std.specs.List.{slice_get};
ghost use Rattle.rows.specs.Runs.{NestedRuns};
ghost use Rattle.rows.specs.declared.listing.RowRun.{RowRun};
ghost use Rattle.book.specs.Tables.{rows_in, runs_in, entry_of};

use lists::NoMemory;
use model::Row;
use rows::RowRun;
use std::alloc::Global;
use std::ops::Range;

// A row, how many rows its run has, and who holds it while it is out.
#[derive(Clone, Copy)]
pub(crate) struct Entry {
    pub(crate) row: Row,
    pub(crate) run: u16,
    pub(crate) holder: Option<u16>,
}

// The rows with their runs, none of them out.
fn entries(rows: &[RowRun], heap: Global) -> Result<Vec<Entry>, NoMemory>
    ensures { IfOk result (λ v. v.items ≡ map entry_of rows.now) }
{
    let entries = rows
        .iter()
        .map(|&RowRun { row, run }| Entry {
            row,
            run,
            holder: None,
        })
        .collect(heap)?;
    Ok(entries)
}

// The rows in their order.
#[derive(Drop)]
pub(crate) struct Table {
    pub(crate) entries: Vec<Entry>,
    ghost few: { length entries.items < 2 ^ 16 },
    ghost nested: { NestedRuns (runs_in entries.items) },
}

impl Table {
    // The rows with no row out.
    pub(crate) fn new(rows: &[RowRun], heap: Global) -> Result<Table, NoMemory>
        requires few { length rows.now < 2 ^ 16 }
        requires nested { NestedRuns (map (λ (r : RowRun). r.run) rows.now) }
        ensures { IfOk result (λ t. t.entries.items ≡ map entry_of rows.now) }
    {
        let entries = entries(rows, heap)?;
        Ok(Table { entries })
    }

    // The row at `at`, if there is one.
    pub(crate) fn row(&self, at: u16) -> Option<Row>
        ensures { result ≡ slice_get (rows_in self.now.entries.items) at }
    {
        self.entries.get(at as usize).map(|entry| entry.row)
    }

    // The run of the row at `at`, if there is one: it begins with the row itself.
    #[tactic(auto, using(crate::proofs::Entries::run_within))]
    pub(crate) fn run(&self, at: u16) -> Option<Range<u16>>
        ensures { MatchOption result (length self.now.entries.items ≤ at) (λ r. (at < length self.now.entries.items) × (r.start ≡ at) × (r.end ≡ at + slice_index (runs_in self.now.entries.items) at)) }
    {
        let entry = self.entries.get(at as usize)?;
        Some(at..at + entry.run)
    }
}
