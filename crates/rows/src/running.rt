// The run of each row, from the depths of the rows.
ghost use Rattle.std.specs.Prelude.{◌≡◌, ◌+◌, ◌^◌, ◌<◌, map, length, IfOk};
ghost use Rattle.rows.specs.Orders.{depth_of};
ghost use Rattle.rows.specs.Runs.{RunAt, RunsFrom};

use crate::arranging::Record;
use lists::NoMemory;
use std::alloc::Global;

// The run of row `i`, if those of the rows after it are known: it goes on over the run of each row that is deeper.
fn run_at(records: &[Record], runs: &[u16], i: usize) -> usize
    requires within { i < length records.now }
    requires same { length runs.now ≡ length records.now }
    requires known { RunsFrom (map depth_of records.now) (i + 1) runs.now }
    ensures { RunAt (map depth_of records.now) i result }
{
    let depth = records[i].fragment.depth;
    let mut end = i + 1;
    // No iterator: each turn goes on by a whole run.
    while end < records.len() && records[end].fragment.depth > depth {
        end += runs[end] as usize;
    }
    end - i
}

pub fn runs(records: &[Record], heap: Global) -> Result<Vec<u16>, NoMemory>
    requires { length records.now < 2 ^ 16 }
    ensures { IfOk result (λ v. (length v.items ≡ length records.now) × RunsFrom (map depth_of records.now) 0 v.items) }
{
    let mut runs = vec![in heap; 0u16; records.len()]?;
    // By number, since the run of a row is counted from those after it in the vector that is written.
    for i in (0..records.len()).rev() {
        let run = run_at(records, runs.as_slice(), i);
        runs[i] = run as u16;
    }
    Ok(runs)
}
