// The private counters. They are updated in one place, `note`.
#![tactic(auto)]

ghost use Rattle.std.specs.Prelude.{◌≡◌, [], ℕ, ◌+◌, ◌<◌, ◌≤◌, get_or};
ghost use Rattle.layout.specs.Flow.{most_workers, most_cells, most_accesses};
ghost use Rattle.layout.specs.Row.{access_at, task_of};
ghost use Rattle.arrays.specs.Arrays.{counter_at, noted, noted_all, most_reads};

use arrays::{AllCounters, Counter};
use rows::{Row, access_at};

// One counter of a worker's row: a write sets it, a read adds 1 to its reads.
pub fn note(private: &mut AllCounters, w: usize, cell: usize, write: bool, number: u32)
    requires { (w < most_workers) × (cell < most_cells) × ((counter_at (get_or «private».old w []) cell).reads < 4294967295) }
    ensures { «private».new ≡ noted «private».old w cell write number }
{
    if write {
        private[w][cell] = Counter {
            last_write: number,
            reads: 0,
        };
    } else {
        private[w][cell].reads += 1;
    }
}

// A task of another owner: each of its accesses is registered in the worker's row.
pub fn register(row: &Row, w: usize, number: u32, private: &mut AllCounters)
    requires few_accesses { (get_or row.now 1 0 ≤ most_accesses) × (w < most_workers) }
    requires cells_within { (j : ℕ) → j < get_or row.now 1 0 → (access_at row.now j).cell < most_cells }
    requires reads_within { (c : ℕ) → (counter_at (get_or «private».old w []) c).reads ≤ most_reads }
    ensures { «private».new ≡ noted_all «private».old w number (task_of row.now).accesses }
{
    for j in 0..usize::from(row[1]) {
        let access = access_at(row, j);
        note(
            private,
            w,
            usize::from(access.cell),
            access.is_write(),
            number,
        );
    }
}
