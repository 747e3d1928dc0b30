// The flow's own kind: its versions and limits, which all code reads from here, and the version and sizes of one flow within them.
#![tactic(auto)]

ghost use Rattle.std.specs.Prelude.{◌≡◌, ◌+◌, ◌*◌, ◌<◌, ◌≤◌};
ghost use Rattle.layout.specs.Bytes.{word_size};
ghost use Rattle.layout.specs.Flow.{known_version, in_range, most_tasks, most_workers, most_cells};
ghost use Rattle.layout.specs.Block.{blocks_for, rows_in};

use refusal::Rule;

// A flow's version, and its sizes: the numbers of tasks, workers and cells. Each has room where a block or a run keeps it.
#[derive(Clone, Copy, Debug, PartialEq, Eq)]
pub struct Flow {
    pub version: u32,
    pub tasks: u32,
    pub workers: u32,
    pub cells: u32,
    ghost version_fits: { version < 256 },
    ghost tasks_fit: { tasks ≤ most_tasks },
    ghost workers_fit: { workers ≤ most_workers },
    ghost cells_fit: { cells ≤ most_cells },
}

impl Flow {
    ghost use Rattle.flow.specs.Made.{stated_by, asked_for};

    // Operation 5 clears the high half in version 1, and keeps the high half of b in version 2.
    pub const VERSION_1: u32 = 1;

    pub const VERSION_2: u32 = 2;

    pub const MAX_TASKS: u32 = 200;

    pub const MAX_WORKERS: u32 = 8;

    pub const MAX_CELLS: u32 = 32;

    pub const MAX_ACCESSES: u8 = 4;

    pub const MAX_OPERATIONS: u8 = 6;

    pub const MAX_BLOCKS: usize = 20;

    pub const MAX_SCHEDULE: usize = 65536;

    // The bytes of the longest file.
    pub const MAX_BYTES: usize = 512 * Flow::MAX_BLOCKS;

    // The bytes of the most rows.
    pub const MAX_ROW_BYTES: usize = 48 * Flow::MAX_TASKS as usize;

    // The lengths of arrays with a place for each worker or cell that a flow can have.
    pub const ROOM_FOR_WORKERS: usize = Flow::MAX_WORKERS as usize;

    pub const ROOM_FOR_CELLS: usize = Flow::MAX_CELLS as usize;

    // A flow of this version and these sizes, refused where the version is another, and then where a size is outside the limits.
    pub fn new(version: u32, tasks: u32, workers: u32, cells: u32) -> Result<Flow, Rule>
        ensures { stated_by result ≡ asked_for version tasks workers cells }
    {
        if !known(version) {
            return Err(Rule::Version);
        }
        if !within(tasks, workers, cells) {
            return Err(Rule::Sizes);
        }
        Ok(Flow {
            version,
            tasks,
            workers,
            cells,
        })
    }
}

// Whether there are flows of this version.
pub fn known(version: u32) -> bool
    ensures { result ≡ known_version version }
{
    matches!(version, Flow::VERSION_1 | Flow::VERSION_2)
}

// Whether there can be a flow of these sizes.
pub fn within(tasks: u32, workers: u32, cells: u32) -> bool
    ensures { result ≡ in_range tasks workers cells }
{
    matches!(tasks, 1..=Flow::MAX_TASKS)
        & matches!(workers, 1..=Flow::MAX_WORKERS)
        & matches!(cells, 1..=Flow::MAX_CELLS)
}

// The fewest blocks for so many tasks.
pub fn blocks_for(tasks: u32) -> u32
    requires { tasks < word_size }
    ensures { result ≡ blocks_for tasks }
{
    (tasks + 9) / 10
}

// The rows in one block of a flow of so many tasks.
// Kept: that the block's number fits two bytes is asked here and by the check of a block, which take it from a file that may have any.
pub fn rows_in(tasks: u32, index: u32) -> u32
    requires { index < word_size }
    ensures { result ≡ rows_in tasks index }
{
    tasks.saturating_sub(10 * index).min(10)
}
