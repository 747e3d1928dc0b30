// The check of a file: the length, then the blocks in order, then the rows in order. It goes over the file once for the blocks
// and once for the rows.
ghost use Rattle.std.specs.Prelude.{◌≡◌, cond, Some, None, ◌+◌, ◌*◌, ◌/◌, ◌≤◌, length};
ghost use Rattle.layout.specs.Flow.{most_blocks, WithinLimits};
ghost use Rattle.layout.specs.Refusal.{first_at};
ghost use Rattle.layout.specs.Block.{blocks_for};
ghost use Rattle.layout.specs.File.{block_at, tasks_of, workers_of, cells_of, block_number, row_number, length_sound, file_answer};
ghost use Rattle.refusal.specs.Numbers.{met_by};
ghost use Rattle.file.specs.Answers.{answer_by};
ghost use Rattle.file.specs.Promises.{CheckPromise};

use block::{Block, Stated};
use flow::Flow;
use refusal::{Refusal, Rule, first_refused};

// The blocks in so many bytes; none where 1 refuses them.
// Kept: beside the writer's `whole_rows`: each says its own rule of the one function that both call.
fn whole_blocks(bytes: usize) -> Option<u32>
    ensures { result ≡ cond (length_sound bytes) (Some (bytes / 512)) None }
{
    octets::whole_parts(bytes, 512, Flow::MAX_BYTES)
}

// The block of a file at an index.
fn block_at(file: &[u8], index: u32) -> &Block
    requires { 512 * index + 512 ≤ length file.now }
    ensures { result.now ≡ block_at file.now index }
{
    octets::part_from(file, 512 * index as usize)
}

// The first refusal among the blocks.
fn blocks_met(file: &[u8], blocks: u32) -> Result<(), Refusal>
    requires whole { length file.now ≡ 512 * blocks }
    requires some_block { 1 ≤ blocks }
    requires few_blocks { blocks ≤ most_blocks }
    ensures { met_by result ≡ first_at (block_number file.now) 0 blocks }
{
    let first = Stated::of(file);
    let check = |index| block::check(block_at(file, index), index, blocks, first);
    first_refused(0, blocks, check)
}

// The first refusal among the rows. In a file of version 2 operation 6 is retired.
fn rows_met(file: &[u8]) -> Result<(), Refusal>
    requires whole { length file.now ≡ 512 * blocks_for (tasks_of file.now) }
    requires sizes_fit { WithinLimits (tasks_of file.now) (workers_of file.now) (cells_of file.now) }
    ensures { met_by result ≡ first_at (row_number file.now) 1 (tasks_of file.now) }
{
    let first = Stated::of(file);
    let retired = first.version == Flow::VERSION_2;
    let check = |task| {
        let row = rows::row_of(file, task);
        row::check(row, retired, first.workers, first.cells)
    };
    first_refused(1, first.tasks, check)
}

// The first refusal of a file, where it meets one.
pub fn accept(file: &[u8]) -> Result<(), Refusal>
    ensures { met_by result ≡ file_answer file.now }
{
    let blocks = whole_blocks(file.len()).ok_or(Rule::Length)?;
    blocks_met(file, blocks)?;
    rows_met(file)
}

// The check of a flow file: the flow's version and its sizes, or the first refusal met.
pub fn check(file: &[u8]) -> Result<Flow, Refusal>
    ensures { CheckPromise file.now (answer_by result) }
{
    accept(file)?;
    let first = Stated::of(file);
    Ok(Flow {
        version: first.version,
        tasks: first.tasks,
        workers: first.workers,
        cells: first.cells,
    })
}
