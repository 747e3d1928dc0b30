// The reader: a file's rows, one after another, into lent bytes. It takes every input, and answers with the flow's version and sizes or with 01's
// number and place.
#![tactic(auto)]

ghost use Rattle.std.specs.Prelude.{◌≡◌, ◌++◌, ◌+◌, ◌*◌, ◌≤◌, length, drop};
ghost use Rattle.layout.specs.Lists.{each, joined};
ghost use Rattle.layout.specs.Flow.{most_tasks};
ghost use Rattle.layout.specs.Block.{blocks_for};
ghost use Rattle.layout.specs.File.{row_at};
ghost use Rattle.reader.specs.Answers.{answer_by};
ghost use Rattle.reader.specs.Promises.{ReadPromise};

use flow::Flow;
use refusal::{Refusal, Rule};

// Copies the rows of an accepted file.
fn copy_rows(file: &[u8], rows: &mut [u8], tasks: u32)
    requires whole { length file.now ≡ 512 * blocks_for tasks }
    requires few_tasks { tasks ≤ most_tasks }
    requires room { 48 * tasks ≤ length rows.old }
    ensures { rows.new ≡ joined (row_at file.now) (each tasks (λ i. i + 1)) ++ drop (48 * tasks) rows.old }
{
    for done in 0..tasks {
        let to = 48 * done as usize;
        rows[to..to + 48].copy_from_slice(rows::row_of(file, done + 1));
    }
}

// Reads a file into lent rows: the flow whose rows were written, 48 bytes a task, or a refusal that changes no byte.
pub fn read(file: &[u8], rows: &mut [u8]) -> Result<Flow, Refusal>
    ensures { ReadPromise file.now rows.old (answer_by result) rows.new }
{
    let flow = file::check(file)?;
    if rows.len() < 48 * flow.tasks as usize {
        return Err(Rule::Room.into());
    }
    copy_rows(file, rows, flow.tasks);
    Ok(flow)
}
