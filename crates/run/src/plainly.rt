// The plain run: the tasks one after another.
ghost use Rattle.std.specs.Prelude.{◌≡◌, length};
ghost use Rattle.layout.specs.Row.{task_of};
ghost use Rattle.layout.specs.File.{tasks_in};
ghost use Rattle.steps.specs.Operations.{effect};
ghost use Rattle.steps.specs.Plain.{after_operations, after_tasks};
ghost use Rattle.arrays.specs.Ready.{RowFits};
ghost use Rattle.run.specs.Answers.{plain_by};
ghost use Rattle.run.specs.Promises.{PlainPromise};

use arrays::Tasks;
use refusal::{Refusal, Rule};
use rows::{Row, row_of};

// The operations of one task.
fn plain_task(version: u32, row: &Row, cells: &mut [u32])
    requires { RowFits row.now (length cells.old) }
    ensures { cells.new ≡ after_operations (effect version) (task_of row.now).operations cells.old }
{
    for index in 0..usize::from(row[2]) {
        effect::operate(version, row, index, cells);
    }
}

// All tasks.
fn plain_tasks(tasks: &Tasks, cells: &mut [u32])
    requires { length cells.old ≡ tasks.now.cells }
    ensures { cells.new ≡ after_tasks (effect tasks.now.version) (tasks_in tasks.now.file.now tasks.now.count) cells.old }
{
    for done in 0..tasks.count {
        plain_task(tasks.version, row_of(tasks.file, done + 1), cells);
    }
}

// Runs a flow plainly from lent cells, which are then as after the last task; a refusal changes none.
pub fn plain(file: &[u8], cells: &mut [u32]) -> Result<(), Refusal>
    ensures { PlainPromise file.now cells.old (plain_by result) cells.new }
{
    let flow = file::check(file)?;
    if cells.len() != flow.cells as usize {
        return Err(Rule::Start.at(0));
    }
    let tasks = Tasks {
        file,
        version: flow.version,
        count: flow.tasks,
        cells: flow.cells,
    };
    plain_tasks(&tasks, cells);
    Ok(())
}
