// The measuring of a flow file: its version and sizes, and its total of advancing steps; and the schedule that names the workers in turn.
#![tactic(auto)]

mod turns;

ghost use Rattle.std.specs.Prelude.{◌≡◌, ◌*◌, ◌≤◌, get_or};
ghost use Rattle.layout.specs.Flow.{most_workers, most_accesses};
ghost use Rattle.layout.specs.Row.{task_of};
ghost use Rattle.layout.specs.File.{tasks_in};
ghost use Rattle.steps.specs.Run.{access_steps, total_of, most_of_task};
ghost use Rattle.measure.specs.Answers.{answer_by};
ghost use Rattle.measure.specs.Promises.{MeasurePromise};

use arrays::Tasks;
use flow::Flow;
use refusal::Refusal;
use rows::{Row, access_at, row_of};
pub use turns::in_turn;

// What is measured: the flow, and its total.
#[derive(Clone, Copy)]
pub struct Measured {
    pub flow: Flow,
    pub total: u32,
}

// The steps of a row's accesses: 2 for each read, 4 for each write.
fn access_steps(row: &Row) -> u32
    requires { get_or row.now 1 0 ≤ most_accesses }
    ensures { (result ≡ access_steps (task_of row.now).accesses) × (result ≤ 4 * most_accesses) }
{
    let mut steps = 0;
    for index in 0..usize::from(row[1]) {
        steps += if access_at(row, index).is_write() {
            4
        } else {
            2
        };
    }
    steps
}

// The total of the tasks.
fn tasks_total(tasks: &Tasks, workers: u32) -> u32
    requires { (1 ≤ workers) × (workers ≤ most_workers) }
    ensures { (result ≡ total_of workers (tasks_in tasks.now.file.now tasks.now.count)) × (result ≤ most_of_task * tasks.now.count) }
{
    let mut total = 0;
    for done in 0..tasks.count {
        let row = row_of(tasks.file, done + 1);
        total += access_steps(row) + u32::from(row[2]) + (workers - 1);
    }
    total
}

// The check of a flow file: the flow and its total, or the first refusal met.
pub fn measure(file: &[u8]) -> Result<Measured, Refusal>
    ensures { MeasurePromise file.now (answer_by result) }
{
    let flow = file::check(file)?;
    let tasks = Tasks {
        file,
        version: flow.version,
        count: flow.tasks,
        cells: flow.cells,
    };
    let total = tasks_total(&tasks, flow.workers);
    Ok(Measured { flow, total })
}
