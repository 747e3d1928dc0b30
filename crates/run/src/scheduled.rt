// The stepped run: the schedule's bytes, one after another, each name a worker that takes a step.
ghost use Rattle.std.specs.Prelude.{◌≡◌, ◌≤◌, length, get_or, ltb, Ok};
ghost use Rattle.layout.specs.Flow.{most_workers, most_schedule};
ghost use Rattle.layout.specs.Refusal.{unless, first_at};
ghost use Rattle.layout.specs.File.{tasks_in};
ghost use Rattle.refusal.specs.Numbers.{met_by};
ghost use Rattle.steps.specs.Run.{Names};
ghost use Rattle.run.specs.Answers.{answer_by};
ghost use Rattle.run.specs.Promises.{RunPromise, Walked};

use crate::Ran;
use crate::telling::{all_past, done_tasks};
use arrays::{Kept, Tasks};
use flow::Flow;
use machine::stepping::step;
use notes::Notes;
use refusal::{Refusal, Rule, first_refused};

// 14: the first byte of a schedule that is not below workers.
fn check_schedule(schedule: &[u8], workers: u32) -> Result<(), Refusal>
    requires { length schedule.now ≤ most_schedule }
    ensures { met_by result ≡ first_at (λ index. unless (ltb (get_or schedule.now index 0) workers) 14) 0 (length schedule.now) }
{
    first_refused(0, schedule.len() as u32, |index| {
        if workers <= u32::from(schedule[index as usize]) {
            return Err(Rule::Worker);
        }
        Ok(())
    })
}

// The steps of a schedule, from a fresh start, and what is told of them.
fn walk(tasks: &Tasks, workers: u32, cells: &mut [u32], schedule: &[u8]) -> Ran
    requires ready { (length cells.old ≡ tasks.now.cells) × (workers ≤ most_workers) × (length schedule.now ≤ most_schedule) }
    requires names { Names workers schedule.now }
    ensures { Walked tasks.now.version (tasks_in tasks.now.file.now tasks.now.count) workers cells.old schedule.now (answer_by (Ok result)) cells.new }
{
    let mut kept = Kept::fresh();
    let mut notes = Notes::none();
    for byte in schedule {
        let w = usize::from(*byte);
        let why = step(tasks, w, cells, &mut kept);
        notes.note(w, why);
    }
    let held = notes.past_last + notes.write_differs + notes.reads_differ;
    let advanced = schedule.len() as u32 - held;
    let done = done_tasks(tasks, &kept.places);
    let finished = all_past(workers, tasks.count, &kept.places);
    Ran {
        advanced,
        held,
        done,
        finished,
        notes,
    }
}

// Runs a flow under a schedule from lent cells, which are then as after the last byte; a refusal changes none.
pub fn run(file: &[u8], cells: &mut [u32], schedule: &[u8]) -> Result<Ran, Refusal>
    ensures { RunPromise file.now cells.old schedule.now (answer_by result) cells.new }
{
    let flow = file::check(file)?;
    if cells.len() != flow.cells as usize {
        return Err(Rule::Start.at(0));
    }
    if Flow::MAX_SCHEDULE < schedule.len() {
        return Err(Rule::Schedule.at(0));
    }
    check_schedule(schedule, flow.workers)?;
    let tasks = Tasks {
        file,
        version: flow.version,
        count: flow.tasks,
        cells: flow.cells,
    };
    Ok(walk(&tasks, flow.workers, cells, schedule))
}
