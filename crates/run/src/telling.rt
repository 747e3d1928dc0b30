// What is told of a run once its schedule is over: the done tasks, and whether all workers are past the last.
ghost use Rattle.std.specs.Prelude.{◌≡◌, [], ◌≤◌, length, get_or, leb};
ghost use Rattle.layout.specs.Lists.{each, all};
ghost use Rattle.layout.specs.Flow.{most_workers};
ghost use Rattle.layout.specs.File.{tasks_in};
ghost use Rattle.steps.specs.Run.{done_tasks};
ghost use Rattle.arrays.specs.Arrays.{arrays, machine_of, no_place};

use arrays::{Places, Tasks};
use rows::row_of;

// How many tasks are done: the owner has gone past the task.
pub(crate) fn done_tasks(tasks: &Tasks, places: &Places) -> u32
    ensures { result ≡ done_tasks (tasks_in tasks.now.file.now tasks.now.count) (machine_of (tasks_in tasks.now.file.now tasks.now.count) (arrays [] [] [] places.now)) }
{
    let mut done = 0;
    for index in 0..tasks.count {
        let owner = usize::from(row_of(tasks.file, index + 1)[0]);
        if index < places[owner].passed {
            done += 1;
        }
    }
    done
}

// Whether all workers are past the last task.
pub(crate) fn all_past(workers: u32, tasks: u32, places: &Places) -> bool
    requires { workers ≤ most_workers }
    ensures { result ≡ all (λ w. leb tasks (get_or places.now w no_place).passed) (each workers (λ w. w)) }
{
    for w in 0..workers as usize {
        if places[w].passed < tasks {
            return false;
        }
    }
    true
}
