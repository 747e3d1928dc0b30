// The run that the programs make of a flow: all workers named in turn, the total times over.
#![tactic(auto)]

ghost use Rattle.std.specs.Prelude.{◌≡◌, true, ◌*◌, ◌≤◌, length, take, Ok};
ghost use Rattle.layout.specs.Flow.{most_workers};
ghost use Rattle.steps.specs.Run.{largest_total};
ghost use Rattle.steps.specs.Turns.{turns};
ghost use Rattle.run.specs.Answers.{answer_by};
ghost use Rattle.in_turn.specs.Promises.{Measures, InTurnPromise};

use run::Ran;

// What the programs name, at the front of the room, and how many bytes that is. There is room for the longest.
fn name_workers(workers: u32, total: u32, room: &mut [u8]) -> usize
    requires { (workers ≤ most_workers) × (total ≤ largest_total) × (most_workers * largest_total ≤ length room.old) }
    ensures { (result ≡ workers * total) × (take result room.new ≡ turns workers (workers * total)) }
{
    let steps = (workers * total) as usize;
    measure::in_turn(workers as u8, &mut room[..steps]);
    steps
}

// Runs a flow of so many workers and this total from as many lent cells as it has. It is never refused, and it always finishes.
pub fn run(file: &[u8], workers: u32, total: u32, cells: &mut [u32], room: &mut [u8]) -> Ran
    requires measures { Measures file.now workers total cells.old }
    requires room { most_workers * largest_total ≤ length room.old }
    ensures promised { InTurnPromise file.now cells.old (answer_by (Ok result)) cells.new }
    ensures finishes { result.finished ≡ true }
{
    let steps = name_workers(workers, total, room);
    run::run(file, cells, &room[..steps]).unwrap()
}
