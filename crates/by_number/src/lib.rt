// One step of the stepped run for a caller who keeps the counters and the places as bare numbers. Past the last task a worker may have any
// numbers for its stage and its index.
#![tactic(auto)]

ghost use Rattle.std.specs.Prelude.{◌≡◌, ◌<◌, map};
ghost use Rattle.layout.specs.Flow.{most_workers};
ghost use Rattle.layout.specs.File.{tasks_in};
ghost use Rattle.arrays.specs.Arrays.{machine_of, goes_to, most_reads, ReadsAtMost, Steppable, StepDone};
ghost use Rattle.arrays.specs.Numbers.{counter_of_numbers};
ghost use Rattle.machine.specs.Outcomes.{outcome_of};
ghost use Rattle.by_number.specs.Numbers.{numbers_of_counter, number_of_stage, numbers_of_place, kept_of, standing_for, numbers_after};

use arrays::{AllCounters, Counter, Counters, Kept, Place, Stage, Tasks};
use flow::Flow;
use machine::{Held, stepping};

// Of each cell the last write and the reads since it; and those that each worker keeps.
// Kept: `machine::stepping::step` took these numbers, and a caller who has them is asked no more than before. The places, and the match on
// a stage below, are kept for the same reason.
pub type CounterNumbers = [[u32; 2]; Flow::ROOM_FOR_CELLS];

pub type AllCounterNumbers = [CounterNumbers; Flow::ROOM_FOR_WORKERS];

// Of each worker the tasks gone past, the number of the stage from 0, the index, and the byte at which the next task's row starts.
pub type PlaceNumbers = [[u32; 4]; Flow::ROOM_FOR_WORKERS];

// A row names each cell by one byte, so each is below this.
const BYTE_VALUES: u32 = 256;

fn counter_numbers(counter: Counter) -> [u32; 2]
    ensures { result ≡ numbers_of_counter counter }
{
    [counter.last_write, counter.reads]
}

fn stage_number(stage: Stage) -> u32
    ensures { result ≡ number_of_stage stage }
{
    match stage {
        Stage::WaitWrite => 0,
        Stage::WaitReads => 1,
        Stage::Operate => 2,
        Stage::End => 3,
        Stage::Post => 4,
    }
}

fn place_numbers(place: Place) -> [u32; 4]
    ensures { result ≡ numbers_of_place place }
{
    [
        place.passed,
        stage_number(place.stage),
        place.index,
        place.row,
    ]
}

// The numbers of a row of counters.
fn tell_row(numbers: &mut CounterNumbers, counters: &Counters)
    ensures { numbers.new ≡ map numbers_of_counter counters.now }
{
    for c in 0..Flow::ROOM_FOR_CELLS {
        numbers[c] = counter_numbers(counters[c]);
    }
}

// And of every worker's row.
fn tell_rows(numbers: &mut AllCounterNumbers, counters: &AllCounters)
    ensures { numbers.new ≡ map (λ row. map numbers_of_counter row) counters.now }
{
    for w in 0..Flow::ROOM_FOR_WORKERS {
        tell_row(&mut numbers[w], &counters[w]);
    }
}

// The counters of a row of numbers.
fn take_row(counters: &mut Counters, numbers: &CounterNumbers)
    ensures { counters.new ≡ map counter_of_numbers numbers.now }
{
    for c in 0..Flow::ROOM_FOR_CELLS {
        counters[c] = Counter::from(numbers[c]);
    }
}

// What the numbers stand for.
fn kept_from(shared: &CounterNumbers, private: &AllCounterNumbers, places: &PlaceNumbers) -> Kept
    ensures { result ≡ kept_of shared.now «private».now places.now }
{
    let mut kept = Kept::fresh();
    take_row(&mut kept.shared, shared);
    for w in 0..Flow::ROOM_FOR_WORKERS {
        take_row(&mut kept.private[w], &private[w]);
        kept.places[w] = Place::from(places[w]);
    }
    kept
}

// One step of a named worker, as `machine::stepping::step` makes it. Of the places only the worker's changes, and only where it moves on.
pub fn step(
    file: &[u8],
    version: u32,
    tasks: u32,
    w: usize,
    cells: &mut [u32],
    shared: &mut CounterNumbers,
    private: &mut AllCounterNumbers,
    places: &mut PlaceNumbers,
) -> Result<(), Held>
    requires steppable { Steppable file.now tasks (standing_for cells.old shared.old «private».old places.old) × (w < most_workers) }
    requires reads_at_most { ReadsAtMost most_reads (machine_of (tasks_in file.now tasks) (standing_for cells.old shared.old «private».old places.old)) }
    ensures done { StepDone file.now version tasks w (standing_for cells.old shared.old «private».old places.old) (outcome_of result) (standing_for cells.new shared.new «private».new places.new) }
    ensures places_after { places.new ≡ numbers_after (outcome_of result) places.old w (goes_to file.now (standing_for cells.old shared.old «private».old places.old) w) }
{
    let all = Tasks {
        file,
        version,
        count: tasks,
        cells: BYTE_VALUES,
    };
    let mut kept = kept_from(shared, private, places);
    let answer = stepping::step(&all, w, cells, &mut kept);
    tell_row(shared, &kept.shared);
    tell_rows(private, &kept.private);
    places[w] = match answer {
        Ok(()) => place_numbers(kept.places[w]),
        Err(_) => places[w],
    };
    answer
}
