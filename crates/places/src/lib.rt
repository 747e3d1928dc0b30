// The place of a worker after a step that advances. In the same task the start of the task's row is handed on.
#![tactic(auto)]

ghost use Rattle.std.specs.Prelude.{◌≡◌, ◌+◌, ◌<◌};
ghost use Rattle.layout.specs.Flow.{most_tasks, most_accesses, most_operations};
ghost use Rattle.layout.specs.File.{row_start};
ghost use Rattle.layout.specs.Row.{access_at};
ghost use Rattle.steps.specs.Step.{writes};
ghost use Rattle.arrays.specs.Arrays.{place_at, after_wait, after_end, next_place};
ghost use Rattle.arrays.specs.declared.Stage.TheVariants.{WaitWrite, Operate};

use arrays::{Place, Stage};
use rows::{Row, access_at, first_byte};

// Where the next task begins. The start of its row is worked out here, once for all its steps.
pub fn next_task(passed: u32) -> Place
    requires { passed < most_tasks }
    ensures { result ≡ place_at (passed + 1) WaitWrite 0 }
{
    let gone = passed + 1;
    Place {
        passed: gone,
        stage: Stage::WaitWrite,
        index: 0,
        row: first_byte(gone + 1),
    }
}

// After the last wait of an access: the next access, or the operations, or the ends.
fn after_wait(row: &Row, place: Place) -> Place
    requires { (place.index < most_accesses) × (place.row ≡ row_start (place.passed + 1)) }
    ensures { result ≡ after_wait row.now place.passed place.index }
{
    if place.index + 1 < u32::from(row[1]) {
        return place.at(Stage::WaitWrite, place.index + 1);
    }
    if 0 < row[2] {
        return place.at(Stage::Operate, 0);
    }
    place.at(Stage::End, 0)
}

// After the last end of an access: the next access, or the next task.
// Kept: beside `after_operation`, which goes by another count, to another stage and to no next task: as one function it would take all three.
fn after_end(row: &Row, place: Place) -> Place
    requires { (place.index < most_accesses) × (place.passed < most_tasks) × (place.row ≡ row_start (place.passed + 1)) }
    ensures { result ≡ after_end row.now place.passed place.index }
{
    if place.index + 1 < u32::from(row[1]) {
        return place.at(Stage::End, place.index + 1);
    }
    next_task(place.passed)
}

// After an operation: the next one, or the ends.
#[tactic(auto, unfolding(arrays::specs::Arrays::next_place))]
fn after_operation(row: &Row, place: Place) -> Place
    requires { (place.index < most_operations) × (place.row ≡ row_start (place.passed + 1)) }
    ensures { result ≡ next_place row.now place.passed Operate place.index }
{
    if place.index + 1 < u32::from(row[2]) {
        return place.at(Stage::Operate, place.index + 1);
    }
    place.at(Stage::End, 0)
}

// Whether the access at a place is a write.
fn at_write(row: &Row, place: Place) -> bool
    requires { place.index < most_accesses }
    ensures { result ≡ writes (access_at row.now place.index) }
{
    access_at(row, place.index as usize).is_write()
}

// The next place.
#[tactic(auto, unfolding(arrays::specs::Arrays::next_place))]
pub fn next(row: &Row, place: Place) -> Place
    requires place_within { (place.passed < most_tasks) × (place.index < most_operations) }
    requires access_there { ((place.stage ≡ Operate → ⊥) → place.index < most_accesses) × (place.row ≡ row_start (place.passed + 1)) }
    ensures { result ≡ next_place row.now place.passed place.stage place.index }
{
    match place.stage {
        Stage::WaitWrite => {
            if at_write(row, place) {
                place.at(Stage::WaitReads, place.index)
            } else {
                after_wait(row, place)
            }
        }
        Stage::WaitReads => after_wait(row, place),
        Stage::Operate => after_operation(row, place),
        Stage::End => {
            if at_write(row, place) {
                place.at(Stage::Post, place.index)
            } else {
                after_end(row, place)
            }
        }
        Stage::Post => after_end(row, place),
    }
}
