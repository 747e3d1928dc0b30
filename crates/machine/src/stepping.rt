// One step of a named worker: whether it is held, what it changes, and its next place.
ghost use Rattle.std.specs.Prelude.{◌≡◌, [], ◌+◌, ◌<◌, length, get_or};
ghost use Rattle.layout.specs.Flow.{most_tasks, most_workers, most_cells, most_accesses};
ghost use Rattle.layout.specs.Row.{access_at};
ghost use Rattle.layout.specs.File.{row_start, tasks_in};
ghost use Rattle.steps.specs.Step.{outcome};
ghost use Rattle.arrays.specs.declared.Stage.TheVariants.{Operate};
ghost use Rattle.arrays.specs.Ready.{RowFits};
ghost use Rattle.arrays.specs.Arrays.{lent, machine_of, no_place, CountersFit, Changed, try_at, Stands, most_reads, ReadsAtMost, Steppable, OwnStep, StepDone};
ghost use Rattle.machine.specs.Outcomes.{outcome_of};

use crate::Held;
use arrays::{Kept, Place, Stage, Tasks};
use counters::{note, register};
use effect::operate;
use places::{next, next_task};
use rows::{Row, access_at, row_from};

// Whether the own step at a place is held, and why.
#[tactic(auto, unfolding(steps::specs::Step::outcome, arrays::specs::Arrays::try_at))]
fn held(row: &Row, w: usize, place: Place, kept: &Kept) -> Result<(), Held>
    requires worker { w < most_workers }
    requires access_there { (place.stage ≡ Operate → ⊥) → (place.index < most_accesses) × ((access_at row.now place.index).cell < most_cells) }
    ensures { outcome_of result ≡ outcome (machine_of [] (lent [] kept.now)) w (try_at row.now place.stage place.index) }
{
    match place.stage {
        Stage::WaitWrite => {
            let number = access_at(row, place.index as usize).cell;
            let cell = usize::from(number);
            if kept.private[w][cell].last_write != kept.shared[cell].last_write {
                return Err(Held::WriteDiffers(u32::from(number)));
            }
        }
        Stage::WaitReads => {
            let number = access_at(row, place.index as usize).cell;
            let cell = usize::from(number);
            if kept.private[w][cell].reads != kept.shared[cell].reads {
                return Err(Held::ReadsDiffer(u32::from(number)));
            }
        }
        _ => {}
    }
    Ok(())
}

// What an own step changes but for the place.
#[tactic(auto, unfolding(arrays::specs::Arrays::Stands))]
fn change(version: u32, row: &Row, w: usize, place: Place, cells: &mut [u32], kept: &mut Kept)
    requires row_fits { RowFits row.now (length cells.old) × Stands row.now place.stage place.index × (w < most_workers) × (place.passed < most_tasks) }
    requires counters_fit { CountersFit kept.old.shared kept.old.«private» }
    ensures changed { Changed version row.now w (place.passed + 1) place.stage place.index (lent cells.old kept.old) (lent cells.new kept.new) }
    ensures places { kept.new.places ≡ kept.old.places }
{
    let at = place.index as usize;
    match place.stage {
        Stage::WaitWrite | Stage::WaitReads => {}
        Stage::Operate => operate(version, row, at, cells),
        Stage::End => {
            let access = access_at(row, at);
            let cell = usize::from(access.cell);
            if access.is_write() {
                kept.shared[cell].reads = 0;
            } else {
                kept.shared[cell].reads += 1;
                note(&mut kept.private, w, cell, false, place.passed + 1);
            }
        }
        Stage::Post => {
            let cell = usize::from(access_at(row, at).cell);
            kept.shared[cell].last_write = place.passed + 1;
            note(&mut kept.private, w, cell, true, place.passed + 1);
        }
    }
}

// The owner's next own step.
fn own_step(
    version: u32,
    row: &Row,
    w: usize,
    cells: &mut [u32],
    kept: &mut Kept,
) -> Result<(), Held>
    requires row_fits { RowFits row.now (length cells.old) × (w < most_workers) × (length kept.old.places ≡ most_workers) × ((get_or kept.old.places w no_place).passed < most_tasks) }
    requires stands { Stands row.now (get_or kept.old.places w no_place).stage (get_or kept.old.places w no_place).index }
    requires row_found { (get_or kept.old.places w no_place).row ≡ row_start ((get_or kept.old.places w no_place).passed + 1) }
    requires counters_fit { CountersFit kept.old.shared kept.old.«private» }
    ensures { OwnStep version row.now w (lent cells.old kept.old) (outcome_of result) (lent cells.new kept.new) }
{
    let place = kept.places[w];
    held(row, w, place, kept)?;
    change(version, row, w, place, cells, kept);
    kept.places[w] = next(row, place);
    Ok(())
}

// One step of a named worker.
pub fn step(tasks: &Tasks, w: usize, cells: &mut [u32], kept: &mut Kept) -> Result<(), Held>
    requires steppable { Steppable tasks.now.file.now tasks.now.count (lent cells.old kept.old) × (w < most_workers) }
    requires reads_at_most { ReadsAtMost most_reads (machine_of (tasks_in tasks.now.file.now tasks.now.count) (lent cells.old kept.old)) }
    ensures { StepDone tasks.now.file.now tasks.now.version tasks.now.count w (lent cells.old kept.old) (outcome_of result) (lent cells.new kept.new) }
{
    let place = kept.places[w];
    if tasks.count <= place.passed {
        return Err(Held::PastLast);
    }
    let row = row_from(tasks.file, place.row as usize);
    if usize::from(row[0]) != w {
        register(row, w, place.passed + 1, &mut kept.private);
        kept.places[w] = next_task(place.passed);
        return Ok(());
    }
    own_step(tasks.version, row, w, cells, kept)
}
