// A held step as the two numbers that a caller in C is told, and one step more for a caller who keeps the numbers themselves.
ghost use Rattle.std.specs.Prelude.{◌≡◌, [], ◌∷◌, ◌<◌};
ghost use Rattle.layout.specs.Flow.{most_workers};
ghost use Rattle.steps.specs.Held.{reason_of, cell_of};
ghost use Rattle.machine.specs.Outcomes.{outcome_of};
ghost use Rattle.notes.specs.Noted.{reason_in, cell_in, count_at, counted_more, kept_for};

use flow::Flow;
use machine::Held;

// How many steps were held for each reason: past the last task, the last write differs, the reads differ.
// Kept: `note` below took any numbers, and promises of them what it did; `Notes` has fewer.
pub type Counts = [u32; 3];

// A number for each worker.
pub type PerWorker = [u32; Flow::ROOM_FOR_WORKERS];

// The reason of a worker's latest held step, and the cell that it names; 0 and 0 where there is none.
pub fn reason_and_cell(latest: Option<Held>) -> [u32; 2]
    ensures { result ≡ reason_in latest ∷ cell_in latest ∷ [] }
{
    match latest {
        None => [0, 0],
        Some(Held::PastLast) => [1, 0],
        Some(Held::WriteDiffers(cell)) => [2, cell],
        Some(Held::ReadsDiffer(cell)) => [3, cell],
    }
}

// One step more: a held one is counted, and is its worker's latest. Whatever numbers are kept, those of the other workers stay.
pub fn note(
    why: Result<(), Held>,
    w: usize,
    counts: &mut Counts,
    reasons: &mut PerWorker,
    cells: &mut PerWorker,
)
    requires { (w < most_workers) × (count_at counts.old (outcome_of why) < 4294967295) }
    ensures counts_after { counts.new ≡ counted_more counts.old (outcome_of why) }
    ensures reasons_after { reasons.new ≡ kept_for reasons.old w (outcome_of why) (reason_of (outcome_of why)) }
    ensures cells_after { cells.new ≡ kept_for cells.old w (outcome_of why) (cell_of (outcome_of why)) }
{
    if let Err(held) = why {
        let [reason, cell] = reason_and_cell(Some(held));
        counts[reason as usize - 1] += 1;
        reasons[w] = reason;
        cells[w] = cell;
    }
}
