// What a run keeps of its steps: how many came to what, and each worker's latest held step.
#![tactic(auto)]

mod numbers;

ghost use Rattle.std.specs.Prelude.{◌≡◌, ◌<◌};

use flow::Flow;
use machine::Held;
pub use numbers::{Counts, PerWorker, note, reason_and_cell};

// How many steps were held for each reason, and of each worker why its latest held step was; none where it had none.
#[derive(Clone, Copy, Debug, PartialEq, Eq)]
pub struct Notes {
    pub past_last: u32,
    pub write_differs: u32,
    pub reads_differ: u32,
    pub latest: [Option<Held>; Flow::ROOM_FOR_WORKERS],
}

impl Notes {
    ghost use Rattle.layout.specs.Flow.{most_workers};
    ghost use Rattle.steps.specs.Held.{reason_of, cell_of};
    ghost use Rattle.machine.specs.Outcomes.{outcome_of};
    ghost use Rattle.notes.specs.Noted.{no_notes, counts_of, reasons_of, cells_of, count_at, counted_more, kept_for};

    // No step is noted.
    pub fn none() -> Notes
        ensures { result ≡ no_notes }
    {
        Notes {
            past_last: 0,
            write_differs: 0,
            reads_differ: 0,
            latest: [None; Flow::ROOM_FOR_WORKERS],
        }
    }

    // One step more: a held one is counted, and is its worker's latest.
    #[tactic(auto, using(crate::proofs::Stored::told_set))]
    pub fn note(&mut self, w: usize, why: Result<(), Held>)
        requires { (w < most_workers) × (count_at (counts_of self.old) (outcome_of why) < 4294967295) }
        ensures counts_after { counts_of self.new ≡ counted_more (counts_of self.old) (outcome_of why) }
        ensures reasons_after { reasons_of self.new ≡ kept_for (reasons_of self.old) w (outcome_of why) (reason_of (outcome_of why)) }
        ensures cells_after { cells_of self.new ≡ kept_for (cells_of self.old) w (outcome_of why) (cell_of (outcome_of why)) }
    {
        if let Err(held) = why {
            self.latest[w] = Some(held);
            match held {
                Held::PastLast => self.past_last += 1,
                Held::WriteDiffers(_) => self.write_differs += 1,
                Held::ReadsDiffer(_) => self.reads_differ += 1,
            }
        }
    }
}
