// The run that the programs make of the flow on their input: all cells at 0, and the workers named in turn, the total times over.
#![tactic(auto)]

ghost use Rattle.std.specs.Prelude.{◌≡◌, true, List, ℕ, take, replicate, Ok, Err, IfOk, MatchResult};
ghost use Rattle.std.specs.Io.KnownBytes.{Consumes};
ghost use Rattle.measure.specs.Answers.{answer_by as measured_by};
ghost use Rattle.measure.specs.Promises.{MeasurePromise};
ghost use Rattle.run.specs.Answers.{answer_by as ran_by};
ghost use Rattle.in_turn.specs.Promises.{InTurnPromise};

use flow::Flow;
use measure::Measured;
use refusal::Refusal;
use run::Ran;
use std::io::Read;

// The steps of the longest run: the most workers, the largest total times over.
const MOST_STEPS: usize = 8 * 5800;

// A run that has finished: what was measured of its flow, what came of it, and the cells after, of which the flow may have fewer.
#[derive(Clone, Copy)]
pub struct FullRun {
    pub measured: Measured,
    pub ran: Ran,
    pub room: [u32; Flow::ROOM_FOR_CELLS],
    ghost finished: { ran.finished ≡ true },
}

impl FullRun {
    // The run of a flow file, or why it is refused.
    pub fn of(file: &[u8]) -> Result<FullRun, Refusal>
        ensures measured { MatchResult result (λ run. MeasurePromise file.now (measured_by (Ok run.measured))) (λ met. MeasurePromise file.now (measured_by (Err met))) }
        ensures ran { IfOk result (λ run. InTurnPromise file.now (replicate run.measured.flow.cells 0) (ran_by (Ok run.ran)) (take run.measured.flow.cells run.room)) }
    {
        let measured = measure::measure(file)?;
        let mut cells = [0; Flow::ROOM_FOR_CELLS];
        let mut schedule = [0; MOST_STEPS];
        let count = measured.flow.cells as usize;
        let ran = in_turn::run(
            file,
            measured.flow.workers,
            measured.total,
            &mut cells[..count],
            &mut schedule,
        );
        Ok(FullRun {
            measured,
            ran,
            room: cells,
        })
    }

    // The run of the flow that a reader gives, whatever comes from there.
    pub fn of_input<R: Read>(reader: &mut R) -> Result<FullRun, Refusal>
        ensures { (file : List ℕ) × Consumes (R.remaining reader.old) (R.remaining reader.new) file × MatchResult result (λ run. MeasurePromise file (measured_by (Ok run.measured))) (λ met. MeasurePromise file (measured_by (Err met))) × IfOk result (λ run. InTurnPromise file (replicate run.measured.flow.cells 0) (ran_by (Ok run.ran)) (take run.measured.flow.cells run.room)) }
    {
        // One byte more than the longest file, so that a longer input is refused for its length.
        let mut input = [0; Flow::MAX_BYTES + 1];
        let count = console::read_up_to(reader, &mut input);
        FullRun::of(&input[..count])
    }

    // The cells that the flow has.
    pub fn cells(&self) -> &[u32]
        ensures { result.now ≡ take self.now.measured.flow.cells self.now.room }
    {
        &self.room[..self.measured.flow.cells as usize]
    }
}
