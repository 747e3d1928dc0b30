// What the stepped run keeps and the tasks that it goes through: their types here, what they stand for in specs/, and laws in proofs/.
#![tactic(auto)]

ghost use Rattle.std.specs.Prelude.{◌≡◌};
ghost use Rattle.arrays.specs.Ready.{Ready};

use flow::Flow;

// The last write and the reads since it.
#[derive(Clone, Copy, Debug, PartialEq, Eq)]
pub struct Counter {
    pub last_write: u32,
    pub reads: u32,
}

// A row of counters, one for each cell; and such a row for each worker.
// Kept: that a worker and a cell are below their limits is asked in clauses, once a call: a type for it would be made anew of each byte of a row or a schedule.
pub type Counters = [Counter; Flow::ROOM_FOR_CELLS];

pub type AllCounters = [Counters; Flow::ROOM_FOR_WORKERS];

// What a worker's next own step is. It waits for the access's last write; it waits for its reads; it makes the operation; it ends the
// access (of a write, it sets the shared reads to 0); and it posts the write.
#[derive(Clone, Copy, Debug, PartialEq, Eq)]
pub enum Stage {
    WaitWrite,
    WaitReads,
    Operate,
    End,
    Post,
}

// A worker's place: the tasks gone past, the stage of the next task, the index of an access or an operation, and the byte of the file
// at which the next task's row starts, so that a step need not work it out. And such a place for each worker.
// Kept: where the row starts is asked in clauses: with a ghost field for it each place that a definition names would have to carry a proof.
#[derive(Clone, Copy, Debug, PartialEq, Eq)]
pub struct Place {
    pub passed: u32,
    pub stage: Stage,
    pub index: u32,
    pub row: u32,
}

impl Place {
    // Another stage and index of the same task.
    pub fn at(self, stage: Stage, index: u32) -> Place
        ensures { result ≡ record { passed = self.passed; stage = stage; index = index; row = self.row } }
    {
        Place {
            stage,
            index,
            ..self
        }
    }
}

pub type Places = [Place; Flow::ROOM_FOR_WORKERS];

// For a caller who keeps bare numbers: a counter from its two, a stage from its number, and a place from its four, whatever they are. A
// worker past the last task may have any number for its stage.
// Kept: `machine::stepping::step` took places as numbers, and asks no more than it did of a caller who has them.
impl From<[u32; 2]> for Counter {
    ghost use Rattle.arrays.specs.Numbers.{counter_of_numbers};

    ghost from_gives = { λ numbers counter. counter ≡ counter_of_numbers numbers };

    fn from(numbers: [u32; 2]) -> Counter {
        let [last_write, reads] = numbers;
        Counter { last_write, reads }
    }
}

impl From<u32> for Stage {
    ghost use Rattle.arrays.specs.Numbers.{stage_of_number};

    ghost from_gives = { λ number stage. stage ≡ stage_of_number number };

    fn from(number: u32) -> Stage {
        match number {
            0 => Stage::WaitWrite,
            1 => Stage::WaitReads,
            2 => Stage::Operate,
            3 => Stage::End,
            _ => Stage::Post,
        }
    }
}

impl From<[u32; 4]> for Place {
    ghost use Rattle.arrays.specs.Numbers.{place_of_numbers};

    ghost from_gives = { λ numbers place. place ≡ place_of_numbers numbers };

    fn from(numbers: [u32; 4]) -> Place {
        let [passed, stage, at, row] = numbers;
        Place {
            passed,
            stage: Stage::from(stage),
            index: at,
            row,
        }
    }
}

// What a run keeps beside the cells.
#[derive(Drop)]
pub struct Kept {
    pub shared: Counters,
    pub private: AllCounters,
    pub places: Places,
}

impl Kept {
    ghost use Rattle.arrays.specs.Arrays.{fresh_kept};

    // All counters at 0, and each worker before the first task.
    pub fn fresh() -> Kept
        ensures { result ≡ fresh_kept }
    {
        let none = Counter {
            last_write: 0,
            reads: 0,
        };
        let first = Place {
            passed: 0,
            stage: Stage::WaitWrite,
            index: 0,
            row: rows::first_byte(1),
        };
        Kept {
            shared: [none; Flow::ROOM_FOR_CELLS],
            private: [[none; Flow::ROOM_FOR_CELLS]; Flow::ROOM_FOR_WORKERS],
            places: [first; Flow::ROOM_FOR_WORKERS],
        }
    }
}

// The tasks of an accepted file, as a run goes through them.
#[derive(Clone, Copy)]
pub struct Tasks<'a> {
    pub file: &'a [u8],
    pub version: u32,
    pub count: u32,
    pub cells: u32,
    ghost ready: { Ready file.now count cells },
}
