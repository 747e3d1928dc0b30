// The head of a case: which call it is, how many bytes follow, and what is answered.
ghost use Rattle.std.specs.Prelude.{◌≤◌};

use crate::call::Call;
use crate::stream::Unusable;
use crate::{numbers, stream};
use std::io::Read;

// The most bytes that a case may have of one kind, and of a schedule: as much as test/cases.h has room for.
pub(crate) const ROOM: usize = 16384;

pub(crate) const ROOM_SCHEDULE: usize = 70000;

// The words of the longest answer.
pub(crate) const WORDS: usize = 25;

// The largest number that a call answers.
pub(crate) const MOST: u32 = 22;

#[derive(Clone, Copy)]
pub(crate) struct Head {
    pub(crate) call: Call,
    // The writer's; 0 for the other calls.
    pub(crate) version: u32,
    pub(crate) workers: u32,
    pub(crate) cells: u32,
    // So many bytes are the input, are lent for writing, are the schedule, and are stored of the schedule.
    pub(crate) input: usize,
    pub(crate) lent: usize,
    pub(crate) schedule: usize,
    pub(crate) stored: usize,
    pub(crate) answer: [u32; WORDS],
    ghost input_fits: { input ≤ 16384 },
    ghost lent_fits: { lent ≤ 16384 },
    ghost schedule_fits: { schedule ≤ 70000 },
    ghost stored_fits: { stored ≤ schedule },
}

// The numbers of a head from the data: eight, and the words of its answer.
fn next_numbers(data: &mut impl Read) -> Result<([u32; 8], [u32; WORDS]), Unusable> {
    let mut bytes = [[0u8; 4]; 8 + WORDS];
    stream::fill(data, bytes.as_flattened_mut())?;
    let (first, others) = bytes.split_at(8);
    let mut eight = [0u32; 8];
    numbers::take(first, &mut eight);
    let mut answer = [0u32; WORDS];
    numbers::take(others, &mut answer);
    Ok((eight, answer))
}

// Whether the lent bytes are whole cells, where they are cells: at most 256.
fn has_cells(call: Call, lent: usize) -> bool {
    match call {
        Call::Plain | Call::Run => lent % 4 == 0 && lent <= 1024,
        _ => true,
    }
}

impl Head {
    // The head that is next in the data, if it can be the head of a case.
    pub(crate) fn next(data: &mut impl Read) -> Result<Head, Unusable> {
        let (numbers, answer) = next_numbers(data)?;
        let [call, version, workers, cells, input, lent, schedule, stored] = numbers;
        let call = Call::try_from(call)?;
        let (input, lent) = (input as usize, lent as usize);
        let (schedule, stored) = (schedule as usize, stored as usize);
        if input > ROOM || lent > ROOM || schedule > ROOM_SCHEDULE {
            return Err(Unusable::Damaged);
        }
        // The stored bytes are some of the schedule's, and none only where it has none.
        if stored > schedule || (stored == 0 && schedule != 0) {
            return Err(Unusable::Damaged);
        }
        if answer[0] > MOST || !has_cells(call, lent) {
            return Err(Unusable::Damaged);
        }
        Ok(Head {
            call,
            version,
            workers,
            cells,
            input,
            lent,
            schedule,
            stored,
            answer,
        })
    }
}
