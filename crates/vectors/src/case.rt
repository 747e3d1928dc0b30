// A case: its bytes from the data, its call, and whether all came out as it is stored.
use crate::call::Call;
use crate::head::{Head, ROOM, ROOM_SCHEDULE};
use crate::stream::Unusable;
use crate::{calls, stream};
use std::io::Read;

#[derive(Clone, Copy)]
pub(crate) struct Outcome {
    pub(crate) call: Call,
    // The number that is stored for it.
    pub(crate) number: u32,
    pub(crate) held: bool,
}

// Makes the next call in the data. It held if it returned and filled in what is stored. All that the call is lent is asked for before
// it is looked at whether it came. What stands in the lent rooms past the case's bytes is not looked at, so one case after another has
// the same rooms: arrays that each case made anew took most of its time.
pub(crate) fn run(
    data: &mut impl Read,
    input_room: &mut [u8; ROOM],
    lent_room: &mut [u8; ROOM],
    schedule_room: &mut [u8; ROOM_SCHEDULE],
    after_room: &mut [u8; ROOM],
) -> Result<Outcome, Unusable> {
    let head = Head::next(data)?;
    let input = &mut input_room[..head.input];
    let has_input = stream::fill(data, input);
    let lent = &mut lent_room[..head.lent];
    let has_lent = stream::fill(data, lent);
    let schedule = &mut schedule_room[..head.schedule];
    let has_schedule = stream::fill_repeated(data, schedule, head.stored);
    has_input.and(has_lent).and(has_schedule)?;
    let answer = calls::make(&head, input, lent, schedule);
    let after = &mut after_room[..head.lent];
    stream::fill(data, after)?;
    Ok(Outcome {
        call: head.call,
        number: head.answer[0],
        held: answer.is(head.answer) && *lent == *after,
    })
}
