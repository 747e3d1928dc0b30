// The row reader: it keeps a lent file and its place in it, and gives the file's rows one by one. `new` and `next` are thin, over
// functions that take the slice and the number.
#![tactic(auto)]

ghost use Rattle.std.specs.Prelude.{◌≡◌};
ghost use Rattle.row_reader.specs.Promises.{Answered, StandsAt, NextPromise, following};

use flow::Flow;
use refusal::Refusal;
use rows::Row;

// A lent file, and the number of the task whose row comes next.
#[derive(Drop)]
pub struct Rows<'a> {
    pub file: &'a [u8],
    pub task: u32,
}

// The row of a task: none where the file has no task of that number, a refusal where the file is refused.
#[tactic(auto, unfolding(crate::specs::Answers::answer_at))]
pub fn fetch(file: &[u8], task: u32) -> Result<Option<Row>, Refusal>
    ensures { Answered file.now task result }
{
    let flow = file::check(file)?;
    if (1..=flow.tasks).contains(&task) {
        Ok(Some(*rows::row_of(file, task)))
    } else {
        Ok(None)
    }
}

// The place after one call: a number that no task can have stays.
fn place_after(task: u32) -> u32
    ensures { result ≡ following task }
{
    if (1..=Flow::MAX_TASKS).contains(&task) {
        task + 1
    } else {
        task
    }
}

impl<'a> Rows<'a> {
    // A reader of a file, at task 1.
    pub fn new(file: &'a [u8]) -> Rows<'a>
        ensures { StandsAt file.entry 1 result }
    {
        Rows { file, task: 1 }
    }
}

// What the reader finds at its place, and each call moves it on: the rows, and after them none at every call; of a refused file its
// refusal at every call.
impl Iterator for Rows<'_> {
    type Item = Result<Row, Refusal>;

    ghost next_gives = { NextPromise };

    fn next(&mut self) -> Option<Result<Row, Refusal>> {
        let task = self.task;
        self.task = place_after(task);
        fetch(self.file, task).transpose()
    }
}
