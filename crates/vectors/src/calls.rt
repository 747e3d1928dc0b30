// The five calls, as a program in C makes them. Words of the answer are marked before the call, so that it has to fill them. What is
// lent for reading no call can change: its type says so.
use crate::call::Call;
use crate::head::{Head, WORDS};
use crate::numbers;
use std::array;

const MARK: u32 = 0xAAAAAAAA;

#[derive(Clone, Copy)]
pub(crate) struct Answer {
    // What the call returned, which is the answer's first word too.
    returned: u32,
    // Zero past the last word that the call's answer has.
    words: [u32; WORDS],
}

impl Answer {
    fn new(returned: u32, words: &[u32]) -> Answer {
        Answer {
            returned,
            words: array::from_fn(|at| *words.get(at).unwrap_or(&0)),
        }
    }

    // Whether it was returned and filled in as it is stored.
    pub(crate) fn is(self, stored: [u32; WORDS]) -> bool {
        self.returned == stored[0] && self.words == stored
    }
}

// Kept: five calls. One function over the number of words would take a closure over `&mut [u32; N]`, and such a bound gets no proof.
fn check(file: &[u8]) -> Answer {
    let mut words = [MARK; 7];
    let returned = sflw::sflw_check(file, &mut words);
    Answer::new(returned, &words)
}

fn read(file: &[u8], rows: &mut [u8]) -> Answer {
    let mut words = [MARK; 7];
    let returned = sflw::sflw_read(file, rows, &mut words);
    Answer::new(returned, &words)
}

fn write(rows: &[u8], head: &Head, out: &mut [u8]) -> Answer {
    let mut words = [MARK; 3];
    let returned = sflw::sflw_write(
        rows,
        head.version,
        head.workers,
        head.cells,
        out,
        &mut words,
    );
    Answer::new(returned, &words)
}

fn plain(file: &[u8], cells: &mut [u32]) -> Answer {
    let mut words = [MARK; 2];
    let returned = sflw::sflw_plain(file, cells, &mut words);
    Answer::new(returned, &words)
}

fn run(file: &[u8], cells: &mut [u32], schedule: &[u8]) -> Answer {
    let mut words = [MARK; WORDS];
    let returned = sflw::sflw_run(file, cells, schedule, &mut words);
    Answer { returned, words }
}

// The answer to a call on the cells that stand in the lent bytes, where they are left: at most 256.
fn on_cells<F: FnOnce(&mut [u32]) -> Answer>(lent: &mut [u8], call: F) -> Answer
    requires { F.IsAlwaysCallable call }
{
    let mut room = [0u32; 256];
    let (bytes, _) = lent.as_chunks_mut::<4>();
    let count = bytes.len().min(256);
    let cells = &mut room[..count];
    numbers::take(bytes, cells);
    let answer = call(cells);
    numbers::put(cells, bytes);
    answer
}

// Makes the call of a case.
pub(crate) fn make(head: &Head, input: &[u8], lent: &mut [u8], schedule: &[u8]) -> Answer {
    match head.call {
        Call::Check => check(input),
        Call::Read => read(input, lent),
        Call::Write => write(input, head, lent),
        Call::Plain => on_cells(lent, |cells| plain(input, cells)),
        Call::Run => on_cells(lent, |cells| run(input, cells, schedule)),
    }
}
