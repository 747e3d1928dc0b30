// Runs flow A, from standard input, from starts and under schedules most of which are not among P1 to P8, and writes a line for each: its
// name, what was answered, and the cells after. The file stdout beside src/ has what 01 says to each.
#![tactic(auto)]

mod say;

use console::{StandardInput, StandardOutput};
use flow::Flow;
use notes::Notes;
use run::Ran;

// What is told of a run that was refused.
fn not_run() -> Ran {
    Ran {
        advanced: 0,
        held: 0,
        done: 0,
        finished: false,
        notes: Notes::none(),
    }
}

// A plain run.
fn plain(out: &mut StandardOutput, name: &str, file: &[u8], cells: &mut [u32]) {
    let result = run::plain(file, cells);
    say::answered(out, name, result.err());
    say::cells(out, cells);
}

// A stepped run.
fn stepped(out: &mut StandardOutput, name: &str, file: &[u8], cells: &mut [u32], schedule: &[u8]) {
    let result = run::run(file, cells, schedule);
    say::answered(out, name, result.err());
    say::ran(out, &result.unwrap_or(not_run()));
    say::cells(out, cells);
}

// A schedule from the bench's start.
fn scheduled(out: &mut StandardOutput, name: &str, file: &[u8], schedule: &[u8]) {
    stepped(out, name, file, &mut [0, 0, 5], schedule);
}

fn plain_cases(out: &mut StandardOutput, file: &[u8]) {
    plain(out, "plain from 3 cells", file, &mut [0, 0, 5]);
    plain(out, "plain from 2 cells", file, &mut [7, 8]);
    plain(out, "plain from 4 cells", file, &mut [7, 8, 9, 10]);
    plain(out, "plain without a file, 1 beside 12", b"", &mut [7, 8]);
}

fn short_schedules(out: &mut StandardOutput, file: &[u8]) {
    scheduled(out, "no schedule", file, b"");
    scheduled(out, "schedule 0 1", file, b"\x00\x01");
    scheduled(out, "schedule 1 1", file, b"\x01\x01");
    scheduled(
        out,
        "schedule 1 1 2, 14 after a held step",
        file,
        b"\x01\x01\x02",
    );
    scheduled(out, "schedule 0 2", file, b"\x00\x02");
    scheduled(out, "schedule 2 0", file, b"\x02\x00");
    scheduled(out, "schedule 0 0 255 2", file, b"\x00\x00\xff\x02");
    stepped(out, "2 cells, 12 beside 14", file, &mut [7, 8], b"\x02");
    stepped(
        out,
        "4 cells, 12 beside 14",
        file,
        &mut [7, 8, 9, 10],
        b"\x02",
    );
}

fn long_schedules(out: &mut StandardOutput, file: &[u8]) {
    scheduled(out, "65536 times 0", file, &[0; Flow::MAX_SCHEDULE]);
    scheduled(out, "65537 times 0", file, &[0; Flow::MAX_SCHEDULE + 1]);
    let bad = [2; Flow::MAX_SCHEDULE + 1];
    scheduled(out, "65537 times 2, 13 beside 14", file, &bad);
    stepped(out, "2 cells, 12 beside 13 and 14", file, &mut [7, 8], &bad);
    stepped(
        out,
        "4 cells, 12 beside 13 and 14",
        file,
        &mut [7, 8, 9, 10],
        &bad,
    );
}

fn without_file(out: &mut StandardOutput) {
    stepped(
        out,
        "no file and 2 cells, 1 beside 12",
        b"",
        &mut [7, 8],
        b"\x02",
    );
    stepped(
        out,
        "no file and 4 cells, 1 beside 12",
        b"",
        &mut [7, 8, 9, 10],
        b"\x02",
    );
}

fn main() {
    let mut out = StandardOutput;
    // One byte more than the longest file, so that a longer input is refused for its length.
    let mut input = [0; Flow::MAX_BYTES + 1];
    let count = console::read_up_to(&mut StandardInput::new(), &mut input);
    let file = &input[..count];
    plain_cases(&mut out, file);
    short_schedules(&mut out, file);
    long_schedules(&mut out, file);
    without_file(&mut out);
}
