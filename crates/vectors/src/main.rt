// Runs the stored cases of the test that holds the library against the reference in C, and says how many held and how many
// differed. The file stdin has the cases; test/vectors.c writes it, and says at its head how a case is laid out.
#![tactic(auto)]

mod call;
mod calls;
mod case;
mod head;
mod numbers;
mod stream;
mod tally;

use console::{StandardInput, StandardOutput};
use head::{ROOM, ROOM_SCHEDULE};
use std::io::Read;
use tally::Tally;

fn line(out: &mut StandardOutput, words: &str) {
    writeln!(out, "{words}");
}

// What is said of all cases, where the data ends with the last.
fn finish(out: &mut StandardOutput, data: &mut impl Read, tally: &Tally) {
    if stream::is_at_end(data) {
        tally.say(out);
    } else {
        line(out, "there is data after the last case");
    }
}

fn each_case(out: &mut StandardOutput, data: &mut impl Read, count: u32) {
    let mut input = [0; ROOM];
    let mut lent = [0; ROOM];
    let mut schedule = [0; ROOM_SCHEDULE];
    let mut after = [0; ROOM];
    let mut tally = Tally::new();
    for index in 0..count {
        let outcome = match case::run(data, &mut input, &mut lent, &mut schedule, &mut after) {
            Ok(outcome) => outcome,
            Err(unusable) => return writeln!(out, "case {index} {unusable}"),
        };
        if !outcome.held {
            write!(out, "case {index} {}", outcome.call);
            line(out, " differs");
        }
        tally.add(outcome);
    }
    finish(out, data, &tally);
}

fn main() {
    let mut out = StandardOutput;
    let mut data = StandardInput::new();
    let mut count = [0u8; 4];
    match stream::fill(&mut data, &mut count) {
        Ok(()) => each_case(&mut out, &mut data, u32::from_le_bytes(count)),
        Err(_) => line(&mut out, "there are no cases"),
    }
}
