// Why workers were held: a flow from standard input, run as the run program does it, and what is told of its held steps.
#![tactic(auto)]

use console::{StandardInput, StandardOutput};
use full_run::FullRun;
use machine::Held;
use notes::Notes;
use std::fmt;

// A worker's latest held step, if it had one: the rest of the line that begins with the worker.
#[derive(Clone, Copy)]
struct Latest(Option<Held>);

impl fmt::Display for Latest {
    fn fmt<W: fmt::Write>(&self, f: &mut fmt::Formatter<W>) -> fmt::Result {
        match self.0 {
            None => writeln!(f, ": never held"),
            Some(Held::PastLast) => writeln!(f, ": past the last task"),
            Some(Held::WriteDiffers(cell)) => writeln!(f, ": last write of cell {cell}"),
            Some(Held::ReadsDiffer(cell)) => writeln!(f, ": reads of cell {cell}"),
        }
    }
}

// The three counts, which add up to the steps held.
fn counts(out: &mut StandardOutput, notes: &Notes) {
    writeln!(out, "past the last task {}", notes.past_last);
    writeln!(out, "last write differs {}", notes.write_differs);
    writeln!(out, "reads differ {}", notes.reads_differ);
}

// A line for each worker.
fn workers(out: &mut StandardOutput, latest: &[Option<Held>]) {
    for (worker, held) in latest.iter().enumerate() {
        write!(out, "worker {worker}{}", Latest(*held));
    }
}

fn main() {
    let mut out = StandardOutput;
    match FullRun::of_input(&mut StandardInput::new()) {
        Err(refusal) => writeln!(out, "{refusal}"),
        Ok(run) => {
            let notes = run.ran.notes;
            counts(&mut out, &notes);
            let workers_of_flow = run.measured.flow.workers as usize;
            workers(&mut out, &notes.latest[..workers_of_flow]);
        }
    }
}
