// How many cases of each call there were, how often each number was answered, and how many cases held.
use crate::call::Call;
use crate::case::Outcome;
use crate::head;
use console::StandardOutput;

#[derive(Drop)]
pub(crate) struct Tally {
    // By the call's number; none has 0.
    calls: [u32; 6],
    // A count for each number up to the largest.
    numbers: [u32; head::MOST as usize + 1],
    held: u32,
    differed: u32,
}

fn count(counter: &mut u32) {
    *counter = counter.wrapping_add(1);
}

impl Tally {
    pub(crate) fn new() -> Tally {
        Tally {
            calls: [0; 6],
            numbers: [0; head::MOST as usize + 1],
            held: 0,
            differed: 0,
        }
    }

    // One case more.
    pub(crate) fn add(&mut self, outcome: Outcome) {
        count(&mut self.calls[outcome.call as usize]);
        if let Some(met) = self.numbers.get_mut(outcome.number as usize) {
            count(met);
        }
        if outcome.held {
            count(&mut self.held);
        } else {
            count(&mut self.differed);
        }
    }

    // A line for each call with how many cases there were of it.
    fn say_calls(&self, out: &mut StandardOutput) {
        for call in Call::ALL {
            writeln!(out, "{call} {}", self.calls[call as usize]);
        }
    }

    // A line for each number that was answered, with how often.
    fn say_numbers(&self, out: &mut StandardOutput) {
        for (number, met) in self.numbers.iter().enumerate() {
            if *met != 0 {
                writeln!(out, "number {number} met {met}");
            }
        }
    }

    pub(crate) fn say(&self, out: &mut StandardOutput) {
        self.say_calls(out);
        self.say_numbers(out);
        writeln!(out, "held {} differed {}", self.held, self.differed);
    }
}
