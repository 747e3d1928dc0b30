// How long a run of a flow from standard input can take, with every worker named once in each stretch.
#![tactic(auto)]

use console::{StandardInput, StandardOutput};
use flow::Flow;
use longest::Longest;

fn told(out: &mut StandardOutput, longest: &Longest) {
    writeln!(out, "total {}", longest.total);
    writeln!(out, "stretches at most {}", longest.stretches);
    writeln!(out, "steps at most {}", longest.steps);
    writeln!(out, "held at most {}", longest.held);
}

// Kept: a flow is read as the programs of the check and of the run read it: `console` has what they share, and the rest is one match.
fn main() {
    let mut out = StandardOutput;
    // One byte more than the longest file, so that a longer input is refused for its length.
    let mut input = [0; Flow::MAX_BYTES + 1];
    let count = console::read_up_to(&mut StandardInput::new(), &mut input);
    match longest::worst_case(&input[..count]) {
        Err(refusal) => writeln!(out, "{refusal}"),
        Ok(longest) => told(&mut out, &longest),
    }
}
