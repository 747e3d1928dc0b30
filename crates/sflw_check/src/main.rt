// What the check says of a flow from standard input: its version, its sizes and its total.
#![tactic(auto)]

use console::{StandardInput, StandardOutput};
use flow::Flow;
use measure::Measured;

fn told(out: &mut StandardOutput, measured: &Measured) {
    let Flow {
        version,
        tasks,
        workers,
        cells,
    } = measured.flow;
    writeln!(
        out,
        "version {version} tasks {tasks} workers {workers} cells {cells} total {}",
        measured.total
    );
}

fn main() {
    let mut out = StandardOutput;
    // One byte more than the longest file, so that a longer input is refused for its length.
    let mut input = [0; Flow::MAX_BYTES + 1];
    let count = console::read_up_to(&mut StandardInput::new(), &mut input);
    match measure::measure(&input[..count]) {
        Err(refusal) => writeln!(out, "{refusal}"),
        Ok(measured) => told(&mut out, &measured),
    }
}
