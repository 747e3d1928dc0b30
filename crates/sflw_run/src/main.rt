// The run program: a flow from standard input, all cells at 0, the workers named in turn, the total times over.
#![tactic(auto)]

ghost use Rattle.std.specs.Prelude.{◌≡◌};

use console::{StandardInput, StandardOutput};
use flow::Flow;
use full_run::FullRun;
use run::Ran;

fn sizes(out: &mut StandardOutput, flow: &Flow) {
    writeln!(
        out,
        "tasks {} workers {} cells {}",
        flow.tasks, flow.workers, flow.cells
    );
}

// The line begins `finished 1`: nothing else may be told.
fn told(out: &mut StandardOutput, finished: u32, ran: &Ran)
    requires { finished ≡ 1 }
{
    writeln!(
        out,
        "finished {finished} advanced {} held {} done {}",
        ran.advanced, ran.held, ran.done
    );
}

// A line for each cell with its number and value.
fn cells(out: &mut StandardOutput, values: &[u32]) {
    for (index, value) in values.iter().enumerate() {
        writeln!(out, "{index} {value}");
    }
}

fn main() {
    let mut out = StandardOutput;
    match FullRun::of_input(&mut StandardInput::new()) {
        Err(refusal) => writeln!(out, "{refusal}"),
        Ok(run) => {
            sizes(&mut out, &run.measured.flow);
            told(&mut out, u32::from(run.ran.finished), &run.ran);
            cells(&mut out, run.cells());
        }
    }
}
