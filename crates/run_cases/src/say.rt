// The parts of a line: a case's name, the number and the place answered, the counts of a stepped run with the latest held step of workers 0
// and 1, and the cells.
use console::StandardOutput;
use notes::reason_and_cell;
use refusal::Refusal;
use run::Ran;

// The number and the place of a refusal, or 0 and 0.
pub(crate) fn answered(out: &mut StandardOutput, name: &str, met: Option<Refusal>) {
    let (number, place) = match met {
        Some(refusal) => (refusal.rule.number(), refusal.place),
        None => (0, 0),
    };
    write!(out, "{name}: {number} place {place}");
}

// What came of a stepped run.
pub(crate) fn ran(out: &mut StandardOutput, ran: &Ran) {
    let finished = u32::from(ran.finished);
    let notes = &ran.notes;
    write!(
        out,
        " advanced {} held {} done {} finished {finished}",
        ran.advanced, ran.held, ran.done
    );
    write!(
        out,
        " past last {} write differs {} reads differ {}",
        notes.past_last, notes.write_differs, notes.reads_differ
    );
    for (worker, held) in notes.latest[..2].iter().enumerate() {
        let [reason, cell] = reason_and_cell(*held);
        write!(out, " worker {worker} reason {reason} cell {cell}");
    }
}

// The cells, and the end of the line.
pub(crate) fn cells(out: &mut StandardOutput, values: &[u32]) {
    write!(out, " cells");
    for value in values {
        write!(out, " {value}");
    }
    writeln!(out);
}
