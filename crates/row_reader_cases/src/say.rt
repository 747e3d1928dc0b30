// The lines: the number of the call or of the task, and what was answered.
use crate::Found;
use console::StandardOutput;
use refusal::Refusal;
use rows::Row;

// What the number counts, the number and a colon.
pub(crate) fn numbered(out: &mut StandardOutput, kind: &str, number: u64) {
    write!(out, "{kind} {number}:");
}

fn row(out: &mut StandardOutput, row: &Row) {
    write!(out, " row");
    for byte in row {
        write!(out, " {byte}");
    }
}

// The words and the spaces after them are pieces of their own.
fn refused(out: &mut StandardOutput, met: Refusal) {
    let number = met.rule.number();
    let place = met.place;
    write!(out, "{} {number}{} {place}", " refused", " place");
}

pub(crate) fn answer(out: &mut StandardOutput, found: Found) {
    match found {
        Ok(Some(bytes)) => row(out, &bytes),
        Ok(None) => write!(out, " end"),
        Err(met) => refused(out, met),
    }
    writeln!(out);
}

pub(crate) fn in_order(out: &mut StandardOutput, rows: u32) {
    writeln!(out, "{} {rows}", "rows in order:");
}
