// Runs cases of the flow file and writes a line for each: its name, and what was answered. Fletcher's vectors stand in vectors.rt;
// the others are lines of the file stdin, which says how they are read. The file stdout has what 01 says to each.
#![tactic(auto)]

mod case;
mod flows;
mod say;
mod vectors;
mod word;

use case::Case;
use console::{StandardInput, StandardOutput};
use flows::ROWS;
use word::Word;

// The name of a case, and what its words do.
fn one_case(out: &mut StandardOutput, name: &[u8], words: &[u8], rows: &[u8; ROWS]) {
    out.write_bytes(name);
    write!(out, ":");
    let mut case = Case::new(rows);
    for word in words.split(|byte| *byte == b' ') {
        case.apply(out, Word::of(word));
    }
    writeln!(out);
}

// A line: a case, or words for the reader after a number sign. The words of a case begin with the colon after its name.
fn one_line(out: &mut StandardOutput, line: &[u8], rows: &[u8; ROWS]) {
    if line.is_empty() || line.starts_with(b"#") {
        return;
    }
    let colon = line.iter().position(|byte| *byte == b':');
    let (name, words) = line.split_at(colon.unwrap_or(line.len()));
    one_case(out, name, words, rows);
}

fn main() {
    let mut out = StandardOutput;
    vectors::run(&mut out);
    let mut input = [0u8; 20480];
    let size = console::read_up_to(&mut StandardInput::new(), &mut input);
    if size == input.len() {
        writeln!(out, "more cases than there is room for");
    }
    let rows = flows::rows();
    for line in input[..size].split(|byte| *byte == b'\n') {
        one_line(&mut out, line, &rows);
    }
}
