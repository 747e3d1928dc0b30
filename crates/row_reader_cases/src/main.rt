// Reads files row by row, each through one reader that is asked for the next row again and again, and writes what the calls answer:
// flow A, the largest flow, and files that are refused. The file stdout beside src/ has what 01 says to each.
#![tactic(auto)]

mod flows;
mod say;

use console::StandardOutput;
use flow::Flow;
use refusal::Refusal;
use row_reader::Rows;
use rows::Row;

// What a call finds: a row, none at the end, or a refusal.
type Found = Result<Option<Row>, Refusal>;

// What a call answers, after so many others. As long as each gives the next row of the largest flow, the first `silent` calls are
// counted; every other answer is written.
fn tell(out: &mut StandardOutput, in_order: u32, call: u32, silent: u32, found: Found) -> u32 {
    if call < silent && in_order == call && found == Ok(Some(flows::row_of(call + 1))) {
        return call + 1;
    }
    // The call's number counts from 1.
    say::numbered(out, "call", u64::from(call) + 1);
    say::answer(out, found);
    in_order
}

// One reader, asked so many times: how many of the first `silent` calls gave the rows of the largest flow in their order.
fn read_through(out: &mut StandardOutput, file: &[u8], calls: u32, silent: u32) -> u32 {
    let mut rows = Rows::new(file);
    let mut in_order = 0;
    for call in 0..calls {
        in_order = tell(out, in_order, call, silent, rows.next().transpose());
    }
    in_order
}

// A row by its number.
fn by_number(out: &mut StandardOutput, file: &[u8], task: u32) {
    say::numbered(out, "task", u64::from(task));
    say::answer(out, row_reader::fetch(file, task));
}

fn flow_a(out: &mut StandardOutput) {
    let file = flows::file_a();
    writeln!(out, "flow A");
    read_through(out, &file, 6, 0);
    by_number(out, &file, 0);
    by_number(out, &file, 3);
    by_number(out, &file, 4);
    by_number(out, &file, 4294967295);
    writeln!(out, "flow A cut short");
    read_through(out, &file[0..511], 3, 0);
    by_number(out, &file[0..511], 4294967295);
}

// Kept: beside `block_7_changed`: two cases that change a byte of their own in a file of their own.
fn another_check(out: &mut StandardOutput) {
    let mut file = flows::file_a();
    file[510] = 255;
    writeln!(out, "flow A with check A 255");
    read_through(out, &file, 3, 0);
}

// Task 2 declares cell 1 write only and is left without its operation; then the check fits the block again.
fn forgotten_write(out: &mut StandardOutput) {
    let mut file = flows::file_a();
    file[64 + 2] = 0;
    file[64 + 12] = 0;
    file[64 + 13] = 0;
    file[510] = 172;
    file[511] = 0;
    writeln!(out, "flow A with task 2 left without its operation");
    read_through(out, &file, 3, 0);
    by_number(out, &file, 1);
}

fn largest_flow(out: &mut StandardOutput) {
    let file = flows::largest_file();
    writeln!(out, "largest flow");
    let in_order = read_through(out, &file, Flow::MAX_TASKS + 3, Flow::MAX_TASKS);
    say::in_order(out, in_order);
    by_number(out, &file, Flow::MAX_TASKS);
    by_number(out, &file, Flow::MAX_TASKS + 1);
}

// A byte of the last row of block 7.
fn block_7_changed(out: &mut StandardOutput) {
    let mut file = flows::largest_file();
    file[512 * 7 + 495] = 1;
    writeln!(out, "largest flow with block 7 changed");
    read_through(out, &file, 3, 0);
}

fn main() {
    let mut out = StandardOutput;
    flow_a(&mut out);
    another_check(&mut out);
    forgotten_write(&mut out);
    largest_flow(&mut out);
    block_7_changed(&mut out);
}
