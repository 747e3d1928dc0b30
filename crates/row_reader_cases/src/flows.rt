// Flow A's file, and a file of the most tasks, no two of whose rows are the same.
use flow::Flow;
use rows::Row;

// Flow A's rows. Task 1, owner 0, write 0: cell 0 becomes 4660. Task 2, owner 1, read 0, write 1: cell 1 becomes cell 0 swapped.
// Task 3, owner 0, read 1, read and write 2: cell 2 becomes cell 2 + cell 1.
fn lay_a(rows: &mut [u8; 144]) {
    rows[0..18].copy_from_slice(
        b"\x00\x01\x01\x00\x00\x02\x00\x00\x00\x00\x00\x00\x01\x00\x00\x00\x34\x12",
    );
    rows[48..66].copy_from_slice(
        b"\x01\x02\x01\x00\x00\x01\x01\x02\x00\x00\x00\x00\x05\x01\x00\x00\x00\x00",
    );
    rows[96..114].copy_from_slice(
        b"\x00\x02\x01\x00\x01\x01\x02\x03\x00\x00\x00\x00\x03\x02\x01\x00\x00\x00",
    );
}

// Kept: beside `largest_file`: two files of their own sizes, versions and rows, which is all that the two functions say.
pub(crate) fn file_a() -> [u8; 512] {
    let mut rows = [0u8; 144];
    lay_a(&mut rows);
    let mut file = [0u8; 512];
    let _ = writer::write(&rows, Flow::VERSION_1, 2, 3, &mut file);
    file
}

// A task of the largest flow: its owner is worker 0 or 1 in turn, and cell 0 becomes the task's number.
pub(crate) fn row_of(task: u32) -> Row {
    let mut row = [0u8; 48];
    row[0] = (task % 2) as u8;
    row[1] = 1;
    row[2] = 1;
    row[5] = 2;
    row[12] = 1;
    row[16] = (task % 256) as u8;
    row
}

fn lay_rows(rows: &mut [u8; Flow::MAX_ROW_BYTES]) {
    for (task, row) in (1..=Flow::MAX_TASKS).zip(rows.chunks_exact_mut(48)) {
        row.copy_from_slice(&row_of(task));
    }
}

pub(crate) fn largest_file() -> [u8; Flow::MAX_BYTES] {
    let mut rows = [0u8; Flow::MAX_ROW_BYTES];
    lay_rows(&mut rows);
    let mut file = [0u8; Flow::MAX_BYTES];
    let _ = writer::write(&rows, Flow::VERSION_2, 2, 1, &mut file);
    file
}
