// Flow A's rows (01, "A flow on the bench").
use flow::Flow;

// The bytes of one row more than a flow may have.
pub(crate) const ROWS: usize = 48 * (Flow::MAX_TASKS as usize + 1);

// The first bytes of flow A's rows: four bytes, four accesses and an operation. The bytes after them are zero.
const FLOW_A: [[u8; 18]; 3] = [
    // Task 1: owner 0, write 0; cell 0 becomes 4660.
    *b"\x00\x01\x01\x00\x00\x02\x00\x00\x00\x00\x00\x00\x01\x00\x00\x00\x34\x12",
    // Task 2: owner 1, read 0, write 1; cell 1 becomes cell 0 swapped.
    *b"\x01\x02\x01\x00\x00\x01\x01\x02\x00\x00\x00\x00\x05\x01\x00\x00\x00\x00",
    // Task 3: owner 0, read 1, read and write 2; cell 2 becomes cell 2 + cell 1.
    *b"\x00\x02\x01\x00\x01\x01\x02\x03\x00\x00\x00\x00\x03\x02\x01\x00\x00\x00",
];

// Flow A's three rows, over and over.
pub(crate) fn rows() -> [u8; ROWS] {
    let mut rows = [0u8; ROWS];
    let (each, _) = rows.as_chunks_mut::<48>();
    for (row, start) in each.iter_mut().zip(FLOW_A.iter().cycle()) {
        row[..18].copy_from_slice(start);
    }
    rows
}
