// A case: what its words have set, its rows and its file; and the calls that it makes. Lent bytes are marked before a call. After it
// those past the ones written are looked at, which with a refusal are all of them, and some more that were not lent.
use crate::flows::ROWS;
use crate::say;
use crate::word::Word;
use console::StandardOutput;
use flow::Flow;

const MARK: u8 = 170;

// The bytes of one block more than a file may have.
const FILE: usize = Flow::MAX_BYTES + 512;

// The bytes of the most rows, and a hundred more.
const LENT: usize = Flow::MAX_ROW_BYTES + 100;

// How many bytes past those that were lent are looked at.
const PAST: usize = 88;

#[derive(Drop)]
pub(crate) struct Case {
    // There are so many bytes of rows.
    size: usize,
    version: u32,
    workers: u32,
    cells: u32,
    // So many bytes are lent.
    into: usize,
    // The file is so many bytes.
    length: usize,
    // Whether a file is made.
    made: bool,
    rows: [u8; ROWS],
    file: [u8; FILE],
}

// Says whether the bytes from one place up to, not including, another are marked still.
fn rest(out: &mut StandardOutput, bytes: &[u8], from: usize, to: usize) {
    let is_same = bytes.iter().take(to).skip(from).all(|byte| *byte == MARK);
    say::same(out, "rest", is_same);
}

// Changes a byte, where there is one.
fn put(bytes: &mut [u8], at: usize, byte: u8) {
    if let Some(place) = bytes.get_mut(at) {
        *place = byte;
    }
}

// Puts a block's check right.
fn seal_block(block: &mut [u8; 512]) {
    let sums = fletcher::sums_of(&block[..510]);
    block[510] = (sums.a % 256) as u8;
    block[511] = (sums.b % 256) as u8;
}

impl Case {
    pub(crate) fn new(rows: &[u8; ROWS]) -> Case {
        Case {
            size: 144,
            version: 1,
            workers: 2,
            cells: 3,
            into: 600,
            length: 0,
            made: false,
            rows: *rows,
            file: [MARK; FILE],
        }
    }

    // Changes a byte of the file, or of the rows while there is no file.
    fn put(&mut self, at: usize, byte: u8) {
        if self.made {
            put(&mut self.file, at, byte);
        } else {
            put(&mut self.rows, at, byte);
        }
    }

    // Makes the rows a file.
    fn make(&mut self) {
        let size = self.size.min(ROWS);
        let rows = &self.rows[..size];
        let written = writer::write(rows, self.version, self.workers, self.cells, &mut self.file);
        self.length = written.unwrap_or(0) as usize;
        self.made = true;
    }

    // Puts the check of each block right.
    fn seal(&mut self) {
        let size = self.length.min(FILE);
        let file = &mut self.file[..];
        let (blocks, _) = file[..size].as_chunks_mut::<512>();
        for block in blocks {
            seal_block(block);
        }
    }

    fn write(&mut self, out: &mut StandardOutput) {
        let size = self.size.min(ROWS);
        let room = self.into.min(FILE);
        let rows = &self.rows[..size];
        let file = &mut self.file[..];
        let lent = &mut file[..room];
        match writer::write(rows, self.version, self.workers, self.cells, lent) {
            Ok(bytes) => {
                say::filled(out, bytes);
                rest(out, file, bytes as usize, room + PAST);
            }
            Err(refusal) => {
                say::refused(out, refusal);
                rest(out, file, 0, room + PAST);
            }
        }
    }

    fn check(&self, out: &mut StandardOutput) {
        let size = self.length.min(FILE);
        match file::check(&self.file[..size]) {
            Ok(flow) => {
                say::accepted(out);
                say::sizes(out, flow);
            }
            Err(refusal) => say::refused(out, refusal),
        }
    }

    fn read(&self, out: &mut StandardOutput) {
        let size = self.length.min(FILE);
        let mut lent = [MARK; LENT];
        let room = self.into.min(LENT);
        match reader::read(&self.file[..size], &mut lent[..room]) {
            Ok(flow) => {
                let size = 48 * flow.tasks;
                let bytes = size as usize;
                say::filled(out, size);
                say::sizes(out, flow);
                say::same(out, "rows", lent[..bytes] == self.rows[..bytes]);
                rest(out, &lent, bytes, room + PAST);
            }
            Err(refusal) => {
                say::refused(out, refusal);
                rest(out, &lent, 0, room + PAST);
            }
        }
    }

    // Writes bytes 0-15 and 496-511 of the file.
    fn ends(&self, out: &mut StandardOutput) {
        for byte in self.file[..16].iter().chain(&self.file[496..512]) {
            write!(out, " {byte}");
        }
    }

    // Does what a word says.
    pub(crate) fn apply(&mut self, out: &mut StandardOutput, word: Word) {
        match word {
            Word::Nothing => {}
            Word::Rows(size) => self.size = size,
            Word::Version(version) => self.version = version,
            Word::Workers(workers) => self.workers = workers,
            Word::Cells(cells) => self.cells = cells,
            Word::Into(into) => self.into = into,
            Word::Length(length) => self.length = length,
            Word::Byte(at, byte) => self.put(at, byte),
            Word::File => self.make(),
            Word::Seal => self.seal(),
            Word::Write => self.write(out),
            Word::Check => self.check(out),
            Word::Read => self.read(out),
            Word::Ends => self.ends(out),
            Word::Unknown => write!(out, " unknown word"),
        }
    }
}
