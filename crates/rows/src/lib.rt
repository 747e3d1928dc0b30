// A row's 48 bytes by name, and where the row of a task stands in a file.
#![tactic(auto)]

ghost use Rattle.std.specs.Prelude.{◌≡◌, ◌+◌, ◌*◌, ◌≤◌, ◌<◌, length};
ghost use Rattle.layout.specs.Bytes.{part};
ghost use Rattle.layout.specs.Flow.{most_tasks, most_accesses, most_operations};
ghost use Rattle.layout.specs.Row.{access_at, operation_at};
ghost use Rattle.layout.specs.File.{row_start, row_at};
ghost use Rattle.steps.specs.Step.{writes};

use std::error::Error;
use std::fmt;

// The bytes of a row.
pub type Row = [u8; 48];

// How a task may use a cell that it names.
#[derive(Clone, Copy, Debug, PartialEq, Eq)]
pub enum Mode {
    Read = 1,
    Write = 2,
    ReadAndWrite = 3,
}

// What an operation does.
#[derive(Clone, Copy, Debug, PartialEq, Eq)]
pub enum Code {
    Set = 1,
    Copy = 2,
    Add = 3,
    Subtract = 4,
    Swap = 5,
    Larger = 6,
}

// A number that stands for no code.
#[derive(Clone, Copy, Debug, PartialEq, Eq)]
pub struct UnknownCode {
    pub number: u8,
}

impl fmt::Display for UnknownCode {
    fn fmt<W: fmt::Write>(&self, f: &mut fmt::Formatter<W>) -> fmt::Result {
        let number = self.number;
        write!(f, "no operation has the code {number}")
    }
}

impl Error for UnknownCode {}

impl TryFrom<u8> for Code {
    type Error = UnknownCode;

    ghost use Rattle.std.specs.Prelude.{◌≡◌};
    ghost use Rattle.rows.specs.Codes.{code_of};

    ghost try_from_gives = { λ number r. r ≡ code_of number };

    // Kept: the numbers stand in the file, and here a number becomes a code.
    fn try_from(number: u8) -> Result<Code, UnknownCode> {
        match number {
            1 => Ok(Code::Set),
            2 => Ok(Code::Copy),
            3 => Ok(Code::Add),
            4 => Ok(Code::Subtract),
            5 => Ok(Code::Swap),
            6 => Ok(Code::Larger),
            _ => Err(UnknownCode { number }),
        }
    }
}

// A cell that a task names, and the number of the mode under which it does.
// Kept: the number, since a row that is still to be checked has any, and so in `Operation`.
#[derive(Clone, Copy, Debug, PartialEq, Eq)]
pub struct Access {
    pub cell: u8,
    pub mode: u8,
}

// An operation: the number of its code, the cell that it writes, the other cell, and the constant.
#[derive(Clone, Copy, Debug, PartialEq, Eq)]
pub struct Operation {
    pub code: u8,
    pub a: u8,
    pub b: u8,
    pub k: u16,
}

impl Access {
    // Whether the cell is declared written.
    pub fn is_write(self) -> bool
        ensures { result ≡ writes (record { cell = self.cell; mode = self.mode }) }
    {
        (self.mode == Mode::Write as u8) | (self.mode == Mode::ReadAndWrite as u8)
    }
}

// The byte of a file at which a task's row starts: 48 bytes on from the row before it, and 32 more where a block ends in between. It is
// worked out with one division and no remainder. A worker that goes past the last task asks where one more row would start.
pub fn first_byte(task: u32) -> u32
    requires { (1 ≤ task) × (task ≤ most_tasks + 1) }
    ensures { result ≡ row_start task }
{
    let before = task - 1;
    48 * before + 32 * (before / 10) + 16
}

// The row at a byte of a file.
pub fn row_from(file: &[u8], from: usize) -> &Row
    requires { from + 48 ≤ length file.now }
    ensures { result.now ≡ part from (from + 48) file.now }
{
    octets::part_from(file, from)
}

// The row of a task of a file.
pub fn row_of(file: &[u8], task: u32) -> &Row
    requires task_can_be { (1 ≤ task) × (task ≤ most_tasks) }
    requires row_there { row_start task + 48 ≤ length file.now }
    ensures { result.now ≡ row_at file.now task }
{
    row_from(file, first_byte(task) as usize)
}

// The access at an index of a row.
pub fn access_at(row: &Row, index: usize) -> Access
    requires { index < most_accesses }
    ensures cell { result.cell ≡ (access_at row.now index).cell }
    ensures mode { result.mode ≡ (access_at row.now index).mode }
{
    let from = 4 + 2 * index;
    Access {
        cell: row[from],
        mode: row[from + 1],
    }
}

// The operation at an index of a row.
pub fn operation_at(row: &Row, index: usize) -> Operation
    requires { index < most_operations }
    ensures code { result.code ≡ (operation_at row.now index).code }
    ensures cells { (result.a ≡ (operation_at row.now index).a) × (result.b ≡ (operation_at row.now index).b) }
    ensures constant { result.k ≡ (operation_at row.now index).k }
{
    let from = 12 + 6 * index;
    Operation {
        code: row[from],
        a: row[from + 1],
        b: row[from + 2],
        k: u16::from_le_bytes([row[from + 4], row[from + 5]]),
    }
}
