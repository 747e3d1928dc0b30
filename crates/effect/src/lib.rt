// What an operation does to the cells, in a flow of a version.
#![tactic(auto)]

ghost use Rattle.std.specs.Prelude.{◌≡◌, ◌<◌, length};
ghost use Rattle.layout.specs.Flow.{most_operations};
ghost use Rattle.layout.specs.Row.{operation_at};
ghost use Rattle.steps.specs.Operations.{swapped, becomes, effect, operated};

use flow::Flow;
use rows::{Code, Row, operation_at};

// The two bytes of the low half of b exchanged. Version 2 keeps the high half of b, version 1 clears it.
fn swap(version: u32, b: u32) -> u32
    ensures { result ≡ swapped version b }
{
    let low = b % 256 * 256 + b / 256 % 256;
    if version == Flow::VERSION_2 {
        return b / 65536 * 65536 + low;
    }
    low
}

// The value that cell a becomes, by the version and the code, out of k and of the values of a and b.
#[tactic(auto, unfolding(steps::specs::Operations::becomes))]
pub(crate) fn value(version: u32, code: u8, k: u32, a: u32, b: u32) -> u32
    ensures { result ≡ becomes version code k a b }
{
    match Code::try_from(code) {
        Ok(Code::Set) => k,
        Ok(Code::Copy) => b,
        Ok(Code::Add) => a.wrapping_add(b),
        Ok(Code::Subtract) => a.wrapping_sub(b),
        Ok(Code::Swap) => swap(version, b),
        Ok(Code::Larger) => a.max(b),
        Err(_) => 0,
    }
}

// Makes one operation of a row.
pub fn operate(version: u32, row: &Row, index: usize, cells: &mut [u32])
    requires index_within { index < most_operations }
    requires cells_there { ((operation_at row.now index).a < length cells.old) × ((operation_at row.now index).b < length cells.old) }
    ensures { cells.new ≡ operated (effect version) (operation_at row.now index) cells.old }
{
    let operation = operation_at(row, index);
    let a = usize::from(operation.a);
    let b = usize::from(operation.b);
    cells[a] = value(
        version,
        operation.code,
        u32::from(operation.k),
        cells[a],
        cells[b],
    );
}
