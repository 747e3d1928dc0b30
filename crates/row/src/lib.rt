// The check of a row: refusals 6 to 11, 17 and 18. The row is read where the caller keeps its 48 bytes.
#![tactic(auto)]

ghost use Rattle.std.specs.Prelude.{◌≡◌, true, false, ◌≤◌, ◌<◌, MatchOption};
ghost use Rattle.layout.specs.Lists.{each, all};
ghost use Rattle.layout.specs.Bytes.{at, all_zero};
ghost use Rattle.layout.specs.Flow.{most_cells, most_accesses, most_operations};
ghost use Rattle.layout.specs.Row.{access_at, task_of, owner_sound, counts_sound, access_in_range, accesses_sound, named_once, operation_sound, operations_sound, uses_larger, modes_sound, row_refusal};
ghost use Rattle.modes.specs.Table.{table_of, table_left};
ghost use Rattle.refusal.specs.Numbers.{broken_by};

use flow::Flow;
use modes::Modes;
use refusal::Rule;
use rows::{Code, Mode, Row};

// A row, and its numbers of accesses and operations, which are within their limits.
#[derive(Clone, Copy)]
struct Counted<'a> {
    row: &'a Row,
    accesses: usize,
    operations: usize,
    ghost sound: { counts_sound row.now ≡ true },
    ghost accesses_are: { accesses ≡ at row.now 1 },
    ghost operations_are: { operations ≡ at row.now 2 },
}

// Whether a few bytes are all zero: it ends at the first that isn't.
// Kept: beside `octets::all_zero`, which takes the check of a row 16 bytes more of stack here, and would miss its 32.
fn few_zero(bytes: &[u8]) -> bool
    ensures { result ≡ all_zero bytes.now }
{
    bytes.iter().all(|byte| *byte == 0)
}

// 6: the owner is below workers.
fn owner_sound(row: &Row, workers: u32) -> bool
    ensures { result ≡ owner_sound workers row.now }
{
    u32::from(row[0]) < workers
}

// One used access: its cell and its mode are within range.
fn access_in_range(row: &Row, j: usize, cells: u32) -> bool
    requires { j < most_accesses }
    ensures { result ≡ access_in_range cells (access_at row.now j) }
{
    let access = rows::access_at(row, j);
    (u32::from(access.cell) < cells) & (1..=Mode::ReadAndWrite as u8).contains(&access.mode)
}

// One used operation: a known code, cells within range, and zero what must be.
fn operation_sound(row: &Row, i: usize, cells: u32) -> bool
    requires { i < most_operations }
    ensures { result ≡ operation_sound cells row.now i }
{
    let operation = rows::operation_at(row, i);
    let known = (1..=Code::Larger as u8).contains(&operation.code);
    let there = (u32::from(operation.a) < cells) & (u32::from(operation.b) < cells);
    let unused = if operation.code == Code::Set as u8 {
        u16::from(operation.b)
    } else {
        operation.k
    };
    let spare = row[15 + 6 * i];
    known & there & (unused == 0) & (spare == 0)
}

impl<'a> Counted<'a> {
    // 7: the row with its numbers of accesses and operations; none where one of these, or byte 3, is not as it must be.
    fn of(row: &'a Row) -> Option<Counted<'a>>
        ensures { MatchOption result (counts_sound row.now ≡ false) (λ counted. counted.row.now ≡ row.now) }
    {
        let accesses = row[1];
        let operations = row[2];
        if (1..=Flow::MAX_ACCESSES).contains(&accesses)
            & (operations <= Flow::MAX_OPERATIONS)
            & (row[3] == 0)
        {
            return Some(Counted {
                row,
                accesses: usize::from(accesses),
                operations: usize::from(operations),
            });
        }
        None
    }

    // All used accesses are within range.
    // Kept: beside `used_sound`: the two have the library's `all` over a range in common, and each another test.
    fn accesses_in_range(self, cells: u32) -> bool
        ensures { result ≡ all (access_in_range cells) (each (at self.entry.row.now 1) (access_at self.entry.row.now)) }
    {
        (0..self.accesses).all(|j| access_in_range(self.row, j, cells))
    }

    // 8: the used accesses are within range, and the unused ones are zero.
    // Kept: beside `operations_sound`: two rules over two parts of a row, each with its own definition.
    #[tactic(auto, unfolding(layout::specs::Row::accesses_sound, layout::specs::Row::task_of))]
    fn accesses_sound(self, cells: u32) -> bool
        ensures { result ≡ accesses_sound cells self.entry.row.now }
    {
        let row = self.row;
        let from = 4 + 2 * self.accesses;
        self.accesses_in_range(cells) && few_zero(&row[from..12])
    }

    // 9: the table of modes, into which each access goes, from the last to the first; none where a cell is named twice.
    fn modes_of(self) -> Option<Modes>
        requires { all (access_in_range most_cells) (task_of self.row.now).accesses ≡ true }
        ensures { let accesses = (task_of self.entry.row.now).accesses in MatchOption result (named_once accesses ≡ false) (λ modes. (named_once accesses ≡ true) × (modes.digits ≡ table_of accesses)) }
    {
        let mut modes = Modes::none();
        for j in (0..self.accesses).rev() {
            let access = rows::access_at(self.row, j);
            if modes.mode_in(access.cell) != 0 {
                return None;
            }
            modes = modes.with_mode(access.cell, access.mode);
        }
        Some(modes)
    }

    // All used operations are sound.
    fn used_sound(self, cells: u32) -> bool
        ensures { result ≡ all (operation_sound cells self.entry.row.now) (each (at self.entry.row.now 2) (λ i. i)) }
    {
        (0..self.operations).all(|i| operation_sound(self.row, i, cells))
    }

    // 10: the used operations are sound, and the unused ones are zero.
    #[tactic(auto, unfolding(layout::specs::Row::operations_sound))]
    fn operations_sound(self, cells: u32) -> bool
        ensures { result ≡ operations_sound cells self.entry.row.now }
    {
        let row = self.row;
        let from = 12 + 6 * self.operations;
        self.used_sound(cells) && octets::all_zero(&row[from..48])
    }

    // Whether one of the operations is 'the larger of', for 18. Unused operations are zero by then, so the six codes of a row are compared.
    // Not a call in the machine code, since a call takes stack.
    #[inline(always)]
    #[tactic(auto, using(crate::proofs::Codes::six_codes))]
    fn uses_larger(self) -> bool
        requires { operations_sound most_cells self.row.now ≡ true }
        ensures { result ≡ uses_larger (task_of self.entry.row.now) }
    {
        let larger = |i| rows::operation_at(self.row, i).code == Code::Larger as u8;
        let first = larger(0) | larger(1) | larger(2);
        let last = larger(3) | larger(4) | larger(5);
        first | last
    }

    // 11: every operation keeps to the modes. From then on the cell that it wrote may be read. The table as they leave it; none where one
    // doesn't.
    fn modes_left(self, table: Modes) -> Option<Modes>
        requires accesses_in_range { all (access_in_range most_cells) (task_of self.row.now).accesses ≡ true }
        requires named_once { named_once (task_of self.row.now).accesses ≡ true }
        requires operations_sound { operations_sound most_cells self.row.now ≡ true }
        requires table_of_row { table.digits ≡ table_of (task_of self.row.now).accesses }
        ensures { let task = task_of self.entry.row.now in MatchOption result (modes_sound task ≡ false) (λ modes. (modes_sound task ≡ true) × (modes.digits ≡ table_left task)) }
    {
        let mut modes = table;
        for i in 0..self.operations {
            let operation = rows::operation_at(self.row, i);
            let of_a = modes.mode_in(operation.a);
            let of_b = modes.mode_in(operation.b);
            if !modes::keeps_modes(operation.code, of_a, of_b) {
                return None;
            }
            modes = modes.with_mode(operation.a, Mode::Read as u8);
        }
        Some(modes)
    }
}

// The first of 6 to 11 that the row breaks, or 18 after 10, or 17 after 11. The caller says whether operation 6 is retired. The operations
// go through the table before 18 is answered, since the compiler then keeps that loop here.
#[tactic(auto, using(layout::proofs::Modes::accesses_more, layout::proofs::Modes::operations_more, modes::proofs::Owed::owed_same), unfolding(layout::specs::Row::row_refusal, layout::specs::Refusal::first_broken))]
pub fn check(row: &Row, retired: bool, workers: u32, cells: u32) -> Result<(), Rule>
    requires few_cells { cells ≤ most_cells }
    ensures { broken_by result ≡ row_refusal retired workers cells row.now }
{
    if !owner_sound(row, workers) {
        return Err(Rule::Owner);
    }
    let Some(row) = Counted::of(row) else {
        return Err(Rule::Counts);
    };
    if !row.accesses_sound(cells) {
        return Err(Rule::Accesses);
    }
    let Some(modes) = row.modes_of() else {
        return Err(Rule::NamedOnce);
    };
    if !row.operations_sound(cells) {
        return Err(Rule::Operations);
    }
    let left = row.modes_left(modes);
    if retired && row.uses_larger() {
        return Err(Rule::Retired);
    }
    if !left.ok_or(Rule::Modes)?.none_owed() {
        return Err(Rule::Written);
    }
    Ok(())
}
