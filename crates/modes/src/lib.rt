// The table of modes that the row check makes of a task's accesses and asks for rules 9, 11 and 17: one number, of which two binary
// digits belong to each cell that a flow can have. It is made and asked in registers.
#![tactic(auto)]

ghost use Rattle.std.specs.Prelude.{◌≡◌, ◌≤◌, ◌<◌};
ghost use Rattle.layout.specs.Flow.{most_cells};
ghost use Rattle.modes.specs.Table.{mode_in, with_mode, keeps_table, none_owed};

use rows::Code;

// A table of modes: two binary digits for each cell.
#[derive(Clone, Copy, Debug, PartialEq, Eq)]
pub struct Modes {
    pub digits: u64,
}

impl Modes {
    // The table in which no cell has a mode.
    pub fn none() -> Modes
        ensures { result.digits ≡ 0 }
    {
        Modes { digits: 0 }
    }

    // What the table has for a cell: two binary digits.
    pub fn mode_in(self, cell: u8) -> u64
        requires { cell < most_cells }
        ensures { result ≡ mode_in self.digits cell }
    {
        (self.digits >> (2 * u32::from(cell))) & 3
    }

    // The table with the digits of a mode set for a cell as well.
    #[tactic(auto, using(crate::proofs::Digits::placed))]
    pub fn with_mode(self, cell: u8, mode: u8) -> Modes
        requires cell_can_be { cell < most_cells }
        requires mode_can_be { mode ≤ 3 }
        ensures { result.digits ≡ with_mode self.digits cell mode }
    {
        Modes {
            digits: self.digits | (u64::from(mode) << (2 * u32::from(cell))),
        }
    }

    // 17: no cell of the table is left under mode 2. All cells are asked at once: mode 2 alone has an upper digit without the lower.
    #[tactic(auto, using(crate::proofs::Pairs::none_left))]
    pub fn none_owed(self) -> bool
        ensures { result ≡ none_owed self.digits }
    {
        let uppers = (self.digits >> 1) & 0x5555555555555555;
        (self.digits | uppers) == self.digits
    }
}

// One operation, by its code and by what the table has for its cells a and b, keeps to the modes.
pub fn keeps_modes(code: u8, of_a: u64, of_b: u64) -> bool
    ensures { result ≡ keeps_table code of_a of_b }
{
    let reads_a = (code == Code::Add as u8)
        | (code == Code::Subtract as u8)
        | (code == Code::Larger as u8);
    let reads_b = code != Code::Set as u8;
    let may_write = matches!(of_a, 2 | 3);
    may_write & (!reads_a | matches!(of_a, 1 | 3)) & (!reads_b | matches!(of_b, 1 | 3))
}
