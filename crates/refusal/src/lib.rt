// Why an input is refused: the rule that it breaks, and the place where it does.
#![tactic(auto)]

mod places;

ghost use Rattle.std.specs.Prelude.{◌≡◌};
ghost use Rattle.refusal.specs.Numbers.{number_of};

pub use places::first_refused;
use std::error::Error;
use std::fmt;

// The rules, each under its number.
#[derive(Clone, Copy, Debug, PartialEq, Eq)]
pub enum Rule {
    // A file has 1 to 20 blocks of 512 bytes.
    Length = 1,
    // A block's check.
    Check = 2,
    // Letters, version, block number, number of blocks, and two bytes that are zero.
    Head = 3,
    // The sizes of the flow, and how many rows a block has.
    Sizes = 4,
    // Unused rows, and the bytes after the rows.
    Rest = 5,
    // A task's owner is a worker.
    Owner = 6,
    // The numbers of accesses and of operations.
    Counts = 7,
    // Each access's cell and mode; unused accesses.
    Accesses = 8,
    // A cell is named once among the accesses.
    NamedOnce = 9,
    // Each operation's code, cells and bytes that are zero; unused operations.
    Operations = 10,
    // Operations keep to the modes.
    Modes = 11,
    // A run starts from as many cells as the flow has.
    Start = 12,
    // A schedule has at most 65,536 bytes.
    Schedule = 13,
    // Each byte of a schedule is a worker.
    Worker = 14,
    // The writer's rows are 1 to 200 times 48 bytes.
    Rows = 15,
    // What is lent has room.
    Room = 16,
    // A cell that is declared written is written.
    Written = 17,
    // Operation 6 is retired.
    Retired = 18,
    // The writer is told a version that there is.
    Version = 22,
}

impl Rule {
    pub fn number(self) -> u32
        ensures { result ≡ number_of self }
    {
        self as u32
    }

    // The refusal of a place by this rule.
    pub fn at(self, place: u32) -> Refusal
        ensures rule { result.rule ≡ self }
        ensures place { result.place ≡ place }
    {
        Refusal { rule: self, place }
    }
}

// A rule and the place that breaks it; 0 where no place is named.
#[derive(Clone, Copy, Debug, PartialEq, Eq)]
pub struct Refusal {
    pub rule: Rule,
    pub place: u32,
}

// A rule that is broken as a whole, at no place that is named.
impl From<Rule> for Refusal {
    ghost from_gives = { λ rule met. met ≡ record { rule = rule; place = 0 } };

    fn from(rule: Rule) -> Refusal {
        rule.at(0)
    }
}

impl fmt::Display for Refusal {
    fn fmt<W: fmt::Write>(&self, f: &mut fmt::Formatter<W>) -> fmt::Result {
        let number = self.rule.number();
        let place = self.place;
        write!(f, "refused {number} place {place}")
    }
}

impl Error for Refusal {}
