// The data, as it comes from standard input.
ghost use Rattle.std.specs.Prelude.{◌≤◌, length};

use std::fmt;
use std::io::Read;

// Why the data has no further case.
#[derive(Clone, Copy)]
pub(crate) enum Unusable {
    // The head can be no case's.
    Damaged,
    // The data ends before the case does.
    CutOff,
}

impl fmt::Display for Unusable {
    fn fmt<W: fmt::Write>(&self, f: &mut fmt::Formatter<W>) -> fmt::Result {
        f.write_str(match self {
            Unusable::Damaged => "is damaged",
            Unusable::CutOff => "is cut off",
        })
    }
}

// Fills the bytes from the data.
pub(crate) fn fill(data: &mut impl Read, bytes: &mut [u8]) -> Result<(), Unusable> {
    if console::read_up_to(data, bytes) < bytes.len() {
        return Err(Unusable::CutOff);
    }
    Ok(())
}

// Fills the first bytes from the data, and the others with what stands in these, over and over again.
pub(crate) fn fill_repeated(
    data: &mut impl Read,
    bytes: &mut [u8],
    stored: usize,
) -> Result<(), Unusable>
    requires { stored ≤ length bytes.old }
{
    let (first, others) = bytes.split_at_mut(stored);
    fill(data, first)?;
    for (byte, given) in others.iter_mut().zip(first.iter().cycle()) {
        *byte = *given;
    }
    Ok(())
}

pub(crate) fn is_at_end(data: &mut impl Read) -> bool {
    console::read_up_to(data, &mut [0; 1]) == 0
}
