// The calls of the library, each under the number that the data has for it.
use crate::stream::Unusable;
use std::fmt;

#[derive(Clone, Copy)]
pub(crate) enum Call {
    Check = 1,
    Read = 2,
    Write = 3,
    Plain = 4,
    Run = 5,
}

impl Call {
    pub(crate) const ALL: [Call; 5] = [
        Call::Check,
        Call::Read,
        Call::Write,
        Call::Plain,
        Call::Run,
    ];
}

impl TryFrom<u32> for Call {
    type Error = Unusable;

    // Kept: the stored cases have a number for each call, and here it becomes one.
    fn try_from(number: u32) -> Result<Call, Unusable> {
        match number {
            1 => Ok(Call::Check),
            2 => Ok(Call::Read),
            3 => Ok(Call::Write),
            4 => Ok(Call::Plain),
            5 => Ok(Call::Run),
            _ => Err(Unusable::Damaged),
        }
    }
}

impl fmt::Display for Call {
    fn fmt<W: fmt::Write>(&self, f: &mut fmt::Formatter<W>) -> fmt::Result {
        f.write_str(match self {
            Call::Check => "check",
            Call::Read => "read",
            Call::Write => "write",
            Call::Plain => "plain",
            Call::Run => "run",
        })
    }
}
