// A word of a case, as it is read. The head of the file stdin says what each does.

#[derive(Clone, Copy)]
pub(crate) enum Word {
    // What stands between two spaces, and the colon after the name.
    Nothing,
    Rows(usize),
    Version(u32),
    Workers(u32),
    Cells(u32),
    Into(usize),
    Length(usize),
    // The byte at a place becomes another.
    Byte(usize, u8),
    File,
    Seal,
    Write,
    Check,
    Read,
    Ends,
    Unknown,
}

// A decimal number: its low 32 bits.
fn decimal(digits: &[u8]) -> u32 {
    digits.iter().fold(0u32, |n, byte| {
        n.wrapping_mul(10).wrapping_add(u32::from(*byte % 16))
    })
}

// A decimal number, or a sum of several with a plus between them.
fn number(digits: &[u8]) -> u32 {
    let mut sum = 0u32;
    for part in digits.split(|byte| *byte == b'+') {
        sum = sum.wrapping_add(decimal(part));
    }
    sum
}

impl Word {
    // A word with an equals sign: a place, or a name, of which the first letter counts.
    fn with(name: &[u8], n: u32) -> Word {
        match name.first() {
            Some(b'0'..=b'9') => Word::Byte(number(name) as usize, (n % 256) as u8),
            Some(b'r') => Word::Rows(n as usize),
            Some(b'v') => Word::Version(n),
            Some(b'w') => Word::Workers(n),
            Some(b'c') => Word::Cells(n),
            Some(b'i') => Word::Into(n as usize),
            Some(b'l') => Word::Length(n as usize),
            _ => Word::Unknown,
        }
    }

    // A word without one, by its first letter. Kept: the text of the cases names them so.
    fn alone(text: &[u8]) -> Word {
        match text.first() {
            None | Some(b':') => Word::Nothing,
            Some(b'f') => Word::File,
            Some(b's') => Word::Seal,
            Some(b'w') => Word::Write,
            Some(b'c') => Word::Check,
            Some(b'r') => Word::Read,
            Some(b'e') => Word::Ends,
            _ => Word::Unknown,
        }
    }

    pub(crate) fn of(text: &[u8]) -> Word {
        match text.iter().position(|byte| *byte == b'=') {
            Some(equals) => Word::with(&text[..equals], number(&text[equals + 1..])),
            None => Word::alone(text),
        }
    }
}
