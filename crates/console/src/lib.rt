// What the programs share: standard input, which is read into an array, and standard output.
#![tactic(auto)]

ghost use Rattle.std.specs.Prelude.{◌≡◌, ◌≤◌, true, false, IfOk, IsOk, length, take};
ghost use Rattle.std.specs.Io.{ReadsAtMost};
ghost use Rattle.std.specs.Io.KnownBytes.{Consumes};

use std::fmt;
use std::io::Read;

const STANDARD_INPUT: i32 = 0;

const STANDARD_OUTPUT: i32 = 1;

// Standard input. A read fills what it is lent, as far as the input goes, and a read of the system that fails is taken for the end.
#[derive(Clone, Copy)]
pub struct StandardInput {
    // Whether the last read met the end after some bytes. The next one tells it, and asks the system for nothing.
    at_end: bool,
}

impl StandardInput {
    pub fn new() -> StandardInput
        ensures { result.at_end ≡ false }
    {
        StandardInput { at_end: false }
    }
}

impl Read for StandardInput {
    fn read(&mut self, buf: &mut [u8]) -> std::io::Result<usize>
        ensures bound { ReadsAtMost result buf.new }
        ensures never_fails { IsOk result }
        ensures end_told { self.old.at_end ≡ true → IfOk result (λ n. n ≡ 0) × (self.new.at_end ≡ false) }
    {
        if self.at_end {
            self.at_end = false;
            return Ok(0);
        }
        let came = io::read_full(STANDARD_INPUT, buf);
        self.at_end = 0 < came && came < buf.len();
        Ok(came)
    }
}

// Standard output. Each piece of a format, a text between two values or a value, is a write of its own, and one that fails is passed
// over: the next piece is tried all the same.
#[derive(Clone, Copy)]
pub struct StandardOutput;

impl fmt::Write for StandardOutput {
    fn write_str(&mut self, s: &str) -> fmt::Result
        ensures { IsOk result }
    {
        self.write_bytes(s.as_bytes());
        Ok(())
    }
}

impl StandardOutput {
    // Bytes that need not be text, as one piece.
    pub fn write_bytes(&mut self, bytes: &[u8]) {
        io::write_all(STANDARD_OUTPUT, bytes);
    }

    // What `write!` and `writeln!` call. There is no error to look at.
    pub fn write_fmt<D: fmt::Display + Drop>(&mut self, text: D) {
        let _ = fmt::Write::write_fmt(self, text);
    }
}

// Reads until the array is full, the input ends or a read fails, and returns how many bytes came: the first ones of the array.
pub fn read_up_to<R: Read>(reader: &mut R, input: &mut [u8]) -> usize
    ensures in_bounds { result ≤ length input.new }
    ensures length_stays { length input.new ≡ length input.old }
    ensures bytes { Consumes (R.remaining reader.old) (R.remaining reader.new) (take result input.new) }
{
    let mut done = 0;
    // Kept: a read gives as many bytes as it likes, so no range or iterator has the steps of this loop.
    while done < input.len() {
        match reader.read(&mut input[done..]) {
            Ok(0) => break,
            Ok(n) => done += n,
            Err(_) => break,
        }
    }
    done
}

#[cfg(test)]
mod tests {
    use super::*;
    use std::io;

    // Gives a byte more at each read, and fails at the read whose number is `fails`.
    #[derive(Drop)]
    struct Growing {
        reads: usize,
        fails: usize,
    }

    impl Read for Growing {
        fn read(&mut self, buf: &mut [u8]) -> io::Result<usize> {
            self.reads = self.reads.wrapping_add(1);
            if self.reads == self.fails {
                return Err(io::Error::from(io::ErrorKind::Interrupted));
            }
            let given = self.reads.min(buf.len());
            buf[..given].fill(1);
            Ok(given)
        }
    }

    #[test]
    fn the_input_fills_the_array(rt: HostRuntime) {
        let mut input = [0u8; 4];
        let mut rest: &[u8] = b"abcdef";
        assert_eq!(rt; read_up_to(&mut rest, &mut input), 4);
        assert_eq!(rt; input, *b"abcd");
        assert_eq!(rt; rest, b"ef".as_slice());
    }

    #[test]
    fn the_input_ends_early(rt: HostRuntime) {
        let mut input = [0u8; 4];
        let mut rest: &[u8] = b"ab";
        assert_eq!(rt; read_up_to(&mut rest, &mut input), 2);
        assert_eq!(rt; input, *b"ab\0\0");
        assert_eq!(rt; read_up_to(&mut rest, &mut input), 0);
    }

    #[test]
    fn many_reads_fill_the_array(rt: HostRuntime) {
        let mut input = [0u8; 8];
        let mut reader = Growing { reads: 0, fails: 0 };
        assert_eq!(rt; read_up_to(&mut reader, &mut input), 8);
        assert_eq!(rt; reader.reads, 4);
        assert_eq!(rt; input, [1; 8]);
    }

    #[test]
    fn a_failed_read_ends_it(rt: HostRuntime) {
        let mut input = [0u8; 8];
        let mut reader = Growing { reads: 0, fails: 3 };
        assert_eq!(rt; read_up_to(&mut reader, &mut input), 3);
        assert_eq!(rt; reader.reads, 3);
        assert_eq!(rt; input, [1, 1, 1, 0, 0, 0, 0, 0]);
    }
}
