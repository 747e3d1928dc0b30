// What the format does with bytes: a part of a fixed size, a whole number of parts, bytes that are all zero.
#![tactic(auto)]

ghost use Rattle.std.specs.Prelude.{◌≡◌, cond, ◌&&◌, Some, None, ◌+◌, ◌/◌, ◌%◌, ◌<◌, ◌≤◌, ◌^◌, length, eqb};
ghost use Rattle.layout.specs.Bytes.{part, all_zero};
ghost use Rattle.layout.specs.Flow.{up_to};

// The part of N bytes from an index on.
pub fn part_from<const N: usize>(bytes: &[u8], from: usize) -> &[u8; N]
    requires { from + N ≤ length bytes.now }
    ensures { result.now ≡ part from (from + N) bytes.now }
{
    let part = &bytes[from..from + N];
    part.as_array().unwrap()
}

// How many parts of a size make up so many bytes: none where they are no byte, more than the most, or no whole number of parts.
pub fn whole_parts(bytes: usize, size: usize, most: usize) -> Option<u32>
    requires some_size { 0 < size }
    requires few_bytes { most < 2 ^ 32 }
    ensures { result ≡ cond (up_to most bytes && eqb (bytes % size) 0) (Some (bytes / size)) None }
{
    if (1..=most).contains(&bytes) && bytes % size == 0 {
        Some((bytes / size) as u32)
    } else {
        None
    }
}

// Whether all bytes are zero.
pub fn all_zero(bytes: &[u8]) -> bool
    ensures { result ≡ all_zero bytes.now }
{
    bytes.iter().fold(0, |seen, byte| seen | *byte) == 0
}
