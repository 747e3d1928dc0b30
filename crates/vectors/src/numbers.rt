// Numbers of four bytes, low byte first.

// The numbers that stand in the bytes.
pub(crate) fn take(bytes: &[[u8; 4]], numbers: &mut [u32]) {
    for (number, four) in numbers.iter_mut().zip(bytes) {
        *number = u32::from_le_bytes(*four);
    }
}

// The numbers back into the bytes.
pub(crate) fn put(numbers: &[u32], bytes: &mut [[u8; 4]]) {
    for (four, number) in bytes.iter_mut().zip(numbers) {
        *four = number.to_le_bytes();
    }
}
