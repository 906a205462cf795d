//! Numbers in decimal.

use itoa::Buffer;
use prima_base::NoMemory;
use std::alloc::Global;

/// Puts a number after a text.
pub fn write_number(number: u64, text: &mut Vec<u8>) -> Result<(), NoMemory> {
    let mut digits = Buffer::new();
    text.extend_from_slice(digits.format(number).as_bytes())?;
    Ok(())
}

/// The number that a text spells; other bytes than digits are left out.
pub fn read_number(text: &[u8]) -> u64 {
    let mut value: u64 = 0;
    for byte in text {
        if byte.is_ascii_digit() {
            value = value
                .wrapping_mul(10)
                .wrapping_add(u64::from(byte.wrapping_sub(b'0')));
        }
    }
    value
}

/// The text with the number in place of each `#`.
pub fn with_number(alloc: Global, text: &[u8], number: u64) -> Result<Vec<u8>, NoMemory> {
    let mut all = Vec::new(alloc);
    for byte in text {
        if *byte == b'#' {
            write_number(number, &mut all)?;
        } else {
            all.push(*byte)?;
        }
    }
    Ok(all)
}
