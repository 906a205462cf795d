//! Bytes in hexadecimal.

use prima_base::NoMemory;

const DIGITS: [u8; 16] = *b"0123456789abcdef";

// The value of a digit; blanks and other bytes have none.
fn digit(byte: u8) -> Option<u8> {
    match byte {
        b'0'..=b'9' => Some(byte - b'0'),
        b'a'..=b'f' => Some(byte - b'a' + 10),
        _ => None,
    }
}

/// Puts the bytes that a text spells after the others; what is no digit is left out.
pub fn read_hex(text: &[u8], bytes: &mut Vec<u8>) -> Result<(), NoMemory> {
    let mut high: Option<u8> = None;
    for byte in text {
        let Some(value) = digit(*byte) else {
            continue;
        };
        match high {
            None => high = Some(value),
            Some(first) => {
                bytes.push(first.wrapping_mul(16).wrapping_add(value))?;
                high = None;
            }
        }
    }
    Ok(())
}

/// Spells bytes after a text.
pub fn write_hex(bytes: &[u8], text: &mut Vec<u8>) -> Result<(), NoMemory> {
    for byte in bytes {
        text.push(DIGITS[(*byte / 16) as usize])?;
        text.push(DIGITS[(*byte % 16) as usize])?;
    }
    Ok(())
}
