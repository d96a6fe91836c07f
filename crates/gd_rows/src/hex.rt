//! Bytes as hexadecimal digits.
use crate::trouble::Trouble;
use std::alloc::Global;

/// What a digit stands for.
fn digit(byte: u8) -> Option<u8> {
    match byte {
        b'0'..=b'9' => Some(byte - b'0'),
        b'a'..=b'f' => Some(byte - b'a' + 10),
        _ => None,
    }
}

/// The bytes of these digits, among which blanks may stand.
pub(crate) fn hex(alloc: Global, digits: &str) -> Result<Vec<u8>, Trouble> {
    let mut bytes = Vec::new(alloc);
    let mut first = None;
    for byte in digits.as_bytes() {
        if *byte == b' ' {
            continue;
        }
        let Some(digit) = digit(*byte) else {
            return Err(Trouble::BadLine);
        };
        match first.take() {
            None => first = Some(digit),
            Some(high) => bytes.push((high << 4) | digit)?,
        }
    }
    match first {
        None => Ok(bytes),
        Some(_) => Err(Trouble::BadLine),
    }
}
