// The lines that build the region.
use crate::text::{BYTE_VALUES, first_word, number, offset, unhex, word};
use program::bytes;
use std::num::wrapping_add_usize;

// Word k as a byte.
fn byte(l: &[u8], k: u8) -> u8 {
    (number(l, word(l, k)) % BYTE_VALUES) as u8
}

// `region BYTE`: sets all bytes to the same.
fn fill_region(l: &[u8], region: &mut [u8]) -> bool {
    bytes::fill(region, 0, region.len(), byte(l, 1));
    true
}

// `at OFFSET BYTES`: writes hexadecimal bytes at an offset; whether all of them fit.
fn write_bytes(l: &[u8], region: &mut [u8]) -> bool {
    let from = offset(l, word(l, 1));
    let digits = word(l, 2);
    if from < region.len() {
        let n = unhex(l, digits, &mut region[from..]);
        return wrapping_add_usize(digits, wrapping_add_usize(n, n)) == l.len();
    }
    false
}

// `fill OFFSET COUNT BYTE`: sets bytes from an offset on to the same; whether all of them fit.
fn fill_bytes(l: &[u8], region: &mut [u8]) -> bool {
    let from = offset(l, word(l, 1));
    let n = offset(l, word(l, 2));
    if from < region.len() {
        if n <= region.len() - from {
            bytes::fill(region, from, n, byte(l, 3));
            return true;
        }
    }
    false
}

// Builds what a line says; gives false if it is no such line or doesn't fit.
pub fn build(l: &[u8], memory: &mut [u8]) -> bool {
    match first_word(l) {
        Some(b"at") => write_bytes(l, memory),
        Some(b"fill") => fill_bytes(l, memory),
        Some(b"region") => fill_region(l, memory),
        _ => false,
    }
}
