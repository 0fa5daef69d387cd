// The words of a line, and the numbers and bytes in them.
use base::slice::part;
use leaf::bytes::get8;
use program::bytes;
use program::number::{low32, signed as signed_of};
use program::text::{digit, find};

// How many values a byte has.
pub const BYTE_VALUES: u64 = base::number::BYTE_VALUES as u64;

const TEN: u64 = 10;

const LAST_DECIMAL: u64 = 9;
// A tenth of what 64 bits hold.
const MOST_BEFORE: u64 = 1844674407370955161;

const HEX: u64 = 16;

const LAST_HEX: u64 = 15;
// A byte has two digits.
const DIGITS: usize = 2;

// Where the next word starts.
fn next_word(s: &[u8], from: usize) -> usize {
    let at = find(s, from, b' ');
    if at < s.len() { at + 1 } else { s.len() }
}

// Where word k starts, counted from 0.
pub fn word(s: &[u8], k: u8) -> usize {
    let mut at = 0;
    for _ in 0..k {
        at = next_word(s, at);
    }
    at
}

// The bytes from word k on.
pub fn rest(s: &[u8], k: u8) -> &[u8] {
    part(s, word(s, k), s.len())
}

// How many words there are.
pub fn words(s: &[u8]) -> usize {
    match s.split_last() {
        Some((_, before)) => before.iter().filter(|b| **b == b' ').count() + 1,
        None => 0,
    }
}

// A line's first word, if it goes on after it.
pub fn first_word(s: &[u8]) -> Option<&[u8]> {
    let end = find(s, 0, b' ');
    if end < s.len() {
        Some(part(s, 0, end))
    } else {
        None
    }
}

// The decimal number at an index.
pub fn number(s: &[u8], from: usize) -> u64 {
    let mut v: u64 = 0;
    for c in part(s, from, s.len()) {
        let d = digit(*c);
        if LAST_DECIMAL < d {
            break;
        }
        v = v % MOST_BEFORE * TEN + d;
    }
    v
}

// The decimal number at an index, in 32 bits.
pub fn number32(s: &[u8], from: usize) -> u32 {
    low32(number(s, from))
}

// The decimal number at an index, as an offset or a length.
pub fn offset(s: &[u8], from: usize) -> usize {
    number(s, from) as usize
}

// The signed number at an index.
pub fn signed(s: &[u8], from: usize) -> i64 {
    if get8(s, from) == b'-' {
        return signed_of(std::num::wrapping_sub_u64(
            0,
            number(s, std::num::wrapping_add_usize(from, 1)),
        ));
    }
    signed_of(number(s, from))
}

// The byte that two hexadecimal digits make.
fn byte_of(digits: &[u8]) -> Option<u8> {
    let [high, low] = digits else {
        return None;
    };
    let high = digit(*high);
    let low = digit(*low);
    if LAST_HEX < high || LAST_HEX < low {
        return None;
    }
    Some((high % HEX * HEX + low % HEX) as u8)
}

// The hexadecimal bytes at an index, into out; gives how many they are.
pub fn unhex(s: &[u8], from: usize, out: &mut [u8]) -> usize {
    let mut n: usize = 0;
    let digits = part(s, from, s.len());
    for (to, two) in out.iter_mut().zip(digits.chunks(DIGITS)) {
        let Some(b) = byte_of(two) else {
            break;
        };
        *to = b;
        n = n.wrapping_add(1);
    }
    n
}

// The hexadecimal bytes of word k, which a buffer holds.
pub fn bytes_of<'a>(s: &[u8], k: u8, out: &'a mut [u8]) -> &'a [u8] {
    let n = unhex(s, word(s, k), out);
    part(out, 0, n)
}

// Whether word k is these bytes in hexadecimal.
pub fn is_word(l: &[u8], k: u8, bytes: &[u8]) -> bool {
    let mut space = bytes::large_buffer();
    bytes == bytes_of(l, k, &mut space)
}
