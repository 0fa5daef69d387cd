// Words and numbers in a text, and bytes as text.
ghost use Rattle.std.specs.Prelude.{IfOk, IfErr, IsUtf8, ◌≡◌, suc, ◌-◌, take, drop};
ghost use Rattle.program.specs.Text.{index_from, value_of, number_of};

use base::number::u8_to_u64;
use base::slice::part;
use std::io::ErrorKind;
use std::{io, str};

// What `digit` gives for a byte that is no digit. No `Option`: the definition `value_of`, which `digit` promises, has this number.
const NO_DIGIT: u64 = 255;

const TEN: u64 = 10;

const LAST_DECIMAL: u64 = 9;

// The most that another digit may follow: ten times it and a digit are at most 9223372036854775809.
const MOST_BEFORE: u64 = 922337203685477580;

// The index of the first byte b from an index on, or the end.
pub fn find(s: &[u8], from: usize, b: u8) -> usize
    ensures { result ≡ index_from s.now from b }
{
    for i in from..s.len() {
        if s[i] == b {
            return i;
        }
    }
    s.len()
}

// The bytes from one index to another.
pub fn between(s: &[u8], from: usize, to: usize) -> &[u8]
    ensures { result.now ≡ take (to - from) (drop from s.now) }
{
    if from <= to {
        return part(s, from, to - from);
    }
    part(s, from, 0)
}

// The bytes after an index.
pub fn after(s: &[u8], index: usize) -> &[u8]
    ensures { result.now ≡ drop (suc index) s.now }
{
    if index < s.len() {
        return &s[index + 1..];
    }
    &s[s.len()..]
}

// A digit's value, also of a hexadecimal one in lower case.
pub fn digit(c: u8) -> u64
    ensures { result ≡ value_of c }
{
    match c {
        b'0'..=b'9' => u8_to_u64(c - b'0'),
        b'a'..=b'f' => u8_to_u64(c - b'a') + TEN,
        _ => NO_DIGIT,
    }
}

// The number whose decimal digits all bytes are; none above 9223372036854775809.
pub fn digits(s: &[u8]) -> Option<u64>
    ensures { result ≡ number_of s.now }
{
    if s.len() == 0 {
        return None;
    }
    let mut v: u64 = 0;
    for c in s {
        let d = digit(*c);
        if LAST_DECIMAL < d {
            return None;
        }
        if MOST_BEFORE < v {
            return None;
        }
        v = v * TEN + d;
    }
    Some(v)
}

// A file's name as the text that std opens a file by. A name that is no UTF-8 is refused as std refuses such names.
pub fn path_of(name: &[u8]) -> io::Result<&str>
    ensures text { IfOk result (λ s. s.now ≡ name.now) }
    ensures refused { IfErr result (λ _. ¬ (IsUtf8 name.now)) }
{
    match str::from_utf8(name) {
        Ok(text) => Ok(text),
        Err(_) => Err(io::Error::from(ErrorKind::InvalidFilename)),
    }
}
