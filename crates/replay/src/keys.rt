// The lines on keys: an identity, texts and lengths, each in hexadecimal, one byte to a length.
use crate::text::{bytes_of, is_word, word};
use base::number::u8_to_u32;
use base::slice::part;
use leaf::bytes::get8;
use program::{bytes, lengths};

// More than a line has.
pub const LENGTHS: usize = 256;

// Each byte as a number, 0 past the end.
fn widen(bytes: &[u8], out: &mut [u32]) {
    for (i, to) in out.iter_mut().enumerate() {
        *to = u8_to_u32(get8(bytes, i));
    }
}

// The lengths of word k, each as a number; gives how many they are.
pub fn lengths_of(l: &[u8], k: u8, out: &mut [u32]) -> usize {
    let mut space = bytes::buffer();
    let bytes = bytes_of(l, k, &mut space);
    widen(bytes, out);
    bytes.len()
}

fn key_of(l: &[u8], identity: &[u8], texts: &[u8]) -> bool {
    let mut list = [0u32; LENGTHS];
    let mut space = bytes::buffer();
    let out: &mut [u8] = &mut space;
    let n = lengths_of(l, 3, &mut list);
    let a = key::key(identity, texts, lengths::first(&list, n), out);
    match a {
        Ok(m) => is_word(l, 4, part(out, 0, m)),
        Err(_) => false,
    }
}

// `key IDENTITY TEXTS LENGTHS ANSWER`
pub fn key(l: &[u8]) -> bool {
    let mut a = bytes::buffer();
    let identity = bytes_of(l, 1, &mut a);
    let mut b = bytes::buffer();
    let texts = bytes_of(l, 2, &mut b);
    key_of(l, identity, texts)
}

// Whether the answer is the line's last word, 1 for the same key and 0 for another.
fn answers(l: &[u8], stored: &[u8], identity: &[u8], texts: &[u8]) -> bool {
    let mut list = [0u32; LENGTHS];
    let n = lengths_of(l, 4, &mut list);
    let want = get8(l, word(l, 5));
    let a = key::same_key(stored, identity, texts, lengths::first(&list, n));
    match a {
        Ok(true) => want == b'1',
        Ok(false) => want == b'0',
        Err(_) => false,
    }
}

// Matches a stored key with the line's selection.
fn stored_key(l: &[u8], stored: &[u8]) -> bool {
    let mut a = bytes::buffer();
    let identity = bytes_of(l, 2, &mut a);
    let mut b = bytes::buffer();
    let texts = bytes_of(l, 3, &mut b);
    answers(l, stored, identity, texts)
}

// `samekey STORED IDENTITY TEXTS LENGTHS ANSWER`
pub fn same_key(l: &[u8]) -> bool {
    let mut space = bytes::buffer();
    let stored = bytes_of(l, 1, &mut space);
    stored_key(l, stored)
}
