// The lines on rows. Lengths and ends are 16-bit numbers in hexadecimal.
use crate::text::{bytes_of, is_word, number32, offset, word, words};
use base::slice::part;
use leaf::bytes::get8;
use program::{bytes, lengths};
use rowread::Span;
use std::num::wrapping_add_usize;

// More values than a row has.
const VALUES: usize = 16;
// A 16-bit number has two bytes.
const PAIR: usize = 2;

// `names TABLE ANSWER`
pub fn names_line(l: &[u8]) -> bool {
    let mut space = bytes::buffer();
    let out: &mut [u8] = &mut space;
    let a = row::names_line(number32(l, word(l, 1)), out);
    match a {
        Ok(n) => is_word(l, 2, part(out, 0, n)),
        Err(_) => false,
    }
}

// The 16-bit number at an offset.
fn pair(bytes: &[u8], at: usize) -> u32 {
    u16::from_le_bytes([get8(bytes, at), get8(bytes, wrapping_add_usize(at, 1))]) as u32
}

// The 16-bit numbers of bytes, 0 past the end.
fn pairs(bytes: &[u8], out: &mut [u32]) {
    for (i, to) in out.iter_mut().enumerate() {
        *to = pair(bytes, wrapping_add_usize(i, i));
    }
}

// The 16-bit numbers of word k; gives how many they are.
fn numbers(l: &[u8], k: u8, out: &mut [u32]) -> usize {
    let mut space = bytes::buffer();
    let bytes = bytes_of(l, k, &mut space);
    pairs(bytes, out);
    bytes.len() / PAIR
}

fn row_of(l: &[u8], texts: &[u8]) -> bool {
    let mut list = [0u32; VALUES];
    let n = numbers(l, 3, &mut list);
    let mut space = bytes::large_buffer();
    let out: &mut [u8] = &mut space;
    let a = row::row(
        number32(l, word(l, 1)),
        texts,
        lengths::first(&list, n),
        out,
    );
    match a {
        Ok(m) => is_word(l, 4, part(out, 0, m)),
        Err(_) => false,
    }
}

// `row TABLE TEXTS LENGTHS ANSWER`
pub fn row(l: &[u8]) -> bool {
    let mut space = bytes::large_buffer();
    let texts = bytes_of(l, 2, &mut space);
    row_of(l, texts)
}

// Whether the first n ends are the 16-bit numbers of bytes.
fn same_ends(ends: &[usize], bytes: &[u8], n: usize) -> bool {
    (n <= ends.len())
        & ends.iter().take(n).enumerate().all(|(i, end)| *end
            == pair(bytes, wrapping_add_usize(i, i)) as usize)
}

// Whether these are the ends of word 6, as many as the row has values.
fn is_ends(l: &[u8], ends: &[usize]) -> bool {
    let mut space = bytes::buffer();
    let bytes = bytes_of(l, 6, &mut space);
    let n = bytes.len() / PAIR;
    (n == offset(l, word(l, 3))) & same_ends(ends, bytes, n)
}

// Reads a row of a table.
fn read_in(l: &[u8], table: &[u8]) -> bool {
    let mut space = bytes::large_buffer();
    let out: &mut [u8] = &mut space;
    let mut list = [0usize; VALUES];
    let ends: &mut [usize] = &mut list;
    let a = rowread::read_row(
        table,
        offset(l, word(l, 3)),
        offset(l, word(l, 4)),
        out,
        ends,
    );
    match a {
        Ok(Some(Span { next, size })) => {
            (words(l) == 8)
                & (next == offset(l, word(l, 5)))
                & is_ends(l, ends)
                & is_word(l, 7, part(out, 0, size))
        }
        Ok(None) => (words(l) == 6) & (get8(l, word(l, 5)) == b'-'),
        Err(_) => false,
    }
}

// `read FROM LENGTH WIDTH OFFSET NEXT ENDS VALUES`, or `-` after OFFSET at the end: reads a row of a table that is in the region.
pub fn read_row(l: &[u8], region: &[u8]) -> bool {
    read_in(
        l,
        part(region, offset(l, word(l, 1)), offset(l, word(l, 2))),
    )
}
