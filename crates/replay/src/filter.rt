// The lines on the filter, which is at the region's start, and on the bytes there.
use crate::text::{bytes_of, is_word, number32, offset, word};
use base::slice::part;
use leaf::bytes::get8;
use program::bytes;
use refusal::Refusal;

// Whether the answer is the line's last word, 1 for present and 0 for absent.
fn is_answer(l: &[u8], a: Result<bool, Refusal>) -> bool {
    let want = get8(l, word(l, 3));
    match a {
        Ok(true) => want == b'1',
        Ok(false) => want == b'0',
        Err(_) => false,
    }
}

// Inserts into a filter in the first n bytes.
fn insert_in(region: &mut [u8], n: usize, id: &[u8]) -> Result<bool, Refusal> {
    if n < region.len() {
        return bloom::insert(&mut region[..n], id);
    }
    bloom::insert(region, id)
}

// `insert SIZE ID ANSWER`
pub fn insert(l: &[u8], region: &mut [u8]) -> bool {
    let mut space = bytes::buffer();
    let id = bytes_of(l, 2, &mut space);
    is_answer(l, insert_in(region, offset(l, word(l, 1)), id))
}

// `query SIZE ID ANSWER`
pub fn query(l: &[u8], region: &[u8]) -> bool {
    let mut space = bytes::buffer();
    let id = bytes_of(l, 2, &mut space);
    is_answer(l, bloom::query(part(region, 0, offset(l, word(l, 1))), id))
}

// `holds OFFSET BYTES`: whether the region's bytes at an offset are the line's.
pub fn holds(l: &[u8], region: &[u8]) -> bool {
    let mut space = bytes::buffer();
    let want = bytes_of(l, 2, &mut space);
    let bytes = part(region, offset(l, word(l, 1)), want.len());
    (0 < want.len()) & is_word(l, 2, bytes)
}

// `sum OFFSET COUNT ANSWER`: whether the CRC-32 of the region's bytes at an offset is the line's.
pub fn sum(l: &[u8], region: &[u8]) -> bool {
    let bytes = part(region, offset(l, word(l, 1)), offset(l, word(l, 2)));
    leaf::crc::crc32(0, bytes) == number32(l, word(l, 3))
}
