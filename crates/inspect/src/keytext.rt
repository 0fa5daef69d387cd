// A stored key taken apart: the identity, if it has one, then how many picks follow, and the five texts of each after their lengths.
ghost use Rattle.std.specs.Iterator.{at_most};

use base::number::u8_to_u32;
use base::slice::part;
use key::{FIELDS, IDENTITY_MARK, PREFIX_SIZE};
use leaf::bytes::get8;
use std::num::wrapping_add_usize;

// Where the two bytes of an identity's length are.
const LENGTH_LOW: usize = 1;

const LENGTH_HIGH: usize = 2;

pub const LAST_FIELD: usize = FIELDS - 1;

// Where the parts of a key are: how long the identity is, if there is one, where the first field is, and how many fields there are.
#[derive(Clone, Copy)]
pub struct Parts {
    pub identity: Option<usize>,
    pub first: usize,
    pub fields: u32,
}

fn identity_size(key: &[u8]) -> usize {
    u16::from_le_bytes([get8(key, LENGTH_LOW), get8(key, LENGTH_HIGH)]) as usize
}

// The offset after the field at an offset.
fn after_field(key: &[u8], at: usize) -> usize {
    wrapping_add_usize(wrapping_add_usize(at, 1), get8(key, at) as usize)
}

// The text of the field at an offset.
fn field_at(key: &[u8], at: usize) -> &[u8] {
    part(key, wrapping_add_usize(at, 1), get8(key, at) as usize)
}

// The offset after n fields.
fn after_fields(key: &[u8], first: usize, n: u32) -> usize {
    let mut at = first;
    for _ in 0..n {
        at = after_field(key, at);
    }
    at
}

// The parts of a key; none if the bytes aren't laid out so.
pub fn parts_of(key: &[u8]) -> Option<Parts> {
    let identity = if get8(key, 0) == IDENTITY_MARK {
        Some(identity_size(key))
    } else {
        None
    };
    let start = match identity {
        Some(size) => wrapping_add_usize(PREFIX_SIZE, size),
        None => 0,
    };
    let fields = u8_to_u32(get8(key, start)) * (FIELDS as u32);
    let first = wrapping_add_usize(start, 1);
    if (start < key.len()) & (after_fields(key, first, fields) == key.len()) {
        return Some(Parts {
            identity,
            first,
            fields,
        });
    }
    None
}

// The identity, which has a size.
pub fn identity_of(key: &[u8], size: usize) -> &[u8] {
    part(key, PREFIX_SIZE, size)
}

// The texts of a key's fields, one after the other.
#[derive(Clone, Copy)]
pub struct Texts<'a> {
    key: &'a [u8],
    at: usize,
    left: u32,
}

impl<'a> Iterator for Texts<'a> {
    type Item = &'a [u8];

    ghost remaining = { λ s. at_most s.left };

    fn next(&mut self) -> Option<&'a [u8]> {
        if self.left == 0 {
            return None;
        }
        let text = field_at(self.key, self.at);
        self.at = after_field(self.key, self.at);
        self.left -= 1;
        Some(text)
    }
}

// The texts of a key, by its parts.
pub fn texts_of(key: &[u8], p: Parts) -> Texts<'_> {
    Texts {
        key,
        at: p.first,
        left: p.fields,
    }
}
