// The marks of the cuts, for the picture: those between operations come first, then a strip of cells for each of the header's erase, the header's
// write and the commit word.
use crate::scratch::{MARKS, MARKS_SIZE};
use crate::torn::{Span, Target, WORD_SIZE_32};
use header::HEADER_SIZE;
use leaf::bytes::get8;
use program::bytes::{fill, put8};
use region::SECTOR_SIZE_32;
use std::num::{wrapping_add_u32, wrapping_add_usize, wrapping_sub_u32};

// What load gave: what was found, the new bank, something wrong. A cell that no cut was tried for is a mark too. No enum: marks are bytes of the
// scratch buffer, the worse of two is the larger, and the classes of the picture's style have these numbers.
pub const OLD: u8 = 0;

pub const NEW: u8 = 1;

pub const WRONG: u8 = 2;

const UNTRIED: u8 = 3;
// Added to a mark if the update was begun again.
pub const BEGUN_AGAIN: u8 = 4;

// Where the strips start, and how many cells each has at most.
const STRIPS: u32 = 2048;

const STRIP_SIZE: u32 = 256;

const HEADER_WRITE: u32 = STRIPS + STRIP_SIZE;

const COMMIT_WORD: u32 = HEADER_WRITE + STRIP_SIZE;
// How many bytes make one cell; in the commit word each byte is one.
const GROUP: u32 = 32;

const HEADER_SIZE_32: u32 = HEADER_SIZE as u32;

// Where the marks of a strip start.
pub fn start(t: Target) -> u32 {
    match t {
        Target::CommitWord => COMMIT_WORD,
        Target::HeaderWrite => HEADER_WRITE,
        _ => STRIPS,
    }
}

// How many bytes the operation of a strip has.
pub fn operation_size(t: Target) -> u32 {
    match t {
        Target::CommitWord => WORD_SIZE_32,
        Target::HeaderErase => SECTOR_SIZE_32,
        _ => HEADER_SIZE_32,
    }
}

// The cell of the byte at an index.
fn cell(t: Target, index: u32) -> u32 {
    match t {
        Target::CommitWord => index % STRIP_SIZE,
        _ => index / GROUP % STRIP_SIZE,
    }
}

// How many cells a strip has.
pub fn cells(t: Target) -> u32 {
    wrapping_add_u32(cell(t, wrapping_sub_u32(operation_size(t), 1)), 1)
}

// The first byte of a cell, counted from 1.
pub fn first_byte(t: Target, k: u32) -> u32 {
    match t {
        Target::CommitWord => wrapping_add_u32(k, 1),
        _ => k % STRIP_SIZE * GROUP + 1,
    }
}

// The last byte of a cell; the last cell ends with the operation.
pub fn last_byte(t: Target, k: u32) -> u32 {
    let next = wrapping_sub_u32(first_byte(t, wrapping_add_u32(k, 1)), 1);
    next.min(operation_size(t))
}

fn has_strip(t: Target) -> bool {
    t != Target::Data
}

// Marks every cell as untried.
pub fn clear(scratch: &mut [u8]) {
    fill(scratch, MARKS, MARKS_SIZE, UNTRIED);
}

// The mark of a cut between operations, or of a strip's cell.
pub fn mark_at(scratch: &[u8], index: u32) -> u8 {
    get8(scratch, wrapping_add_usize(MARKS, index as usize))
}

pub fn put_mark(scratch: &mut [u8], index: u32, mark: u8) {
    put8(scratch, wrapping_add_usize(MARKS, index as usize), mark);
}

// Joins two marks of a cell: the worse result, and whether the update was begun again.
fn joined(old: u8, new: u8) -> u8 {
    if old == UNTRIED {
        return new;
    }
    let again = (BEGUN_AGAIN <= old) | (BEGUN_AGAIN <= new);
    let gave = (old % BEGUN_AGAIN).max(new % BEGUN_AGAIN);
    if again {
        BEGUN_AGAIN + gave % BEGUN_AGAIN
    } else {
        gave
    }
}

// Notes the result of the cut after the first n bytes of an operation, if the operation has a strip.
pub fn put_inside(scratch: &mut [u8], s: Span, n: u32, mark: u8) {
    let t = s.target;
    if !has_strip(t) {
        return;
    }
    let index = wrapping_add_u32(start(t), cell(t, wrapping_sub_u32(n, 1)));
    let old = mark_at(scratch, index);
    put_mark(scratch, index, joined(old, mark));
}
