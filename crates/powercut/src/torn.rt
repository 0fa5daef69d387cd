// A flash operation cut inside: which bytes of the region it changes, and after which of them a cut is tried.
use crate::kinds::Unknown;
use header::{COMMIT_OFFSET, HEADER_SIZE};
use leaf::bytes::WORD_SIZE;
use region::{BANK_SIZE, SECTOR_SIZE, SECTOR_SIZE_32, WRITE_UNIT};
use std::num::{wrapping_add_u32, wrapping_add_usize};

// What an operation is: the erase of the header's sector, the header's write, the commit word's, or an erase or a write of data.
#[derive(Clone, Copy, PartialEq, Eq)]
pub enum Target {
    HeaderErase,
    HeaderWrite,
    CommitWord,
    Data,
}

// Which cuts inside operations are tried: none, all in the header's three operations and some in the others, or all.
#[derive(Clone, Copy, PartialEq, Eq)]
pub enum Cuts {
    Nothing,
    Some,
    All,
}

// Flash is written in units, and the commit word is one of them.
const UNIT_LESS_ONE: usize = WRITE_UNIT - 1;

pub const WORD_SIZE_32: u32 = WORD_SIZE as u32;

const WORD_END: usize = COMMIT_OFFSET + WORD_SIZE;

const SECTORS: u32 = (BANK_SIZE / SECTOR_SIZE) as u32;

// How many cuts between the first byte and the last but one are tried in an operation on data, if not all are.
const BETWEEN: usize = 6;
// The first of them is after the second byte.
const FIRST_BETWEEN: usize = 2;
// An operation of fewer bytes is tried after each of them.
const SHORT: usize = 16;
// The update is begun again after each 509th cut inside an operation.
const AGAIN_EVERY: u32 = 509;

// The bytes of the region that an operation changes, and what it is.
#[derive(Clone, Copy)]
pub struct Span {
    pub target: Target,
    pub at: usize,
    pub size: usize,
}

// An operation of which the first bytes are done, and how many cuts inside operations were tried before.
#[derive(Clone, Copy)]
pub struct Cut {
    pub span: Span,
    pub done: usize,
    pub before: u32,
}

impl TryFrom<&[u8]> for Cuts {
    type Error = Unknown;

    fn try_from(name: &[u8]) -> Result<Cuts, Unknown> {
        match name {
            b"none" => Ok(Cuts::Nothing),
            b"some" => Ok(Cuts::Some),
            b"all" => Ok(Cuts::All),
            _ => Err(Unknown),
        }
    }
}

pub fn are_tried(c: Cuts) -> bool {
    c != Cuts::Nothing
}

fn erased(sector: u32) -> Target {
    if sector == 0 {
        Target::HeaderErase
    } else {
        Target::Data
    }
}

// The erase of a sector of the bank at an offset.
pub fn erase(bank: usize, sector: u32) -> Span {
    Span {
        target: erased(sector),
        at: wrapping_add_usize(bank, (sector % SECTORS) as usize * SECTOR_SIZE),
        size: SECTOR_SIZE,
    }
}

// A write of n bytes, rounded up to whole units, at an offset of the data.
pub fn write(bank: usize, offset: u32, n: u32) -> Span {
    let data = wrapping_add_usize(bank, SECTOR_SIZE);
    Span {
        target: Target::Data,
        at: wrapping_add_usize(data, offset as usize),
        size: ((n % SECTOR_SIZE_32) as usize + UNIT_LESS_ONE) / WRITE_UNIT * WRITE_UNIT,
    }
}

pub fn header_write(bank: usize) -> Span {
    Span {
        target: Target::HeaderWrite,
        at: bank,
        size: HEADER_SIZE,
    }
}

pub fn commit_word_write(bank: usize) -> Span {
    Span {
        target: Target::CommitWord,
        at: wrapping_add_usize(bank, COMMIT_OFFSET),
        size: WORD_SIZE,
    }
}

// Whether a cut after j bytes is one of those between the first byte and the last but one. They differ by the operation's number k.
fn is_between(n: usize, j: usize, k: u32) -> bool {
    if n < SHORT {
        return true;
    }
    let step = n / BETWEEN;
    (1 < j) & (j < step * BETWEEN + FIRST_BETWEEN) & (j % step == k as usize % step)
}

fn is_chosen(n: usize, j: usize, k: u32) -> bool {
    (j == 1) | (wrapping_add_usize(j, 1) == n) | is_between(n, j, k)
}

// Whether some cuts of the k-th operation include the one after its first j bytes.
fn is_among(s: Span, j: usize, k: u32) -> bool {
    let t = s.target;
    match t {
        Target::Data => is_chosen(s.size, j, k),
        _ => true,
    }
}

// Whether the cut after the first j bytes of the k-th operation is tried. With all its bytes done it is a cut between operations.
pub fn is_tried(choice: Cuts, s: Span, j: usize, k: u32) -> bool {
    if s.size <= j {
        return false;
    }
    match choice {
        Cuts::Nothing => false,
        Cuts::Some => is_among(s, j, k),
        Cuts::All => true,
    }
}

// Whether the update is begun again for the sake of this operation: in the header's write after its first byte and around the commit word, in
// the word after each byte.
fn is_sampled_target(t: Target, done: usize) -> bool {
    match t {
        Target::HeaderWrite => (done == 1) | ((COMMIT_OFFSET <= done) & (done <= WORD_END)),
        Target::CommitWord => true,
        _ => false,
    }
}

// Whether the update is begun again after a cut: at these bytes, and after every 509th cut inside an operation.
pub fn is_sampled(c: Cut) -> bool {
    let s = c.span;
    let t = s.target;
    is_sampled_target(t, c.done) | (wrapping_add_u32(c.before, 1) % AGAIN_EVERY == 0)
}
