// What is in the bank that is written, before an update begins.
use crate::data::make;
use crate::kinds::{FULL_OPERATIONS, Leftover};
use crate::update::{begin, run};
use base::number::BYTE_VALUES_32;
use base::slice::part;
use header::{Bank, CRC_OFFSET, GENERATION_OFFSET, RECORDS_OFFSET, SOURCES, VERSION_OFFSET, seal};
use leaf::bytes::{get, get8, put};
use program::bytes::{fill, put8};
use record::source_size;
use refusal::Refusal;
use region::{BANK_SIZE, CAPACITY, ERASED_BYTE};
use std::num::{wrapping_add_usize, wrapping_sub_u32};

const BANKS: u32 = region::BANKS as u32;

// The first line number of another update.
const OTHER_LINES: usize = 5000;
// Another update is cut half-way, or before its commit word.
const HALF: u32 = FULL_OPERATIONS / 2;

const BUT_LAST: u32 = FULL_OPERATIONS - 1;

// Marsaglia's xorshift: its seed and its shifts, and below which number nothing is shifted out.
const SEED: u32 = 2463534242;

const LEFT: u32 = 13;

const LEFT_LIMIT: u32 = 524288;

const RIGHT: u32 = 17;

const LEFT_AGAIN: u32 = 5;

const LEFT_AGAIN_LIMIT: u32 = 134217728;

// The number of the bank that is written if load gives l.
pub fn number_after(l: Result<Option<Bank>, Refusal>) -> u32 {
    match l {
        Ok(Some(b)) => { if b.number == 0 { 1 } else { 0 } }
        _ => 0,
    }
}

// Where that bank starts.
pub fn start(l: Result<Option<Bank>, Refusal>) -> usize {
    (number_after(l) % BANKS) as usize * BANK_SIZE
}

// Copies the bank at an offset to another offset.
fn copy_bank(region: &mut [u8], from: usize, to: usize) {
    for i in 0..BANK_SIZE {
        let b = get8(region, wrapping_add_usize(from, i));
        put8(region, wrapping_add_usize(to, i), b);
    }
}

// The next number of a fixed pseudorandom sequence.
fn shuffled(x: u32) -> u32 {
    let a = x ^ ((x % LEFT_LIMIT) << LEFT);
    let b = a ^ (a >> RIGHT);
    b ^ ((b % LEFT_AGAIN_LIMIT) << LEFT_AGAIN)
}

// Sets the bytes of the bank at an offset to pseudorandom ones, the same at each run.
fn shuffle_bank(region: &mut [u8], from: usize) {
    let mut x = SEED;
    for i in 0..BANK_SIZE {
        x = shuffled(x);
        put8(
            region,
            wrapping_add_usize(from, i),
            (x % BYTE_VALUES_32) as u8,
        );
    }
}

// The CRC of the header at an offset.
fn header_crc(region: &[u8], at: usize) -> u32 {
    let size = source_size(get(region, wrapping_add_usize(at, VERSION_OFFSET)));
    seal(
        part(region, at, CRC_OFFSET),
        part(
            region,
            wrapping_add_usize(at, RECORDS_OFFSET),
            size * SOURCES,
        ),
    )
}

// Makes the bank a copy of the active one, a generation older.
fn older_bank(region: &mut [u8], b: Bank, to: usize) {
    copy_bank(region, (b.number % BANKS) as usize * BANK_SIZE, to);
    put(
        region,
        wrapping_add_usize(to, GENERATION_OFFSET),
        wrapping_sub_u32(b.generation, 1),
    );
    let crc = header_crc(region, to);
    put(region, wrapping_add_usize(to, CRC_OFFSET), crc);
}

// Without an active bank nothing is copied.
fn older(region: &mut [u8], l: Result<Option<Bank>, Refusal>) {
    match l {
        Ok(Some(b)) => older_bank(region, b, start(l)),
        _ => return,
    }
}

// Another full update, cut after the first n operations.
fn cut_update(region: &mut [u8], data: &mut [u8], operations: u32) {
    make(data, CAPACITY, OTHER_LINES);
    let u = begin(region, CAPACITY, false, false);
    run(u, region, data, operations);
}

pub fn leave(region: &mut [u8], data: &mut [u8], l: Leftover) {
    let active = bank::load(region);
    match l {
        Leftover::Found => return,
        Leftover::Erased => fill(region, start(active), BANK_SIZE, ERASED_BYTE),
        Leftover::Older => older(region, active),
        Leftover::Half => cut_update(region, data, HALF),
        Leftover::Headed => cut_update(region, data, BUT_LAST),
        Leftover::Random => shuffle_bank(region, start(active)),
    }
}
