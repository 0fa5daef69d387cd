// The bytes of an update: a key, the dates of its one source, a names line, and rows up to the wanted length.
use leaf::bytes::put;
use program::bytes::{copy, fill};
use record::{DATE_SIZE, DATES_SIZE};
use region::CAPACITY;
use std::io::{Cursor, Write};
use std::num::{wrapping_add_usize, wrapping_sub_usize};

// The dates of the source.
pub const FIRST_DAY: u32 = 20260101;

pub const LAST_DAY: u32 = 20261231;

const NAMES: &[u8] = b"route_id,route_short_name,route_type\n";

const NAMES_SIZE: usize = 37;

const BEFORE_ROWS: usize = DATES_SIZE + NAMES_SIZE;

const ROW_SIZE: usize = 16;
// A multiple of a row.
const SHORTEST_KEY: usize = ROW_SIZE + ROW_SIZE;

// How many numbers the digits of a row's number have, and those of its line number.
const NUMBERS: usize = 1000000;

const LINES: usize = 10000;

// A buffer of zeros for the longest update.
pub fn buffer() -> [u8; CAPACITY] {
    [0; CAPACITY]
}

// The length of the key of an update of n bytes, chosen so that the last row is whole.
pub fn key_length(n: usize) -> usize {
    SHORTEST_KEY + wrapping_sub_usize(n, BEFORE_ROWS) % ROW_SIZE
}

// Where the table starts.
pub fn table_start(n: usize) -> usize {
    wrapping_add_usize(key_length(n), DATES_SIZE)
}

// Row x, whose line number is y.
fn row(x: usize, y: usize) -> [u8; ROW_SIZE] {
    let mut out = Cursor::new([0u8; ROW_SIZE]);
    // It fits.
    let _ = writeln!(out, "r{:06},L{:04},3", x % NUMBERS, y % LINES);
    out.into_inner()
}

// Writes rows to the part of an update that is theirs.
fn put_rows(rows: &mut [u8], lines: usize) {
    for (x, to) in rows.chunks_mut(ROW_SIZE).enumerate() {
        copy(&row(x, wrapping_add_usize(x, lines)), to, 0);
    }
}

// Makes an update of n bytes; the line numbers of its rows start at `lines`.
pub fn make(data: &mut [u8], n: usize, lines: usize) {
    let table = table_start(n);
    fill(data, 0, table, b'k');
    put(data, key_length(n), FIRST_DAY);
    put(data, wrapping_add_usize(key_length(n), DATE_SIZE), LAST_DAY);
    copy(NAMES, data, table);
    if let Some(rows) = data.get_mut(wrapping_add_usize(table, NAMES_SIZE)..n) {
        put_rows(rows, lines);
    }
}
