// A source's record in a bank's header: read for every version, written for version 3.
#![tactic(auto)]

ghost use Rattle.record.specs.Claims.{Claims};
ghost use Rattle.std.specs.Prelude.{◌≡◌, ◌++◌, ◌+◌, ◌-◌, ◌*◌, ◌≤◌, length};
ghost use Rattle.std.proofs.lemmas.List.Edits.{sets};
ghost use Rattle.leaf.specs.Bytes.{word, le32, written, word_size};
ghost use Rattle.base.specs.Lists.{many, puts, fill, byte};
ghost use Rattle.record.specs.Record.{source_size, table_count, no_block, no_source, block_at, block_bytes, source_of, decoded, head_bytes, table_bytes, tail_bytes, source_bytes};
ghost use Rattle.record.specs.Record.{record_size, block_size, table_words, original_size, table_size, tables_offset, stamp_offset, validator_offset, stamp_size, id_size, validator_size};
ghost use Rattle.record.specs.Types.{Sized};
ghost use Rattle.base.specs.Table.{max_tables};

use base::number::{FOURTH_BYTE, SECOND_BYTE, THIRD_BYTE, u8_to_u32};
use base::slice::part;
use base::table::TABLES;
use leaf::bytes::{WORD_SIZE, get, get_time, get8, put, put_time};

// The versions that are read; the last is written.
pub const FIRST_VERSION: u32 = 1;

pub const SECOND_VERSION: u32 = 2;

pub const THIRD_VERSION: u32 = 3;

pub const VERSION: u32 = THIRD_VERSION;

// The bytes of a record of each version.
pub const FIRST_RECORD_SIZE: usize = 160;

pub const SECOND_RECORD_SIZE: usize = 352;

pub const RECORD_SIZE: usize = 384;

// How many tables a record has before version 3.
pub const EARLIER_TABLES: usize = 7;

// A source's two dates, as they are in its record and before its tables in the data.
pub const DATE_SIZE: usize = WORD_SIZE;

pub const DATES_SIZE: usize = DATE_SIZE + DATE_SIZE;

pub const DATES_SIZE_32: u32 = DATES_SIZE as u32;

// The original words of a table, and of all.
pub const TABLE_WORDS: usize = 2;

pub const ORIGINAL_WORDS: usize = TABLES * TABLE_WORDS;

// A table's block: offset, length, CRC.
pub const BLOCK_SIZE: usize = 12;

const BLOCK_LENGTH_OFFSET: usize = 4;

const BLOCK_CRC_OFFSET: usize = 8;

// The bytes that a table adds to a record: its original words and its block.
const ORIGINAL_SIZE: usize = TABLE_WORDS * WORD_SIZE;

const TABLE_SIZE: usize = ORIGINAL_SIZE + BLOCK_SIZE;

// Offsets of the fields before the tables, and where these begin.
const END_OFFSET: usize = 4;

const PRESENT_OFFSET: usize = 8;

const UPDATED_OFFSET: usize = 12;

const TABLES_OFFSET: usize = 20;

// Offsets of the fields after the tables, in a record with none; each table adds TABLE_SIZE.
const STAMP_OFFSET: usize = TABLES_OFFSET;

const IDLEN_OFFSET: usize = 32;

const ID_OFFSET: usize = 33;

const VALIDATOR_OFFSET: usize = 113;

// The zeros at the end of a record of version 3.
const PADDING_SIZE: usize = 45;

// In a record of version 3: where the fields after the tables are, and the zeros.
const TAIL_OFFSET: usize = TABLES * TABLE_SIZE + STAMP_OFFSET;

const PADDING_OFFSET: usize = RECORD_SIZE - PADDING_SIZE;

// The fields after the tables, counted from the first of them; and the blocks, counted from the original words.
const IDLEN_IN_TAIL: usize = IDLEN_OFFSET - STAMP_OFFSET;

const ID_IN_TAIL: usize = ID_OFFSET - STAMP_OFFSET;

const VALIDATOR_IN_TAIL: usize = VALIDATOR_OFFSET - STAMP_OFFSET;

const BLOCKS_IN_TABLES: usize = TABLES * ORIGINAL_SIZE;

// Sizes of a record's arrays of bytes.
pub const STAMP_SIZE: usize = 12;

pub const ID_SIZE: usize = 80;

pub const VALIDATOR_SIZE: usize = 66;

// The longest id, and the longest validator.
pub const MAX_ID: u8 = ID_SIZE as u8;

pub const MAX_VALIDATOR: u8 = 64;

// Where a table's bytes are in the data, and their CRC.
#[repr(C)]
#[derive(Clone, Copy, PartialEq, Eq)]
pub struct Block {
    pub offset: u32,
    pub length: u32,
    pub crc: u32,
}

// The block of an absent table.
pub const NO_BLOCK: Block = Block {
    offset: 0,
    length: 0,
    crc: 0,
};

// A record. Stamp, id and validator are carried raw.
#[repr(C)]
#[derive(Clone, Copy)]
pub struct Source {
    pub start: u32,
    pub end: u32,
    pub present: u32,
    pub updated: i64,
    pub original: [u32; ORIGINAL_WORDS],
    pub tables: [Block; TABLES],
    pub stamp: [u8; STAMP_SIZE],
    pub idlen: u8,
    pub id: [u8; ID_SIZE],
    pub validator: [u8; VALIDATOR_SIZE],
}

// Does nothing: its contract says that arrays of these types have their lengths.
fn have_lengths(
    original: [u32; ORIGINAL_WORDS],
    tables: [Block; TABLES],
    stamp: [u8; STAMP_SIZE],
    id: [u8; ID_SIZE],
    validator: [u8; VALIDATOR_SIZE],
)
    ensures { (length original ≡ max_tables * table_words) × (length tables ≡ max_tables) × (length stamp ≡ stamp_size) × (length id ≡ id_size) × (length validator ≡ validator_size) }
{}

// Does nothing: its contract says that a record's arrays have their lengths.
pub fn is_sized(s: Source)
    ensures { Sized s }
{
    have_lengths(s.original, s.tables, s.stamp, s.id, s.validator);
}

// A record of zeros.
pub fn no_source() -> Source
    ensures { result ≡ no_source }
{
    Source {
        start: 0,
        end: 0,
        present: 0,
        updated: 0,
        original: [0; ORIGINAL_WORDS],
        tables: [NO_BLOCK; TABLES],
        stamp: [0; STAMP_SIZE],
        idlen: 0,
        id: [0; ID_SIZE],
        validator: [0; VALIDATOR_SIZE],
    }
}

// How many bytes a record of a version has.
pub fn source_size(version: u32) -> usize
    ensures { (result ≡ source_size version) × (result ≤ record_size) }
{
    if version < SECOND_VERSION {
        FIRST_RECORD_SIZE
    } else if version < THIRD_VERSION {
        SECOND_RECORD_SIZE
    } else {
        RECORD_SIZE
    }
}

// How many tables a record of a version has.
fn table_count(version: u32) -> usize
    ensures { (result ≡ table_count version) × (result ≤ max_tables) }
{
    if version < THIRD_VERSION {
        EARLIER_TABLES
    } else {
        TABLES
    }
}

// The 32-bit number at an offset as leaf::bytes::get reads it, but in one load if all of it is there.
fn word_at(r: &[u8], at: usize) -> u32
    ensures { result ≡ word r.now at }
{
    if r.len() < WORD_SIZE {
        return get(r, at);
    }
    if r.len() - WORD_SIZE < at {
        return get(r, at);
    }
    u8_to_u32(r[at])
        + u8_to_u32(r[at + 1]) * SECOND_BYTE
        + u8_to_u32(r[at + 2]) * THIRD_BYTE
        + u8_to_u32(r[at + 3]) * FOURTH_BYTE
}

fn block_at(r: &[u8], at: usize) -> Block
    requires { at ≤ record_size + max_tables * block_size }
    ensures { result ≡ block_at r.now at }
{
    Block {
        offset: word_at(r, at),
        length: word_at(r, at + BLOCK_LENGTH_OFFSET),
        crc: word_at(r, at + BLOCK_CRC_OFFSET),
    }
}

// Words and blocks are read by two functions, and written by two: one for both would need a trait of the element's size, reader, writer and
// laws, which is longer than the four.
fn words_at(r: &[u8], at: usize, n: usize) -> [u32; ORIGINAL_WORDS]
    requires { (n ≤ max_tables * table_words) × (at ≤ record_size) }
    ensures { result ≡ many word word_size r.now at n ++ fill 0 (max_tables * table_words - n) }
{
    let mut t = [0u32; ORIGINAL_WORDS];
    for j in 0..n {
        t[j] = word_at(r, at + j * WORD_SIZE);
    }
    t
}

fn blocks_at(r: &[u8], at: usize, n: usize) -> [Block; TABLES]
    requires { (n ≤ max_tables) × (at ≤ record_size) }
    ensures { result ≡ many block_at block_size r.now at n ++ fill no_block (max_tables - n) }
{
    let mut t = [NO_BLOCK; TABLES];
    for j in 0..n {
        t[j] = block_at(r, at + j * BLOCK_SIZE);
    }
    t
}

// N bytes from an offset on; those past the end are 0.
fn bytes_at<const N: usize>(r: &[u8], at: usize) -> [u8; N]
    ensures { result ≡ many byte 1 r.now at N }
{
    let mut t = [0u8; N];
    let there = part(r, at, N);
    t[..there.len()].copy_from_slice(there);
    t
}

// Reads r as a record with n tables.
fn read(r: &[u8], n: usize) -> Source
    requires { n ≤ max_tables }
    ensures { result ≡ source_of n r.now }
{
    Source {
        start: word_at(r, 0),
        end: word_at(r, END_OFFSET),
        present: word_at(r, PRESENT_OFFSET),
        updated: get_time(r, UPDATED_OFFSET),
        original: words_at(r, TABLES_OFFSET, n * TABLE_WORDS),
        tables: blocks_at(r, n * ORIGINAL_SIZE + TABLES_OFFSET, n),
        stamp: bytes_at(r, n * TABLE_SIZE + STAMP_OFFSET),
        idlen: get8(r, n * TABLE_SIZE + IDLEN_OFFSET),
        id: bytes_at(r, n * TABLE_SIZE + ID_OFFSET),
        validator: bytes_at(r, n * TABLE_SIZE + VALIDATOR_OFFSET),
    }
}

// The record of a version at the start of bytes.
pub fn decode(bytes: &[u8], version: u32) -> Source
    ensures { result ≡ decoded version bytes.now }
{
    let size = source_size(version);
    let tables = table_count(version);
    let r = part(bytes, 0, size);
    read(r, tables)
}

// Writes an array of bytes at an offset, where it fits.
fn put_array<const N: usize>(out: &mut [u8], at: usize, bytes: [u8; N])
    requires { at + N ≤ length out.old }
    ensures { out.new ≡ sets out.old at bytes.entry }
{
    out[at..at + N].copy_from_slice(&bytes);
}

fn put_block(out: &mut [u8], at: usize, b: Block)
    requires { at + block_size ≤ length out.old }
    ensures { out.new ≡ sets out.old at (block_bytes b) }
{
    put(out, at, b.offset);
    put(out, at + BLOCK_LENGTH_OFFSET, b.length);
    put(out, at + BLOCK_CRC_OFFSET, b.crc);
}

fn put_words(out: &mut [u8], at: usize, ws: [u32; ORIGINAL_WORDS])
    requires { at + max_tables * original_size ≤ length out.old }
    ensures { out.new ≡ sets out.old at (puts le32 ws) }
{
    for (j, w) in ws.iter().enumerate() {
        put(out, at + j * WORD_SIZE, *w);
    }
}

fn put_blocks(out: &mut [u8], at: usize, bs: [Block; TABLES])
    requires { at + max_tables * block_size ≤ length out.old }
    ensures { out.new ≡ sets out.old at (puts block_bytes bs) }
{
    for (j, b) in bs.iter().enumerate() {
        put_block(out, at + j * BLOCK_SIZE, *b);
    }
}

fn put_head(out: &mut [u8], at: usize, s: Source)
    requires { at + tables_offset ≤ length out.old }
    ensures { out.new ≡ sets out.old at (head_bytes s) }
{
    put(out, at, s.start);
    put(out, at + END_OFFSET, s.end);
    put(out, at + PRESENT_OFFSET, s.present);
    put_time(out, at + UPDATED_OFFSET, s.updated);
}

fn put_tables(out: &mut [u8], at: usize, s: Source)
    requires { (at + max_tables * table_size ≤ length out.old) × Sized s }
    ensures { out.new ≡ sets out.old at (table_bytes s) }
{
    put_words(out, at, s.original);
    put_blocks(out, at + BLOCKS_IN_TABLES, s.tables);
}

fn put_tail(out: &mut [u8], at: usize, s: Source)
    requires { (at + (validator_offset + validator_size - stamp_offset) ≤ length out.old) × Sized s }
    ensures { out.new ≡ sets out.old at (tail_bytes s) }
{
    put_array(out, at, s.stamp);
    out[at + IDLEN_IN_TAIL] = s.idlen;
    put_array(out, at + ID_IN_TAIL, s.id);
    put_array(out, at + VALIDATOR_IN_TAIL, s.validator);
}

// Writes the record of version 3 at an offset, where it fits.
fn put_source(out: &mut [u8], at: usize, s: Source)
    requires { (at + record_size ≤ length out.old) × Sized s }
    ensures { out.new ≡ sets out.old at (source_bytes s) }
{
    put_head(out, at, s);
    put_tables(out, at + TABLES_OFFSET, s);
    put_tail(out, at + TAIL_OFFSET, s);
    put_array(out, at + PADDING_OFFSET, [0u8; PADDING_SIZE]);
}

// Writes the record of version 3 at an offset, if it fits; otherwise nothing changes.
pub fn encode(s: Source, out: &mut [u8], at: usize)
    ensures { out.new ≡ written out.old at (source_bytes s) }
{
    is_sized(s);
    if RECORD_SIZE <= out.len() {
        if at <= out.len() - RECORD_SIZE {
            put_source(out, at, s);
        }
    }
}

// What holds of records. The function does nothing: its contract is what is proved of the definitions
// (specs/Claims.antt).
pub fn records_hold()
    ensures { Claims }
{}
