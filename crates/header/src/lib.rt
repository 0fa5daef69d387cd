// A bank's header: its numbers and records, and the tests that don't read the data.
#![tactic(auto)]

pub mod write;

ghost use Rattle.header.specs.Claims.{Claims, SealClaims};
ghost use Rattle.std.specs.Prelude.{◌≡◌, ◌+◌, ◌*◌, ◌≤◌, length};
ghost use Rattle.base.specs.Lists.{each};
ghost use Rattle.header.specs.Header.{
  numbers_of,
  record_at,
  records_of,
  marked,
  seal_of,
  header_crc,
  sealed,
  span_ok,
  is_unknown,
  updated_ok,
  block_ok,
  source_ok,
  header_of,
};
ghost use Rattle.record.specs.Record.{record_size};
ghost use Rattle.header.specs.Header.{max_sources};

use base::number::u32_to_u64;
use base::slice::part;
use base::table::TABLES;
use leaf::bytes::{get, get_time};
use leaf::crc::crc32;
use leaf::date::valid_date;
use record::{Block, FIRST_VERSION, RECORD_SIZE, Source, VERSION, decode, source_size};
use refusal::Refusal;
use region::CAPACITY_32;

// Offsets of the header's numbers; bytes 28 to 31 are zero.
pub const MAGIC_OFFSET: usize = 0;

pub const VERSION_OFFSET: usize = 4;

pub const GENERATION_OFFSET: usize = 8;

pub const LENGTH_OFFSET: usize = 12;

pub const DATA_CRC_OFFSET: usize = 16;

pub const COUNT_OFFSET: usize = 20;

pub const KEY_OFFSET: usize = 24;

pub const ZERO_OFFSET: usize = 28;

pub const CHECKED_OFFSET: usize = 32;

// Three records, from byte 48 on; the header CRC and the commit word just before them.
pub const SOURCES: usize = 3;

pub const SOURCES_32: u32 = SOURCES as u32;

pub const CRC_OFFSET: usize = 40;

pub const COMMIT_OFFSET: usize = 44;

pub const RECORDS_OFFSET: usize = 48;

pub const HEADER_SIZE: usize = RECORDS_OFFSET + SOURCES * RECORD_SIZE;

// The header CRC and the commit word, which count as zeros in that CRC.
const SEAL_SIZE: usize = RECORDS_OFFSET - CRC_OFFSET;

// A bit for each table.
pub const MAX_PRESENT: u32 = 255;

pub const MAGIC: u32 = 0x43465454;

pub const COMMIT_WORD: u32 = 0x434f4d54;

// The commit word as the first write of a header has it.
pub const BLANK_WORD: u32 = 0xffffffff;

// A bank's numbers; `key` is the key's length.
#[repr(C)]
#[derive(Clone, Copy)]
pub struct Bank {
    pub number: u32,
    pub version: u32,
    pub generation: u32,
    pub length: u32,
    pub crc: u32,
    pub count: u32,
    pub key: u32,
    pub checked: i64,
}

fn numbers_of(b: &[u8], number: u32) -> Bank
    ensures { result ≡ numbers_of number b.now }
{
    Bank {
        number,
        version: get(b, VERSION_OFFSET),
        generation: get(b, GENERATION_OFFSET),
        length: get(b, LENGTH_OFFSET),
        crc: get(b, DATA_CRC_OFFSET),
        count: get(b, COUNT_OFFSET),
        key: get(b, KEY_OFFSET),
        checked: get_time(b, CHECKED_OFFSET),
    }
}

fn is_marked(b: &[u8]) -> bool
    ensures { result ≡ marked b.now }
{
    let v = get(b, VERSION_OFFSET);
    (get(b, MAGIC_OFFSET) == MAGIC)
        & ((FIRST_VERSION <= v) & ((v <= VERSION) & (get(b, COMMIT_OFFSET) == COMMIT_WORD)))
}

// The header CRC, from the bytes before it and the records, of any length. Between them it feeds as many zeros as the CRC
// and the commit word have bytes, so that no header is copied to set them to zero (02, E6).
pub fn seal(front: &[u8], records: &[u8]) -> u32
    ensures { result ≡ seal_of front.now records.now }
{
    let zeros = [0u8; SEAL_SIZE];
    let x = crc32(0, front);
    let y = crc32(x, &zeros);
    crc32(y, records)
}

fn header_crc(b: &[u8], size: usize) -> u32
    requires { size ≤ record_size }
    ensures { result ≡ header_crc b.now size }
{
    let front = part(b, 0, CRC_OFFSET);
    let records = part(b, RECORDS_OFFSET, size * SOURCES);
    seal(front, records)
}

fn is_sealed(b: &[u8]) -> bool
    ensures { result ≡ sealed b.now }
{
    let size = source_size(get(b, VERSION_OFFSET));
    get(b, CRC_OFFSET) == header_crc(b, size)
}

// Whether lengths, count and checked time pass 5.
pub fn span_ok(b: Bank) -> bool
    ensures { result ≡ span_ok b }
{
    ((1 <= b.length) & (b.length <= CAPACITY_32))
        & (((1 <= b.key) & (b.key <= b.length))
            & (((1 <= b.count) & (b.count <= SOURCES_32)) & (0 <= b.checked)))
}

fn is_unknown(t: i64) -> bool
    ensures { result ≡ is_unknown t }
{
    t == i64::MIN
}

fn updated_ok(checked: i64, u: i64) -> bool
    ensures { result ≡ updated_ok checked u }
{
    is_unknown(u) | ((0 <= u) & (u <= checked))
}

fn block_ok(b: Bank, t: Block) -> bool
    ensures { result ≡ block_ok b t }
{
    (t.length == 0)
        | ((b.key <= t.offset)
            & (u32_to_u64(t.offset) + u32_to_u64(t.length) <= u32_to_u64(b.length)))
}

fn blocks_ok(b: Bank, ts: [Block; TABLES]) -> bool
    ensures { result ≡ each (block_ok b) ts }
{
    ts.iter().all(|t| block_ok(b, *t))
}

// Whether dates, present bits, updated time and blocks of a source pass 6.
pub fn source_ok(b: Bank, s: Source) -> bool
    ensures { result ≡ source_ok b s }
{
    (valid_date(s.start) & (valid_date(s.end) & (s.start <= s.end)))
        & ((s.present <= MAX_PRESENT) & (updated_ok(b.checked, s.updated) & blocks_ok(b, s.tables)))
}

// The record of a version at an offset of a bank.
pub fn record_at(b: &[u8], version: u32, at: usize) -> Source
    ensures { result ≡ record_at version b.now at }
{
    let rest = part(b, at, b.len());
    decode(rest, version)
}

// Whether the first n records pass 6.
fn records_ok(l: &[u8], b: Bank, n: usize) -> bool
    requires { n ≤ max_sources }
    ensures { result ≡ each (source_ok b) (records_of b.version l.now n) }
{
    let size = source_size(b.version);
    (0..n).all(|i| source_ok(b, record_at(l, b.version, RECORDS_OFFSET + i * size)))
}

// The tests of a bank that don't read its data: refusals 3 to 6.
pub fn header_of(l: &[u8], number: u32) -> Result<Bank, Refusal>
    ensures { result ≡ header_of number l.now }
{
    if !is_marked(l) {
        return Err(Refusal::Mark);
    }
    if !is_sealed(l) {
        return Err(Refusal::Seal);
    }
    let b = numbers_of(l, number);
    if !span_ok(b) {
        return Err(Refusal::Span);
    }
    if !records_ok(l, b, b.count as usize) {
        return Err(Refusal::Source);
    }
    Ok(b)
}

// What holds of a header as written. The function does nothing: its contract is what is proved of the
// definitions (specs/Claims.antt).
pub fn header_holds()
    ensures { Claims }
{}

// What holds of the header CRC. The function does nothing: its contract is what is proved of the definitions
// (specs/Claims.antt).
pub fn seal_holds()
    ensures { SealClaims }
{}
