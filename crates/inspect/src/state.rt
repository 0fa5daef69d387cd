// What happened to a bank, from its bytes.
use base::slice::part;
use base::table::TABLES;
use header::{
    Bank, CHECKED_OFFSET, COMMIT_OFFSET, COMMIT_WORD, COUNT_OFFSET, CRC_OFFSET, DATA_CRC_OFFSET,
    GENERATION_OFFSET, KEY_OFFSET, LENGTH_OFFSET, MAGIC, MAGIC_OFFSET, RECORDS_OFFSET, SOURCES,
    VERSION_OFFSET, seal,
};
use leaf::bytes::{get, get_time};
use leaf::crc::crc32;
use record::{Block, FIRST_VERSION, VERSION, source_size};
use refusal::Refusal;
use region::{BANK_SIZE, CAPACITY, ERASED_BYTE, SECTOR_SIZE, SECTOR_SIZE_32, bank_of};
use std::num::wrapping_add_u32;

// The commit word of a header that is written but for it.
const NO_WORD: u32 = header::BLANK_WORD;

// No record is larger.
const RECORD_LIMIT: usize = SECTOR_SIZE;

pub const SECTORS: u32 = (BANK_SIZE / SECTOR_SIZE) as u32;

pub const LAST_SECTOR: u32 = SECTORS - 1;

#[derive(Clone, Copy)]
pub enum State {
    // It passes every test.
    Good,
    // Every byte is that of an erased sector.
    Erased,
    // The header's sector is erased; data are written.
    NoHeader,
    // There is no commit word, and magic, version or CRC aren't those of a header.
    HeaderInPart,
    // The header is whole, the commit word erased.
    NoCommitWord,
    // The header is whole, the commit word neither erased nor right.
    CommitWordInPart,
    // There is a commit word, and the magic is wrong.
    Magic,
    // There are magic and commit word, and a version that isn't known.
    Version,
    // Refusals 4, 5, 6 and 7.
    Header,
    Numbers,
    Source,
    Data,
}

impl State {
    // Whether the header's numbers are there to be shown.
    pub fn has_numbers(self) -> bool {
        !matches!(self, State::Erased | State::NoHeader)
    }

    // Whether the header is whole, so that its length is that of the data.
    pub fn is_whole(self) -> bool {
        matches!(
            self,
            State::Good | State::NoCommitWord | State::CommitWordInPart | State::Data
        )
    }
}

// A bank's state; its last sector that isn't erased; its header's numbers, as the bytes have them; and the CRCs that the bytes have.
#[derive(Clone, Copy)]
pub struct Found {
    pub state: State,
    pub last: u32,
    pub numbers: Bank,
    pub header_crc: u32,
    pub computed_header_crc: u32,
    pub computed_data_crc: u32,
}

// What a sector holds: nothing, the header, data of a bank with a good header, those of a table whose CRC is wrong, other bytes.
#[derive(Clone, Copy)]
pub enum Sector {
    Erased,
    Header,
    Data,
    Damaged,
    Other,
}

fn is_erased(s: &[u8]) -> bool {
    s.iter().all(|b| *b == ERASED_BYTE)
}

fn sector_bytes(l: &[u8], k: u32) -> &[u8] {
    part(l, (k % SECTORS) as usize * SECTOR_SIZE, SECTOR_SIZE)
}

// The last sector that isn't erased; 0 if there is none.
fn last_written(l: &[u8]) -> u32 {
    (0..SECTORS)
        .rev()
        .find(|k| !is_erased(sector_bytes(l, *k)))
        .unwrap_or(0)
}

fn numbers_of(l: &[u8], number: u32) -> Bank {
    Bank {
        number,
        version: get(l, VERSION_OFFSET),
        generation: get(l, GENERATION_OFFSET),
        length: get(l, LENGTH_OFFSET),
        crc: get(l, DATA_CRC_OFFSET),
        count: get(l, COUNT_OFFSET),
        key: get(l, KEY_OFFSET),
        checked: get_time(l, CHECKED_OFFSET),
    }
}

// The CRC of a header's bytes.
fn header_crc_of(l: &[u8], version: u32) -> u32 {
    seal(
        part(l, 0, CRC_OFFSET),
        part(
            l,
            RECORDS_OFFSET,
            (source_size(version) % RECORD_LIMIT) * SOURCES,
        ),
    )
}

// The bytes of a bank that its header counts as data.
fn data(l: &[u8], b: Bank) -> &[u8] {
    part(part(l, SECTOR_SIZE, CAPACITY), 0, b.length as usize)
}

fn is_version(v: u32) -> bool {
    (FIRST_VERSION <= v) & (v <= VERSION)
}

// The state of a bank that has no mark.
fn unmarked(l: &[u8], last: u32, b: Bank, sealed: bool) -> State {
    if is_erased(sector_bytes(l, 0)) {
        if last == 0 {
            return State::Erased;
        }
        return State::NoHeader;
    }
    let magic = get(l, MAGIC_OFFSET) == MAGIC;
    let word = get(l, COMMIT_OFFSET);
    if word == COMMIT_WORD {
        if magic {
            return State::Version;
        }
        return State::Magic;
    }
    if !magic | !is_version(b.version) | !sealed {
        return State::HeaderInPart;
    }
    if word == NO_WORD {
        State::NoCommitWord
    } else {
        State::CommitWordInPart
    }
}

fn refused(l: &[u8], r: Refusal, last: u32, b: Bank, sealed: bool) -> State {
    match r {
        Refusal::Seal => State::Header,
        Refusal::Span => State::Numbers,
        Refusal::Source => State::Source,
        Refusal::Data => State::Data,
        _ => unmarked(l, last, b, sealed),
    }
}

// What a bank's bytes say, beside the answer of validate.
pub fn find(region: &[u8], number: u32, v: Result<Bank, Refusal>) -> Found {
    let l = bank_of(region, number);
    let last = last_written(l);
    let numbers = numbers_of(l, number);
    let header_crc = get(l, CRC_OFFSET);
    let computed_header_crc = header_crc_of(l, numbers.version);
    let sealed = header_crc == computed_header_crc;
    let state = match v {
        Ok(_) => State::Good,
        Err(r) => refused(l, r, last, numbers, sealed),
    };
    Found {
        state,
        last,
        numbers,
        header_crc,
        computed_header_crc,
        computed_data_crc: crc32(0, data(l, numbers)),
    }
}

// The CRC of the bytes of a table's block.
pub fn block_crc(region: &[u8], number: u32, b: Block) -> u32 {
    crc32(0, snapshot::rows::bytes_of(region, number, b))
}

// Whether a block has bytes in a sector.
fn reaches(b: Block, k: u32) -> bool {
    if b.length == 0 {
        return false;
    }
    let first = wrapping_add_u32(b.offset / SECTOR_SIZE_32, 1);
    let end = wrapping_add_u32(b.offset, std::num::wrapping_sub_u32(b.length, 1));
    let last = wrapping_add_u32(end / SECTOR_SIZE_32, 1);
    (first <= k) & (k <= last)
}

// Whether table t of source i has bytes in a sector and a wrong CRC.
fn damages(region: &[u8], number: u32, i: u32, t: u32, k: u32) -> bool {
    let a = snapshot::rows::table_block(region, number, i, t);
    match a {
        Ok(b) => {
            if reaches(b, k) {
                return block_crc(region, number, b) != b.crc;
            }
            false
        }
        _ => false,
    }
}

// Whether a table with a wrong CRC has bytes in a sector.
fn is_damaged(region: &[u8], number: u32, k: u32) -> bool {
    for i in 0..SOURCES as u32 {
        for t in 0..TABLES as u32 {
            if damages(region, number, i, t, k) {
                return true;
            }
        }
    }
    false
}

// Whether sector k has bytes of the data: their first sector is sector 1.
fn is_before(length: u32, k: u32) -> bool {
    if length == 0 {
        return false;
    }
    k <= (length - 1) / SECTOR_SIZE_32 % SECTORS + 1
}

// What sector k of a bank holds.
pub fn sector_of(region: &[u8], number: u32, s: State, b: Bank, k: u32) -> Sector {
    if is_erased(sector_bytes(bank_of(region, number), k)) {
        return Sector::Erased;
    }
    if k == 0 {
        return Sector::Header;
    }
    if !s.is_whole() | !is_before(b.length, k) {
        return Sector::Other;
    }
    if is_damaged(region, number, k) {
        Sector::Damaged
    } else {
        Sector::Data
    }
}
