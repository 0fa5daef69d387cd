// One line of the list: whether the core's answer is the line's. Above each function is the form of its line; word 0 is the kind.
use crate::kinds::Kind;
use crate::text::{BYTE_VALUES, bytes_of, is_word, number, number32, offset, signed, unhex, word};
use crate::{banks, filter, keys, rows};
use base::slice::part;
use leaf::date::Date;
use program::bytes;

// How many values 16 bits have.
const SHORT_VALUES: u64 = BYTE_VALUES * BYTE_VALUES;

// Whether a yes or no is the list's 1 or 0.
fn agrees(is: bool, want: u64) -> bool {
    want == u64::from(is)
}

// `date NUMBER ANSWER`
fn date(l: &[u8]) -> bool {
    agrees(
        leaf::date::valid_date(number32(l, word(l, 1))),
        number(l, word(l, 2)),
    )
}

// `new YEAR MONTH DAY ANSWER`
fn new(l: &[u8]) -> bool {
    let year = (number(l, word(l, 1)) % SHORT_VALUES) as u16;
    let month = (number(l, word(l, 2)) % BYTE_VALUES) as u8;
    let day = (number(l, word(l, 3)) % BYTE_VALUES) as u8;
    let want = number32(l, word(l, 4));
    match Date::new(year, month, day) {
        Some(d) => d.0 == want,
        None => want == 0,
    }
}

// `newer A B ANSWER`
fn newer(l: &[u8]) -> bool {
    let is = leaf::generation::newer(number32(l, word(l, 1)), number32(l, word(l, 2)));
    agrees(is, number(l, word(l, 3)))
}

// `next GENERATION ANSWER`
fn next(l: &[u8]) -> bool {
    leaf::generation::next(number32(l, word(l, 1))) == number32(l, word(l, 2))
}

// `rotate NUMBER ANSWER`
fn rotate(l: &[u8]) -> bool {
    base::number::rotate13(number32(l, word(l, 1))) == number32(l, word(l, 2))
}

// `crc START BYTES ANSWER`
fn crc(l: &[u8]) -> bool {
    let mut space = bytes::buffer();
    let bytes = bytes_of(l, 2, &mut space);
    leaf::crc::crc32(number32(l, word(l, 1)), bytes) == number32(l, word(l, 3))
}

// `get BYTES OFFSET ANSWER`
fn get(l: &[u8]) -> bool {
    let mut space = bytes::buffer();
    let bytes = bytes_of(l, 1, &mut space);
    leaf::bytes::get(bytes, offset(l, word(l, 2))) == number32(l, word(l, 3))
}

// `time BYTES OFFSET ANSWER`
fn time(l: &[u8]) -> bool {
    let mut space = bytes::buffer();
    let bytes = bytes_of(l, 1, &mut space);
    leaf::bytes::get_time(bytes, offset(l, word(l, 2))) == signed(l, word(l, 3))
}

// `put BYTES OFFSET NUMBER ANSWER`
fn put(l: &[u8]) -> bool {
    let mut space = bytes::buffer();
    let bytes: &mut [u8] = &mut space;
    let n = unhex(l, word(l, 1), bytes);
    leaf::bytes::put(bytes, offset(l, word(l, 2)), number32(l, word(l, 3)));
    is_word(l, 4, part(bytes, 0, n))
}

// `puttime BYTES OFFSET TIME ANSWER`
fn put_time(l: &[u8]) -> bool {
    let mut space = bytes::buffer();
    let bytes: &mut [u8] = &mut space;
    let n = unhex(l, word(l, 1), bytes);
    leaf::bytes::put_time(bytes, offset(l, word(l, 2)), signed(l, word(l, 3)));
    is_word(l, 4, part(bytes, 0, n))
}

// Whether the core's answer is that of a line of this kind. Those on banks, rows and the filter ask the region; an insertion changes it.
pub fn is_alike(k: Kind, l: &[u8], region: &mut [u8]) -> bool {
    match k {
        Kind::ValidDate => date(l),
        Kind::NewDate => new(l),
        Kind::Newer => newer(l),
        Kind::Next => next(l),
        Kind::Crc => crc(l),
        Kind::Get => get(l),
        Kind::Put => put(l),
        Kind::GetTime => time(l),
        Kind::PutTime => put_time(l),
        Kind::Rotate => rotate(l),
        Kind::Key => keys::key(l),
        Kind::SameKey => keys::same_key(l),
        Kind::Validate => banks::validate(l, region),
        Kind::Header => banks::header(l, region),
        Kind::Load => banks::load(l, region),
        Kind::Source => banks::source(l, region),
        Kind::Fresh => banks::fresh(l, region),
        Kind::CheckStart => banks::check_start(l, region),
        Kind::CheckTurn => banks::check_turn(l, region),
        Kind::BankKey => banks::same_key(l, region),
        Kind::NamesLine => rows::names_line(l),
        Kind::Row => rows::row(l),
        Kind::ReadRow => rows::read_row(l, region),
        Kind::Insert => filter::insert(l, region),
        Kind::Query => filter::query(l, region),
        Kind::Bytes => filter::holds(l, region),
        Kind::Sum => filter::sum(l, region),
        Kind::Unknown => false,
    }
}
