// The lines on the region's banks: whether the core's answers about the region, as the lines before built it, are the line's.
use crate::keys::{LENGTHS, lengths_of};
use crate::text::{bytes_of, is_word, number, number32, rest, signed, word, words};
use bank::turns::{Checking, Progress, Turn};
use base::slice::part;
use header::{Bank, SOURCES};
use program::{bytes, lengths};
use record::{RECORD_SIZE, Source};
use refusal::{Refusal, number_u32};
use snapshot::freshness::{Day, Days};

const LAST_SOURCE: usize = SOURCES - 1;

// A day's flag is a bit.
const FLAG: u64 = 2;

const TWO_FLAGS: u64 = FLAG * FLAG;

// Whether word k is the number n.
fn is_number(a: &[u8], k: u8, n: u32) -> bool {
    number32(a, word(a, k)) == n
}

// Whether an answer is a refusal's number and nothing else.
fn is_refusal(a: &[u8], r: Refusal) -> bool {
    is_number(a, 0, number_u32(r)) & (words(a) == 1)
}

// Whether an answer starts with these three numbers.
fn starts_with(a: &[u8], x: u32, y: u32, z: u32) -> bool {
    is_number(a, 0, x) & (is_number(a, 1, y) & is_number(a, 2, z))
}

// Whether an answer is a number and a bank's numbers after it.
fn is_bank(a: &[u8], before: u32, b: Bank) -> bool {
    (words(a) == 9)
        & (starts_with(a, before, b.number, b.version)
            & starts_with(rest(a, 3), b.generation, b.length, b.crc))
        & (is_number(a, 6, b.count) & is_number(a, 7, b.key))
        & (signed(a, word(a, 8)) == b.checked)
}

fn is_validated(a: &[u8], v: Result<Bank, Refusal>) -> bool {
    match v {
        Ok(b) => is_bank(a, 0, b),
        Err(r) => is_refusal(a, r),
    }
}

// `validate BANK ANSWER`
pub fn validate(l: &[u8], region: &[u8]) -> bool {
    is_validated(rest(l, 2), bank::validate(region, number32(l, word(l, 1))))
}

// `header BANK ANSWER`
pub fn header(l: &[u8], region: &[u8]) -> bool {
    is_validated(rest(l, 2), bank::header(region, number32(l, word(l, 1))))
}

// `load ANSWER`
pub fn load(l: &[u8], region: &[u8]) -> bool {
    let a = rest(l, 1);
    let x = bank::load(region);
    match x {
        Ok(Some(b)) => is_bank(a, 1, b),
        Ok(None) => is_number(a, 0, 0) & (words(a) == 1),
        Err(_) => false,
    }
}

// Whether an answer is a record in version 3's form.
fn is_record(a: &[u8], s: Source) -> bool {
    let mut space = bytes::buffer();
    let out: &mut [u8] = &mut space;
    record::encode(s, out, 0);
    is_number(a, 0, 0) & is_word(a, 1, part(out, 0, RECORD_SIZE))
}

// Whether an answer is the record at an index of all sources of a bank.
fn is_among(a: &[u8], region: &[u8], number: u32, i: u32) -> bool {
    let Ok(all) = snapshot::source::sources(region, number) else {
        return false;
    };
    match i {
        0 => is_record(a, all[0]),
        1 => is_record(a, all[1]),
        _ => is_record(a, all[LAST_SOURCE]),
    }
}

// `source BANK INDEX ANSWER`: a source's record, asked for alone and with all the others.
pub fn source(l: &[u8], region: &[u8]) -> bool {
    let a = rest(l, 3);
    let n = number32(l, word(l, 1));
    let i = number32(l, word(l, 2));
    match snapshot::source::source(region, n, i) {
        Ok(s) => is_record(a, s) & is_among(a, region, n, i),
        Err(r) => is_refusal(a, r),
    }
}

fn day(l: &[u8], k: u8, wanted: u64) -> Day {
    Day {
        date: number32(l, word(l, k)),
        wanted: wanted % FLAG == 1,
    }
}

// The three days of a `fresh` line, and a number whose lowest bits say which of them are wanted.
fn days(l: &[u8]) -> Days {
    let wanted = number(l, word(l, 5));
    Days {
        first: day(l, 2, wanted),
        second: day(l, 3, wanted / FLAG),
        third: day(l, 4, wanted / TWO_FLAGS),
    }
}

// Whether an answer is these two times.
fn is_times(a: &[u8], checked: i64, updated: i64) -> bool {
    (words(a) == 3)
        & is_number(a, 0, 0)
        & (signed(a, word(a, 1)) == checked)
        & (signed(a, word(a, 2)) == updated)
}

// `fresh BANK DAY DAY DAY WANTED NOW ANSWER`
pub fn fresh(l: &[u8], region: &[u8]) -> bool {
    let a = rest(l, 7);
    let x = snapshot::freshness::fresh(
        region,
        number32(l, word(l, 1)),
        days(l),
        signed(l, word(l, 6)),
    );
    match x {
        Ok(t) => is_times(a, t.checked, t.updated),
        Err(r) => is_refusal(a, r),
    }
}

// Whether an answer is a turn's refusal, verdict and count.
fn is_progress(a: &[u8], p: Result<Progress, Refusal>) -> bool {
    match p {
        Ok(Progress::Hashed(n)) => starts_with(a, 0, 0, n),
        Ok(Progress::Yes) => starts_with(a, 0, 1, 0),
        Err(r) => starts_with(a, number_u32(r), 0, 0),
    }
}

fn is_turn(a: &[u8], t: Turn) -> bool {
    let p = t.progress;
    let s = t.next;
    (words(a) == 6) & is_progress(a, p) & starts_with(rest(a, 3), s.bank, s.position, s.crc)
}

// `start BANK ANSWER`
pub fn check_start(l: &[u8], region: &[u8]) -> bool {
    is_turn(
        rest(l, 2),
        bank::turns::check_start(region, number32(l, word(l, 1))),
    )
}

// `turn BANK POSITION CRC COUNT ANSWER`
pub fn check_turn(l: &[u8], region: &[u8]) -> bool {
    let s = Checking {
        bank: number32(l, word(l, 1)),
        position: number32(l, word(l, 2)),
        crc: number32(l, word(l, 3)),
    };
    is_turn(
        rest(l, 5),
        bank::turns::check_turn(region, s, number32(l, word(l, 4))),
    )
}

// Whether an answer is the verdict of a key match, without a refusal.
fn is_same(a: &[u8], same: u32) -> bool {
    (words(a) == 2) & is_number(a, 0, 0) & is_number(a, 1, same)
}

fn matches(l: &[u8], region: &[u8], identity: &[u8], texts: &[u8]) -> bool {
    let mut list = [0u32; LENGTHS];
    let n = lengths_of(l, 4, &mut list);
    let a = rest(l, 5);
    let x = snapshot::keymatch::same_key(
        region,
        number32(l, word(l, 1)),
        identity,
        texts,
        lengths::first(&list, n),
    );
    match x {
        Ok(true) => is_same(a, 1),
        Ok(false) => is_same(a, 0),
        Err(r) => is_refusal(a, r),
    }
}

// `bankkey BANK IDENTITY TEXTS LENGTHS ANSWER`
pub fn same_key(l: &[u8], region: &[u8]) -> bool {
    let mut a = bytes::buffer();
    let identity = bytes_of(l, 2, &mut a);
    let mut b = bytes::buffer();
    let texts = bytes_of(l, 3, &mut b);
    matches(l, region, identity, texts)
}
