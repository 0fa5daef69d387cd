// The arguments.
use crate::tables;
use base::number::SIGN_BIT;
use base::slice::part;
use key::{FIELDS, MAX_PICKS};
use program::arguments::{follow, text};
use program::bytes::copy;
use program::number::signed;
use program::options::{ALONE, End, Images, WITH_ONE};
use program::text::digits;
use program::{arguments, lengths, options};
use snapshot::freshness::{Day, Days};
use std::num::wrapping_add_usize;
use std::rt::Env;

// One pick more than a key can have, and its lengths.
const PICKS: usize = MAX_PICKS + 1;

pub const LENGTHS: usize = FIELDS * PICKS;
// With these, another pick still fits.
const LENGTHS_BEFORE: usize = LENGTHS - FIELDS;
// A field that is longer is cut: one of 255 bytes is over every size already.
const MOST_LENGTH: usize = 255;

pub const TEXTS_SIZE: usize = LENGTHS * MOST_LENGTH;

// The second argument of an option.
const SECOND: usize = 2;

// How many arguments an option has, itself included.
const WITH_TWO: usize = 3;

const PICK: usize = FIELDS + 1;

// What is wrong with an option.
const NO_NOW: End = End::Wrong("--now needs a number of seconds");

const NO_DAYS: End = End::Wrong("--days needs three numbers as D1,D2,D3");

const DAYS_ALONE: End = End::Wrong("--days needs --now");

const NO_WANTED: End = End::Wrong("--wanted needs y or n three times, as y,y,n");

const NO_IDENTITY: End = End::Wrong("--identity needs a text");

const NO_PICK: End = End::Wrong("--pick needs five texts: line, route, stop code, stop, stop name");

const NO_ROWS: End = End::Wrong("--rows needs a source (0, 1, 2 or all) and a table's name or all");

const NO_BANK: End = End::Wrong("--bank needs 0 or 1");

// The selection to match: the index of the identity's argument, and of the picks how many lengths and how many bytes there are.
#[derive(Clone, Copy)]
pub struct Selection {
    pub identity: Option<usize>,
    pub lengths: usize,
    pub texts: usize,
}

// The tables to list the rows of: one source or all, one table or all.
#[derive(Clone, Copy)]
pub struct Rows {
    pub source: Option<u32>,
    pub table: Option<u32>,
}

// What the arguments ask for.
#[derive(Clone, Copy)]
pub struct Options {
    pub images: Images,
    pub now: Option<i64>,
    pub days: Option<[u32; 3]>,
    pub wanted: [bool; 3],
    pub selection: Option<Selection>,
    pub rows: Option<Rows>,
    pub bank: Option<u32>,
    pub json: bool,
}

const NO_SELECTION: Selection = Selection {
    identity: None,
    lengths: 0,
    texts: 0,
};

const NONE: Options = Options {
    images: options::NONE,
    now: None,
    days: None,
    wanted: [true; 3],
    selection: None,
    rows: None,
    bank: None,
    json: false,
};

// A time, which may have a minus sign.
fn time(s: &[u8]) -> Option<i64> {
    match s {
        [b'-', n @ ..] => {
            let n = digits(n)?;
            if n <= SIGN_BIT {
                Some(signed(0u64.wrapping_sub(n)))
            } else {
                None
            }
        }
        _ => i64::try_from(digits(s)?).ok(),
    }
}

// A number of 32 bits.
fn number32(s: &[u8]) -> Option<u32> {
    u32::try_from(digits(s)?).ok()
}

// Three numbers with commas between them.
fn days(s: &[u8]) -> Option<[u32; 3]> {
    let mut parts = s.split(|c| *c == b',');
    let first = number32(parts.next()?)?;
    let second = number32(parts.next()?)?;
    let third = number32(parts.next()?)?;
    match parts.next() {
        Some(_) => None,
        None => Some([first, second, third]),
    }
}

fn flag(c: u8) -> Option<bool> {
    match c {
        b'y' => Some(true),
        b'n' => Some(false),
        _ => None,
    }
}

// Three flags with commas between them.
fn flags(s: &[u8]) -> Option<[bool; 3]> {
    match s {
        [x, b',', y, b',', z] => Some([flag(*x)?, flag(*y)?, flag(*z)?]),
        _ => None,
    }
}

// Appends the texts of a pick to those that are there; gives the offset after them.
fn append_pick(
    rt: &impl Env,
    s: Selection,
    index: usize,
    buffer: &mut [u8],
    texts: &mut [u8],
    lengths: &mut [u32],
) -> usize {
    let mut to = s.texts;
    for k in 0..FIELDS {
        let field = text(rt, wrapping_add_usize(index, k + 1), buffer);
        let n = field.len().min(MOST_LENGTH);
        copy(part(field, 0, n), texts, to);
        lengths::set(lengths, wrapping_add_usize(s.lengths, k), n as u32);
        to = wrapping_add_usize(to, n);
    }
    to
}

// A pick more than a key can have is kept, those after it aren't.
fn with_pick(
    rt: &impl Env,
    s: Selection,
    index: usize,
    buffer: &mut [u8],
    texts: &mut [u8],
    lengths: &mut [u32],
) -> Selection {
    if LENGTHS_BEFORE < s.lengths {
        return s;
    }
    let size = append_pick(rt, s, index, buffer, texts, lengths);
    Selection {
        lengths: wrapping_add_usize(s.lengths, FIELDS),
        texts: size,
        ..s
    }
}

// One source by its number, or all.
fn source_named(s: &[u8]) -> Result<Option<u32>, End> {
    match s {
        b"0" => Ok(Some(0)),
        b"1" => Ok(Some(1)),
        b"2" => Ok(Some(2)),
        b"all" => Ok(None),
        _ => Err(NO_ROWS),
    }
}

// One table by its name, or all.
fn table_named(s: &[u8]) -> Result<Option<u32>, End> {
    match s {
        b"all" => Ok(None),
        _ => Ok(Some(tables::number(s).ok_or(NO_ROWS)?)),
    }
}

fn bank_named(s: &[u8]) -> Result<u32, End> {
    match s {
        b"0" => Ok(0),
        b"1" => Ok(1),
        _ => Err(NO_BANK),
    }
}

impl Options {
    // Takes the option at an index that says when freshness is asked for, if it is one; gives how many arguments it has.
    fn take_time(
        &mut self,
        rt: &impl Env,
        index: usize,
        buffer: &mut [u8],
    ) -> Result<Option<usize>, End> {
        let first = wrapping_add_usize(index, 1);
        match text(rt, index, buffer) {
            b"--now" => self.now = Some(time(text(rt, first, buffer)).ok_or(NO_NOW)?),
            b"--days" => self.days = Some(days(text(rt, first, buffer)).ok_or(NO_DAYS)?),
            b"--wanted" => self.wanted = flags(text(rt, first, buffer)).ok_or(NO_WANTED)?,
            _ => return Ok(None),
        }
        Ok(Some(WITH_ONE))
    }

    // The same of one that says which selection is matched, of `count` arguments.
    fn take_selection(
        &mut self,
        rt: &impl Env,
        index: usize,
        count: usize,
        buffer: &mut [u8],
        texts: &mut [u8],
        lengths: &mut [u32],
    ) -> Result<Option<usize>, End> {
        let s = self.selection.unwrap_or(NO_SELECTION);
        let (s, size) = match text(rt, index, buffer) {
            b"--identity" => {
                if !follow(index, 1, count) {
                    return Err(NO_IDENTITY);
                }
                let identity = Some(wrapping_add_usize(index, 1));
                (Selection { identity, ..s }, WITH_ONE)
            }
            b"--pick" => {
                if !follow(index, FIELDS, count) {
                    return Err(NO_PICK);
                }
                (with_pick(rt, s, index, buffer, texts, lengths), PICK)
            }
            b"--match" => (s, ALONE),
            _ => return Ok(None),
        };
        self.selection = Some(s);
        Ok(Some(size))
    }

    // The same of one that says which rows and which bank are shown, and in which form.
    fn take_shown(
        &mut self,
        rt: &impl Env,
        index: usize,
        buffer: &mut [u8],
    ) -> Result<Option<usize>, End> {
        let first = wrapping_add_usize(index, 1);
        match text(rt, index, buffer) {
            b"--rows" => {
                let source = source_named(text(rt, first, buffer))?;
                let table = table_named(text(rt, wrapping_add_usize(index, SECOND), buffer))?;
                self.rows = Some(Rows { source, table });
                Ok(Some(WITH_TWO))
            }
            b"--bank" => {
                self.bank = Some(bank_named(text(rt, first, buffer))?);
                Ok(Some(WITH_ONE))
            }
            b"--json" => {
                self.json = true;
                Ok(Some(ALONE))
            }
            _ => Ok(None),
        }
    }

    // Takes the option at an index, of `count` arguments; gives how many it has.
    fn take(
        &mut self,
        rt: &impl Env,
        index: usize,
        count: usize,
        buffer: &mut [u8],
        texts: &mut [u8],
        lengths: &mut [u32],
    ) -> Result<usize, End> {
        if let Some(n) = self.images.take(rt, index, buffer)? {
            return Ok(n);
        }
        if let Some(n) = self.take_time(rt, index, buffer)? {
            return Ok(n);
        }
        if let Some(n) = self.take_selection(rt, index, count, buffer, texts, lengths)? {
            return Ok(n);
        }
        self.take_shown(rt, index, buffer)?
            .ok_or(End::NoOption(index))
    }

    // Days need a time, and an image or the sample must be asked for.
    fn finish(&self) -> Result<(), End> {
        if self.days.is_some() & self.now.is_none() {
            return Err(DAYS_ALONE);
        }
        self.images.finish()
    }

    // The days to ask freshness for, and the time to ask it at.
    pub fn freshness(&self) -> Option<(Days, i64)> {
        let [first, second, third] = self.days?;
        let now = self.now?;
        let [x, y, z] = self.wanted;
        let days = Days {
            first: Day {
                date: first,
                wanted: x,
            },
            second: Day {
                date: second,
                wanted: y,
            },
            third: Day {
                date: third,
                wanted: z,
            },
        };
        Some((days, now))
    }
}

// Reads all arguments. Each turn takes one or more of them. The buffers are fixed ones: what the arguments ask for is read without an allocator.
pub fn read(
    rt: &impl Env,
    buffer: &mut [u8],
    texts: &mut [u8],
    lengths: &mut [u32],
) -> Result<Options, End> {
    let mut o = NONE;
    let count = arguments::count(rt);
    let mut index = 1;
    for _ in 0..count {
        if count <= index {
            break;
        }
        let n = o.take(rt, index, count, buffer, texts, lengths)?;
        index = wrapping_add_usize(index, n);
    }
    o.finish()?;
    Ok(o)
}
