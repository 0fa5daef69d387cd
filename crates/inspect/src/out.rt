// Pieces of a line on standard output.
use crate::text::digits;
use program::output::put;
use refusal::Refusal;
use region::CAPACITY_64;
use std::io::Write;
use std::{fmt, io};

// How many bytes a line in hexadecimal has at most.
pub const BYTES_IN_LINE: usize = 32;

// What a byte takes in it: a space and two digits.
const SPELLED: usize = 3;

const LINE_SIZE: usize = SPELLED * BYTES_IN_LINE;

// A refusal's word.
pub fn word(r: Refusal) -> &'static str {
    match r {
        Refusal::Region => "region",
        Refusal::Argument => "argument",
        Refusal::Mark => "mark",
        Refusal::Seal => "seal",
        Refusal::Span => "span",
        Refusal::Source => "source",
        Refusal::Data => "data",
        Refusal::Identity => "identity",
        Refusal::Small => "small",
        Refusal::Full => "full",
        Refusal::Turn => "turn",
        Refusal::Obsolete => "obsolete",
        Refusal::Unfit => "unfit",
        Refusal::Row => "row",
        Refusal::Key => "key",
        Refusal::Future => "future",
        Refusal::Line => "line",
        Refusal::Rights => "rights",
        Refusal::LastKeeper => "last keeper",
        Refusal::List => "list",
        Refusal::Absent => "absent",
        Refusal::Layout => "layout",
        Refusal::Table => "table",
    }
}

// A refusal by its number and its word.
pub fn refused<W: Write>(out: &mut W, r: Refusal) -> io::Result<()> {
    write!(out, "refusal {} {}", refusal::number(r), word(r))
}

// Hundredths of a percent of the capacity, rounded down.
const WHOLE: u64 = 10000;

const PERCENT: u64 = 100;

// A length's share of a bank's capacity, in percent with two digits after the point.
#[derive(Clone, Copy)]
pub struct Share(pub u32);

impl fmt::Display for Share {
    fn fmt<W: fmt::Write>(&self, f: &mut fmt::Formatter<W>) -> fmt::Result {
        let share = u64::from(self.0) * WHOLE / CAPACITY_64;
        write!(f, "{}.{:02} %", share / PERCENT, share % PERCENT)
    }
}

// At most 32 bytes in hexadecimal, each after a space, and the line's end. They are written at once.
pub fn hex_line<W: Write>(out: &mut W, bytes: &[u8]) -> io::Result<()> {
    let mut line = [b' '; LINE_SIZE];
    let (cells, _) = line.as_chunks_mut::<SPELLED>();
    for (cell, b) in cells.iter_mut().zip(bytes) {
        let [high, low] = digits(*b);
        *cell = [b' ', high, low];
    }
    put(out, &line[..SPELLED * bytes.len().min(BYTES_IN_LINE)])?;
    put(out, b"\n")
}
