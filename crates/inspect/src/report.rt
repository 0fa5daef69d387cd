// What is reported of a region, in a form.
use crate::form::{Form, Table};
use crate::options::Options;
use crate::{listing, state};
use base::slice::part;
use header::Bank;
use record::{Source, TABLE_WORDS};
use refusal::Refusal;
use region::{CAPACITY, SECTOR_SIZE, bank_of};
use std::io;
use std::io::Write;

// The selection to match.
#[derive(Clone, Copy)]
pub struct Wanted<'a> {
    pub identity: &'a [u8],
    pub texts: &'a [u8],
    pub lengths: &'a [u32],
}

fn bank_report<W: Write, F: Form>(
    out: &mut W,
    form: &F,
    region: &[u8],
    number: u32,
) -> io::Result<()> {
    let v = bank::validate(region, number);
    form.bank(out, region, number, v, state::find(region, number, v))
}

fn key_report<W: Write, F: Form>(out: &mut W, form: &F, region: &[u8], b: Bank) -> io::Result<()> {
    let data = part(bank_of(region, b.number), SECTOR_SIZE, CAPACITY);
    form.key(out, part(data, 0, b.key as usize))
}

fn source_found<W: Write, F: Form>(
    out: &mut W,
    form: &F,
    region: &[u8],
    number: u32,
    i: u32,
    s: Source,
) -> io::Result<()> {
    form.source(out, i, s)?;
    let original = s.original;
    for (k, b) in s.tables.iter().enumerate() {
        let t = Table {
            source: i,
            table: k as u32,
            block: *b,
            computed: state::block_crc(region, number, *b),
            original_crc: original[TABLE_WORDS * k],
            original_length: original[TABLE_WORDS * k + 1],
        };
        form.table(out, t)?;
    }
    form.field(out, b"]}")
}

fn source_report<W: Write, F: Form>(
    out: &mut W,
    form: &F,
    region: &[u8],
    number: u32,
    i: u32,
) -> io::Result<()> {
    match snapshot::source::source(region, number, i) {
        Ok(s) => source_found(out, form, region, number, i, s),
        Err(r) => form.refused(out, b"sources: ", r),
    }
}

fn fresh_report<W: Write, F: Form>(
    out: &mut W,
    form: &F,
    region: &[u8],
    number: u32,
    o: Options,
) -> io::Result<()> {
    form.field(out, b",\"fresh\":")?;
    let Some((days, now)) = o.freshness() else {
        return form.not_asked(out);
    };
    let f = snapshot::freshness::fresh(region, number, days, now);
    match f {
        Ok(t) => form.fresh(out, t),
        Err(r) => form.refused(out, b"fresh: ", r),
    }
}

fn match_report<W: Write, F: Form>(
    out: &mut W,
    form: &F,
    region: &[u8],
    number: u32,
    wanted: Option<Wanted<'_>>,
) -> io::Result<()> {
    form.field(out, b",\"match\":")?;
    let Some(w) = wanted else {
        return form.not_asked(out);
    };
    let k = snapshot::keymatch::same_key(region, number, w.identity, w.texts, w.lengths);
    match k {
        Ok(true) => form.matched(out, "yes"),
        Ok(false) => form.matched(out, "no"),
        Err(r) => form.refused(out, b"match: ", r),
    }
}

fn rows_report<W: Write, F: Form>(
    out: &mut W,
    form: &F,
    region: &[u8],
    number: u32,
    count: u32,
    o: Options,
) -> io::Result<()> {
    form.field(out, b",\"rows\":")?;
    let Some(rows) = o.rows else {
        return form.not_asked(out);
    };
    form.field(out, b"[")?;
    listing::rows(out, form, region, number, count, rows)?;
    form.field(out, b"]")
}

// What is asked of a bank by its number.
fn questions<W: Write, F: Form>(
    out: &mut W,
    form: &F,
    region: &[u8],
    number: u32,
    count: u32,
    o: Options,
    wanted: Option<Wanted<'_>>,
) -> io::Result<()> {
    fresh_report(out, form, region, number, o)?;
    match_report(out, form, region, number, wanted)?;
    rows_report(out, form, region, number, count, o)
}

// A bank whose header passes.
fn header_passes<W: Write, F: Form>(
    out: &mut W,
    form: &F,
    region: &[u8],
    b: Bank,
    o: Options,
    wanted: Option<Wanted<'_>>,
) -> io::Result<()> {
    key_report(out, form, region, b)?;
    form.field(out, b",\"sources\":[")?;
    for i in 0..b.count {
        source_report(out, form, region, b.number, i)?;
    }
    form.field(out, b"]")?;
    questions(out, form, region, b.number, b.count, o, wanted)
}

// A bank whose header doesn't pass: every call refuses it.
fn header_refused<W: Write, F: Form>(
    out: &mut W,
    form: &F,
    region: &[u8],
    number: u32,
    r: Refusal,
    o: Options,
    wanted: Option<Wanted<'_>>,
) -> io::Result<()> {
    form.key_refused(out, r)?;
    form.field(out, b",\"sources\":")?;
    source_report(out, form, region, number, 0)?;
    questions(out, form, region, number, 1, o, wanted)
}

// A bank by its number: key, sources, and what is asked of it.
fn bank_by_number<W: Write, F: Form>(
    out: &mut W,
    form: &F,
    region: &[u8],
    number: u32,
    o: Options,
    wanted: Option<Wanted<'_>>,
) -> io::Result<()> {
    let v = bank::header(region, number);
    match v {
        Ok(b) => header_passes(out, form, region, b, o, wanted),
        Err(r) => header_refused(out, form, region, number, r, o, wanted),
    }
}

// The bank that load gives, by its number.
fn loaded(region: &[u8]) -> Option<u32> {
    let l = bank::load(region);
    match l {
        Ok(Some(b)) => Some(b.number),
        _ => None,
    }
}

// Of the bank that is asked for, or that load gives, all but its line.
fn asked_bank<W: Write, F: Form>(
    out: &mut W,
    form: &F,
    region: &[u8],
    given: Option<u32>,
    o: Options,
    wanted: Option<Wanted<'_>>,
) -> io::Result<()> {
    let Some(n) = o.bank.or(given) else {
        return form.no_bank(out, o);
    };
    form.asked(out, n, o.bank, given)?;
    bank_by_number(out, form, region, n, o, wanted)
}

// All but the first lines.
pub fn region_report<W: Write, F: Form>(
    out: &mut W,
    form: &F,
    region: &[u8],
    o: Options,
    wanted: Option<Wanted<'_>>,
) -> io::Result<()> {
    bank_report(out, form, region, 0)?;
    form.field(out, b",")?;
    bank_report(out, form, region, 1)?;
    let given = loaded(region);
    form.loaded(out, given)?;
    asked_bank(out, form, region, given, o, wanted)?;
    form.field(out, b"}\n")
}
