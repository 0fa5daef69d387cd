// What is reported, as one JSON object: docs/INSPECT.md has its fields.
use crate::clock::{Date, time_of};
use crate::form::{Form, Row, Table};
use crate::keytext::LAST_FIELD;
use crate::lines::put_state;
use crate::listing::put_values;
use crate::options::Options;
use crate::out::{Share, word};
use crate::state::{Found, SECTORS, Sector, State, sector_of};
use crate::tables::{is_set, name};
use crate::{keytext, text};
use base::table::LAST_TABLE;
use header::Bank;
use key::FIELDS;
use program::output::put;
use record::Source;
use refusal::Refusal;
use region::{CAPACITY_64, REGION_SIZE};
use snapshot::freshness::Freshness;
use std::io;
use std::io::Write;

#[derive(Clone, Copy)]
pub struct Json;

// A time: its seconds and its date, null if it is unknown.
fn time<W: Write>(out: &mut W, z: i64) -> io::Result<()> {
    if z == i64::MIN {
        return put(out, b"null");
    }
    write!(out, "{{\"seconds\":{z},\"utc\":")?;
    match time_of(z) {
        Some(time) => write!(out, "\"{time}\"}}"),
        None => put(out, b"null}"),
    }
}

fn put_refusal<W: Write>(out: &mut W, r: Refusal) -> io::Result<()> {
    write!(
        out,
        "{{\"number\":{},\"word\":\"{}\"}}",
        refusal::number(r),
        word(r)
    )
}

// A state's name.
fn state_name(s: State) -> &'static str {
    match s {
        State::Good => "good",
        State::Erased => "erased",
        State::NoHeader => "no-header",
        State::HeaderInPart => "header-in-part",
        State::NoCommitWord => "no-commit-word",
        State::CommitWordInPart => "commit-word-in-part",
        State::Magic => "magic-damaged",
        State::Version => "version-unknown",
        State::Header => "header-damaged",
        State::Numbers => "number-out-of-range",
        State::Source => "source-out-of-range",
        State::Data => "data-damaged",
    }
}

fn numbers<W: Write>(out: &mut W, f: Found) -> io::Result<()> {
    let b = f.numbers;
    write!(
        out,
        "{{\"version\":{},\"generation\":{},\"data_length\":{},\"share\":\"{}\"",
        b.version,
        b.generation,
        b.length,
        Share(b.length)
    )?;
    write!(
        out,
        ",\"sources\":{},\"key_length\":{},\"checked\":",
        b.count, b.key
    )?;
    time(out, b.checked)?;
    write!(
        out,
        ",\"data_crc\":\"{:08x}\",\"computed_data_crc\":",
        b.crc
    )?;
    if f.state.is_whole() {
        write!(out, "\"{:08x}\"", f.computed_data_crc)?;
    } else {
        put(out, b"null")?;
    }
    write!(
        out,
        ",\"header_crc\":\"{:08x}\",\"computed_header_crc\":\"{:08x}\"}}",
        f.header_crc, f.computed_header_crc
    )
}

// A bank's refusal, and whether its numbers are trusted.
fn verdict<W: Write>(out: &mut W, v: Result<Bank, Refusal>) -> io::Result<()> {
    match v {
        Ok(_) => put(out, b"null,\"trusted\":true"),
        Err(r) => {
            put_refusal(out, r)?;
            put(out, b",\"trusted\":false")
        }
    }
}

// A sector of the map, as one letter.
fn sector<W: Write>(out: &mut W, s: Sector) -> io::Result<()> {
    put(
        out,
        match s {
            Sector::Erased => b".",
            Sector::Header => b"h",
            Sector::Data => b"d",
            Sector::Damaged => b"x",
            Sector::Other => b"o",
        },
    )
}

// The map of a bank's sectors.
fn sectors<W: Write>(out: &mut W, region: &[u8], number: u32, f: Found) -> io::Result<()> {
    for k in 0..SECTORS {
        sector(out, sector_of(region, number, f.state, f.numbers, k))?;
    }
    Ok(())
}

fn identity<W: Write>(out: &mut W, s: &[u8]) -> io::Result<()> {
    put(out, b",\"identity\":")?;
    text::put_quoted(out, s, true)
}

// A key's picks, with five texts each.
fn picks<W: Write>(out: &mut W, texts: keytext::Texts<'_>) -> io::Result<()> {
    for (k, s) in texts.enumerate() {
        put(
            out,
            match (k, k % FIELDS) {
                (0, _) => b"[",
                (_, 0) => b",[",
                _ => b",",
            },
        )?;
        text::put_quoted(out, s, true)?;
        if k % FIELDS == LAST_FIELD {
            put(out, b"]")?;
        }
    }
    Ok(())
}

// The names of the tables whose present bits are set.
fn present<W: Write>(out: &mut W, bits: u32) -> io::Result<()> {
    let mut first = true;
    for t in 0..=LAST_TABLE {
        if is_set(bits, t) {
            if !first {
                put(out, b",")?;
            }
            write!(out, "\"{}\"", name(t))?;
            first = false;
        }
    }
    Ok(())
}

fn row_start<W: Write>(out: &mut W, offset: usize) -> io::Result<()> {
    if offset != 0 {
        put(out, b",")?;
    }
    write!(out, "{{\"offset\":{offset}")
}

impl Form for Json {
    fn start<W: Write>(
        &self,
        out: &mut W,
        name: &[u8],
        offset: usize,
        size: Option<u64>,
    ) -> io::Result<()> {
        put(out, b"{\"image\":")?;
        text::put_quoted(out, name, true)?;
        let (image_size, region_offset) = match size {
            Some(size) => (size, offset),
            None => (REGION_SIZE as u64, 0),
        };
        write!(
            out,
            ",\"image_size\":{image_size},\"region_offset\":{region_offset},\"region_size\":{REGION_SIZE},\"capacity\":{CAPACITY_64},\"banks\":["
        )
    }

    fn field<W: Write>(&self, out: &mut W, text: &[u8]) -> io::Result<()> {
        put(out, text)
    }

    fn not_asked<W: Write>(&self, out: &mut W) -> io::Result<()> {
        put(out, b"null")
    }

    fn bank<W: Write>(
        &self,
        out: &mut W,
        region: &[u8],
        number: u32,
        v: Result<Bank, Refusal>,
        f: Found,
    ) -> io::Result<()> {
        write!(out, "{{\"bank\":{number},\"refused\":")?;
        verdict(out, v)?;
        write!(out, ",\"state\":\"{}\",\"words\":\"", state_name(f.state))?;
        put_state(out, f.state, f.last)?;
        put(out, b"\",\"header\":")?;
        if f.state.has_numbers() {
            numbers(out, f)?;
        } else {
            put(out, b"null")?;
        }
        write!(out, ",\"last_written_sector\":{},\"sectors\":\"", f.last)?;
        sectors(out, region, number, f)?;
        put(out, b"\"}")
    }

    fn loaded<W: Write>(&self, out: &mut W, given: Option<u32>) -> io::Result<()> {
        match given {
            Some(number) => write!(out, "],\"load\":{number}"),
            None => put(out, b"],\"load\":null"),
        }
    }

    fn asked<W: Write>(
        &self,
        out: &mut W,
        number: u32,
        _asked: Option<u32>,
        _given: Option<u32>,
    ) -> io::Result<()> {
        write!(out, ",\"asked\":{number}")
    }

    fn no_bank<W: Write>(&self, out: &mut W, _o: Options) -> io::Result<()> {
        put(
            out,
            b",\"asked\":null,\"key\":null,\"sources\":[],\"fresh\":null,\"match\":null,\"rows\":null",
        )
    }

    fn key<W: Write>(&self, out: &mut W, key: &[u8]) -> io::Result<()> {
        put(out, b",\"key\":{\"hex\":\"")?;
        text::put_hex(out, key)?;
        put(out, b"\"")?;
        let Some(p) = keytext::parts_of(key) else {
            return put(out, b",\"identity\":null,\"picks\":null}");
        };
        match p.identity {
            Some(size) => identity(out, keytext::identity_of(key, size))?,
            None => put(out, b",\"identity\":null")?,
        }
        put(out, b",\"picks\":[")?;
        picks(out, keytext::texts_of(key, p))?;
        put(out, b"]}")
    }

    fn key_refused<W: Write>(&self, out: &mut W, r: Refusal) -> io::Result<()> {
        put(out, b",\"key\":")?;
        put_refusal(out, r)
    }

    fn refused<W: Write>(&self, out: &mut W, _start: &[u8], r: Refusal) -> io::Result<()> {
        put_refusal(out, r)
    }

    fn source<W: Write>(&self, out: &mut W, i: u32, s: Source) -> io::Result<()> {
        if i != 0 {
            put(out, b",")?;
        }
        write!(
            out,
            "{{\"source\":{i},\"start\":\"{}\",\"end\":\"{}\",\"updated\":",
            Date(s.start),
            Date(s.end)
        )?;
        time(out, s.updated)?;
        put(out, b",\"present\":[")?;
        present(out, s.present)?;
        put(out, b"],\"tables\":[")
    }

    fn table<W: Write>(&self, out: &mut W, t: Table) -> io::Result<()> {
        let b = t.block;
        let crc = b.crc;
        let computed = t.computed;
        let damaged = computed != crc;
        if t.table != 0 {
            put(out, b",")?;
        }
        write!(
            out,
            "{{\"table\":\"{}\",\"offset\":{},\"length\":{},\"share\":\"{}\"",
            name(t.table),
            b.offset,
            b.length,
            Share(b.length)
        )?;
        write!(
            out,
            ",\"crc\":\"{crc:08x}\",\"computed_crc\":\"{computed:08x}\",\"damaged\":{damaged}"
        )?;
        write!(
            out,
            ",\"original_crc\":\"{:08x}\",\"original_length\":{}}}",
            t.original_crc, t.original_length
        )
    }

    fn fresh<W: Write>(&self, out: &mut W, t: Freshness) -> io::Result<()> {
        put(out, b"{\"checked\":")?;
        time(out, t.checked)?;
        put(out, b",\"updated\":")?;
        time(out, t.updated)?;
        put(out, b"}")
    }

    fn matched<W: Write>(&self, out: &mut W, word: &str) -> io::Result<()> {
        write!(out, "\"{word}\"")
    }

    fn rows<W: Write>(&self, out: &mut W, source: u32, table: u32) -> io::Result<()> {
        write!(
            out,
            "{{\"source\":{source},\"table\":\"{}\",\"rows\":[",
            name(table)
        )
    }

    fn row<W: Write>(&self, out: &mut W, r: Row, values: &[u8], ends: &[usize]) -> io::Result<()> {
        row_start(out, r.offset)?;
        put(out, b",\"values\":[")?;
        put_values(out, values, ends, true)?;
        put(out, b"]}")
    }

    fn row_refused<W: Write>(&self, out: &mut W, r: Row, x: Refusal) -> io::Result<()> {
        row_start(out, r.offset)?;
        put(out, b",\"refused\":")?;
        put_refusal(out, x)?;
        put(out, b"}")
    }
}
