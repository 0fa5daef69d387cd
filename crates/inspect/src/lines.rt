// What is reported, in lines.
use crate::clock::{Date, Dated, Known};
use crate::form::{Form, Row, Table};
use crate::keytext::LAST_FIELD;
use crate::listing::put_values;
use crate::options::Options;
use crate::out::{BYTES_IN_LINE, Share, hex_line, refused};
use crate::state::{Found, LAST_SECTOR, State};
use crate::tables::{is_set, name};
use crate::{keytext, text};
use base::table::LAST_TABLE;
use header::Bank;
use key::FIELDS;
use program::output::put;
use record::Source;
use refusal::Refusal;
use region::{CAPACITY_64, REGION_SIZE};
use snapshot::freshness::Freshness;
use std::io;
use std::io::Write;

// How many values the present bits of all tables have.
const PRESENT_VALUES: u32 = 256;

#[derive(Clone, Copy)]
pub struct Lines;

fn bank_fields<W: Write>(out: &mut W, b: Bank) -> io::Result<()> {
    write!(
        out,
        "version {}, generation {}, data length {} ({} of {CAPACITY_64}), ",
        b.version,
        b.generation,
        b.length,
        Share(b.length)
    )?;
    write!(
        out,
        "data crc {:08x}, sources {}, key length {}, checked {}",
        b.crc,
        b.count,
        b.key,
        Dated(b.checked)
    )
}

// A state in words.
fn words(s: State) -> &'static str {
    match s {
        State::Good => "good",
        State::Erased => "erased",
        State::NoHeader => "header erased, bytes written up to sector ",
        State::HeaderInPart => "header not whole, commit word missing",
        State::NoCommitWord => "header written, commit word missing",
        State::CommitWordInPart => "header written, commit word not whole",
        State::Magic => "committed, magic damaged",
        State::Version => "committed, version not known",
        State::Header => "committed, header damaged",
        State::Numbers => "sealed, a number of the header out of its range",
        State::Source => "sealed, a source's record out of its range",
        State::Data => "sealed, data damaged",
    }
}

// A state in words, with the last sector that is written where the words name it.
pub fn put_state<W: Write>(out: &mut W, s: State, last: u32) -> io::Result<()> {
    put(out, words(s).as_bytes())?;
    match s {
        State::NoHeader => write!(out, "{last} of {LAST_SECTOR}"),
        _ => Ok(()),
    }
}

// What the bytes of a refused bank say; nothing vouches for it.
fn not_trusted<W: Write>(out: &mut W, f: Found) -> io::Result<()> {
    if !f.state.has_numbers() {
        return Ok(());
    }
    put(out, b"; not trusted: ")?;
    bank_fields(out, f.numbers)?;
    if f.state.is_whole() {
        write!(out, ", computed data crc {:08x}", f.computed_data_crc)?;
    }
    write!(
        out,
        ", header crc {:08x}, computed header crc {:08x}",
        f.header_crc, f.computed_header_crc
    )
}

// The lines of a key's bytes.
fn key_bytes<W: Write>(out: &mut W, key: &[u8]) -> io::Result<()> {
    for (line, bytes) in key.chunks(BYTES_IN_LINE).enumerate() {
        write!(out, "key {}:", line.wrapping_mul(BYTES_IN_LINE))?;
        hex_line(out, bytes)?;
    }
    Ok(())
}

// The line of a key's identity.
fn identity<W: Write>(out: &mut W, s: &[u8]) -> io::Result<()> {
    put(out, b"identity: ")?;
    text::put_quoted(out, s, false)?;
    put(out, b"\n")
}

// The lines of a key's picks, with five texts each.
fn picks<W: Write>(out: &mut W, texts: keytext::Texts<'_>) -> io::Result<()> {
    for (k, s) in texts.enumerate() {
        if k % FIELDS == 0 {
            write!(out, "pick {}: ", k / FIELDS)?;
        } else {
            put(out, b",")?;
        }
        text::put_quoted(out, s, false)?;
        if k % FIELDS == LAST_FIELD {
            put(out, b"\n")?;
        }
    }
    Ok(())
}

// What a line of a row starts with.
fn row_start<W: Write>(out: &mut W, r: Row) -> io::Result<()> {
    write!(out, "row {} {} {}: ", r.source, name(r.table), r.offset)
}

impl Form for Lines {
    fn start<W: Write>(
        &self,
        out: &mut W,
        name: &[u8],
        offset: usize,
        size: Option<u64>,
    ) -> io::Result<()> {
        put(out, b"image: ")?;
        text::put_text(out, name, false)?;
        write!(out, "\nregion: {REGION_SIZE} bytes")?;
        if let Some(size) = size {
            write!(out, " at {offset} of {size}")?;
        }
        put(out, b"\n")
    }

    fn field<W: Write>(&self, _out: &mut W, _text: &[u8]) -> io::Result<()> {
        Ok(())
    }

    fn not_asked<W: Write>(&self, _out: &mut W) -> io::Result<()> {
        Ok(())
    }

    fn bank<W: Write>(
        &self,
        out: &mut W,
        _region: &[u8],
        number: u32,
        v: Result<Bank, Refusal>,
        f: Found,
    ) -> io::Result<()> {
        write!(out, "bank {number}: ")?;
        match v {
            Ok(b) => bank_fields(out, b)?,
            Err(r) => {
                refused(out, r)?;
                put(out, b": ")?;
                put_state(out, f.state, f.last)?;
                not_trusted(out, f)?;
            }
        }
        put(out, b"\n")
    }

    fn loaded<W: Write>(&self, out: &mut W, given: Option<u32>) -> io::Result<()> {
        match given {
            Some(number) => writeln!(out, "load: bank {number}"),
            None => put(out, b"load: none\n"),
        }
    }

    fn asked<W: Write>(
        &self,
        out: &mut W,
        number: u32,
        asked: Option<u32>,
        given: Option<u32>,
    ) -> io::Result<()> {
        if asked.is_none() {
            return Ok(());
        }
        write!(out, "asked: bank {number}")?;
        if given == Some(number) {
            put(out, b"\n")
        } else {
            put(out, b", which load doesn't give\n")
        }
    }

    fn no_bank<W: Write>(&self, out: &mut W, o: Options) -> io::Result<()> {
        if o.days.is_some() {
            put(out, b"fresh: no bank\n")?;
        }
        if o.selection.is_some() {
            put(out, b"match: no bank\n")?;
        }
        if o.rows.is_some() {
            put(out, b"rows: no bank\n")?;
        }
        Ok(())
    }

    fn key<W: Write>(&self, out: &mut W, key: &[u8]) -> io::Result<()> {
        key_bytes(out, key)?;
        let Some(p) = keytext::parts_of(key) else {
            return Ok(());
        };
        if let Some(size) = p.identity {
            identity(out, keytext::identity_of(key, size))?;
        }
        picks(out, keytext::texts_of(key, p))
    }

    fn key_refused<W: Write>(&self, out: &mut W, r: Refusal) -> io::Result<()> {
        self.refused(out, b"key: ", r)
    }

    fn refused<W: Write>(&self, out: &mut W, start: &[u8], r: Refusal) -> io::Result<()> {
        put(out, start)?;
        refused(out, r)?;
        put(out, b"\n")
    }

    fn source<W: Write>(&self, out: &mut W, i: u32, s: Source) -> io::Result<()> {
        write!(
            out,
            "source {i}: start {}, end {}, updated {}, present",
            Date(s.start),
            Date(s.end),
            Known(s.updated)
        )?;
        if s.present % PRESENT_VALUES == 0 {
            put(out, b" none")?;
        }
        for t in 0..=LAST_TABLE {
            if is_set(s.present, t) {
                write!(out, " {}", name(t))?;
            }
        }
        put(out, b"\n")
    }

    fn table<W: Write>(&self, out: &mut W, t: Table) -> io::Result<()> {
        let b = t.block;
        if (b.length == 0) & (t.original_crc == 0) & (t.original_length == 0) {
            return Ok(());
        }
        write!(
            out,
            "source {} {}: offset {}, length {} ({}), crc {:08x}",
            t.source,
            name(t.table),
            b.offset,
            b.length,
            Share(b.length),
            b.crc
        )?;
        if t.computed != b.crc {
            write!(out, ", DAMAGED: computed crc {:08x}", t.computed)?;
        }
        writeln!(
            out,
            ", original crc {:08x}, original length {}",
            t.original_crc, t.original_length
        )
    }

    fn fresh<W: Write>(&self, out: &mut W, t: Freshness) -> io::Result<()> {
        writeln!(
            out,
            "fresh: checked {}, updated {}",
            Known(t.checked),
            Known(t.updated)
        )
    }

    fn matched<W: Write>(&self, out: &mut W, word: &str) -> io::Result<()> {
        writeln!(out, "match: {word}")
    }

    fn rows<W: Write>(&self, _out: &mut W, _source: u32, _table: u32) -> io::Result<()> {
        Ok(())
    }

    fn row<W: Write>(&self, out: &mut W, r: Row, values: &[u8], ends: &[usize]) -> io::Result<()> {
        row_start(out, r)?;
        put_values(out, values, ends, false)?;
        put(out, b"\n")
    }

    fn row_refused<W: Write>(&self, out: &mut W, r: Row, x: Refusal) -> io::Result<()> {
        row_start(out, r)?;
        self.refused(out, b"", x)
    }
}
