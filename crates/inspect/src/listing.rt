// The rows of a bank's tables.
use crate::form::{Form, Row};
use crate::options::Rows;
use crate::text::put_quoted;
use base::table::TABLES;
use program::output::put;
use program::text::between;
use region::CAPACITY_32;
use rfc4180::{MAX_COLUMNS, MAX_ROW};
use row::column_count;
use rowread::Span;
use std::io;
use std::io::Write;

// A row has a byte or more, so no table has more rows.
const MOST_ROWS: u32 = CAPACITY_32 + 1;

const ALL_TABLES: u32 = TABLES as u32;

// Prints the values of a row, each in quotes, with commas between them.
pub fn put_values<W: Write>(
    out: &mut W,
    values: &[u8],
    ends: &[usize],
    json: bool,
) -> io::Result<()> {
    let mut from = 0;
    for (k, to) in ends.iter().enumerate() {
        if k != 0 {
            put(out, b",")?;
        }
        put_quoted(out, between(values, from, *to), json)?;
        from = *to;
    }
    Ok(())
}

// Prints a row, nothing at the table's end; gives the offset of the next row, none after the last and after one that is refused.
fn row_report<W: Write, F: Form>(
    out: &mut W,
    form: &F,
    region: &[u8],
    r: Row,
    values: &mut [u8],
) -> io::Result<Option<usize>> {
    let mut ends = [0usize; MAX_COLUMNS];
    let a = snapshot::rows::bank_row(
        region, r.bank, r.source, r.table, r.offset, values, &mut ends,
    );
    match a {
        Ok(Some(Span { next, size: _ })) => {
            let width = column_count(r.table).min(MAX_COLUMNS);
            form.row(out, r, values, &ends[..width])?;
            Ok(Some(next))
        }
        Ok(None) => Ok(None),
        Err(x) => {
            form.row_refused(out, r, x)?;
            Ok(None)
        }
    }
}

// The rows of a table, up to its end or the first that is refused.
fn table_rows<W: Write, F: Form>(
    out: &mut W,
    form: &F,
    region: &[u8],
    bank: u32,
    source: u32,
    table: u32,
) -> io::Result<()> {
    form.rows(out, source, table)?;
    let mut space = [0u8; MAX_ROW];
    let mut offset = 0;
    for _ in 0..MOST_ROWS {
        let r = Row {
            bank,
            source,
            table,
            offset,
        };
        let Some(next) = row_report(out, form, region, r, &mut space)? else {
            break;
        };
        offset = next;
    }
    form.field(out, b"]}")
}

// Prints what is between two of an object's parts, before the n-th.
fn comma<W: Write, F: Form>(out: &mut W, form: &F, n: u32) -> io::Result<()> {
    if n != 0 {
        form.field(out, b",")?;
    }
    Ok(())
}

// The rows of a table of a source, or of all its tables.
fn tables<W: Write, F: Form>(
    out: &mut W,
    form: &F,
    region: &[u8],
    bank: u32,
    source: u32,
    table: Option<u32>,
) -> io::Result<()> {
    if let Some(t) = table {
        return table_rows(out, form, region, bank, source, t);
    }
    for t in 0..ALL_TABLES {
        comma(out, form, t)?;
        table_rows(out, form, region, bank, source, t)?;
    }
    Ok(())
}

// The rows that are asked for, of a bank with a number of sources.
pub fn rows<W: Write, F: Form>(
    out: &mut W,
    form: &F,
    region: &[u8],
    bank: u32,
    count: u32,
    asked: Rows,
) -> io::Result<()> {
    if let Some(i) = asked.source {
        return tables(out, form, region, bank, i, asked.table);
    }
    for i in 0..count {
        comma(out, form, i)?;
        tables(out, form, region, bank, i, asked.table)?;
    }
    Ok(())
}
