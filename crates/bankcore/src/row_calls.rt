// Rows and the trip filter.
ghost use Rattle.std.specs.Prelude.{◌≡◌, length};
ghost use Rattle.rfc4180.specs.Write.{row_of};
ghost use Rattle.row.specs.Columns.{names_line};
ghost use Rattle.row.specs.Write as Rows;
ghost use Rattle.rowread.specs.Stored as StoredRows;
ghost use Rattle.bloom.specs.Bloom as Bloom;
ghost use Rattle.bankcore.specs.RowAnswers as Answers;

use base::table::LAST_TABLE;
use refusal::{Refusal, number_u32};
use rowread::Span;

// A written line's length, with its LF.
#[repr(C)]
#[derive(Clone, Copy)]
pub struct RowNumbers {
    pub refusal: u32,
    pub length: usize,
}

// How many columns there are.
#[repr(C)]
#[derive(Clone, Copy)]
pub struct ColumnNumbers {
    pub refusal: u32,
    pub count: usize,
}

// A row that was read: found is 1 if there is one; next is the offset of the row after it, size how many bytes its values have, joined.
#[repr(C)]
#[derive(Clone, Copy)]
pub struct ReadNumbers {
    pub refusal: u32,
    pub found: u32,
    pub next: usize,
    pub size: usize,
}

// Whether an id may be in the filter: 1 or 0.
#[repr(C)]
#[derive(Clone, Copy)]
pub struct FilterNumbers {
    pub refusal: u32,
    pub present: u32,
}

impl From<Result<usize, Refusal>> for RowNumbers {
    ghost from_gives = { λ a x. x ≡ Answers.of_row a };

    fn from(a: Result<usize, Refusal>) -> RowNumbers {
        match a {
            Ok(n) => RowNumbers {
                refusal: 0,
                length: n,
            },
            Err(r) => RowNumbers {
                refusal: number_u32(r),
                length: 0,
            },
        }
    }
}

fn no_row(r: u32) -> ReadNumbers
    ensures { result ≡ Answers.no_row r }
{
    ReadNumbers {
        refusal: r,
        found: 0,
        next: 0,
        size: 0,
    }
}

impl From<Result<Option<Span>, Refusal>> for ReadNumbers {
    ghost from_gives = { λ a x. x ≡ Answers.of_read a };

    fn from(a: Result<Option<Span>, Refusal>) -> ReadNumbers {
        match a {
            Ok(Some(Span { next, size })) => ReadNumbers {
                refusal: 0,
                found: 1,
                next,
                size,
            },
            Ok(None) => no_row(0),
            Err(r) => no_row(number_u32(r)),
        }
    }
}

impl From<Result<bool, Refusal>> for FilterNumbers {
    ghost from_gives = { λ a x. x ≡ Answers.of_filter a };

    fn from(a: Result<bool, Refusal>) -> FilterNumbers {
        match a {
            Ok(true) => FilterNumbers {
                refusal: 0,
                present: 1,
            },
            Ok(false) => FilterNumbers {
                refusal: 0,
                present: 0,
            },
            Err(r) => FilterNumbers {
                refusal: number_u32(r),
                present: 0,
            },
        }
    }
}

// How many columns a table has.
//   table: TT_TABLE_ROUTES to TT_TABLE_TRANSFERS
//   refusals: 2
#[unsafe(no_mangle)]
pub extern "C" fn tt_column_count(table: u32) -> ColumnNumbers
    ensures { result ≡ Answers.of_columns table }
{
    if LAST_TABLE < table {
        return ColumnNumbers {
            refusal: number_u32(Refusal::Argument),
            count: 0,
        };
    }
    ColumnNumbers {
        refusal: 0,
        count: row::column_count(table),
    }
}

// Writes a table's names line to the first bytes of out, with its LF, and gives its length.
//   table: TT_TABLE_ROUTES to TT_TABLE_TRANSFERS
//   out: a buffer; TT_MAX_NAMES_LINE bytes are enough for any table
//   refusals: 2, 9
#[unsafe(no_mangle)]
pub extern "C" fn tt_names_line(table: u32, out: &mut [u8]) -> RowNumbers
    ensures value { result ≡ Answers.of_row (Rows.names_answer table (length out.old)) }
    ensures out_after { out.new ≡ Rows.after (Rows.names_answer table (length out.old)) (names_line table) out.old }
{
    RowNumbers::from(row::names_line(table, out))
}

// Writes the row of a table's values to the first bytes of out, quoted where needed, with its LF, and gives its length.
//   table: TT_TABLE_ROUTES to TT_TABLE_TRANSFERS
//   texts: the values, joined (Joined texts, above)
//   lengths: the length of each value, as many as the table has columns
//   out: a buffer; TT_MAX_ROW bytes are enough for any row
//   refusals: 2, 14, 9
#[unsafe(no_mangle)]
pub extern "C" fn tt_row(table: u32, texts: &[u8], lengths: &[u32], out: &mut [u8]) -> RowNumbers
    ensures value { result ≡ Answers.of_row (Rows.row_answer table texts.now lengths.now (length out.old)) }
    ensures out_after { out.new ≡ Rows.after (Rows.row_answer table texts.now lengths.now (length out.old)) (row_of (Rows.passed_values texts.now lengths.now)) out.old }
{
    RowNumbers::from(row::row(table, texts, lengths, out))
}

// Reads the row at an offset of stored rows: its values, joined, to the first bytes of out, and to ends the offset in out where each ends.
// A row ends in LF or CRLF; a CR outside quotes that no LF follows meets 14. At the end of the table found is 0, and that is no refusal.
//   table: the rows' bytes; offset 0 of a stored table is its names line
//   width: how many values the row must have
//   place: the row's offset in the table
//   out: a buffer; TT_MAX_ROW bytes are enough for any row
//   ends: at least width elements
//   refusals: 14, 9
#[unsafe(no_mangle)]
pub extern "C" fn tt_read_row(
    table: &[u8],
    width: usize,
    place: usize,
    out: &mut [u8],
    ends: &mut [usize],
) -> ReadNumbers
    ensures value { result ≡ Answers.of_read (StoredRows.read_answer table.now width place (length out.old) (length ends.old)) }
    ensures out_after { out.new ≡ StoredRows.after (StoredRows.read_answer table.now width place (length out.old) (length ends.old)) (StoredRows.joined (StoredRows.values_at table.now width place)) out.old }
    ensures ends_after { ends.new ≡ StoredRows.after (StoredRows.read_answer table.now width place (length out.old) (length ends.old)) (StoredRows.ends_of 0 (StoredRows.values_at table.now width place)) ends.old }
{
    ReadNumbers::from(rowread::read_row(table, width, place, out, ends))
}

// Whether a trip id may be in the filter: present is 1 or 0.
//   bits: the filter, 1 to TT_MAX_FILTER bytes
//   id: the trip id
//   refusals: 2
#[unsafe(no_mangle)]
pub extern "C" fn tt_filter_query(bits: &[u8], id: &[u8]) -> FilterNumbers
    ensures { result ≡ Answers.of_filter (Bloom.query bits.now id.now) }
{
    FilterNumbers::from(bloom::query(bits, id))
}

// Inserts a trip id into the filter; present says whether it may have been there before.
//   bits: the filter, 1 to TT_MAX_FILTER bytes
//   id: the trip id
//   refusals: 2
#[unsafe(no_mangle)]
pub extern "C" fn tt_filter_insert(bits: &mut [u8], id: &[u8]) -> FilterNumbers
    ensures value { result ≡ Answers.of_filter (Bloom.insert_answer bits.old id.now) }
    ensures bits_after { bits.new ≡ Bloom.inserted bits.old id.now }
{
    FilterNumbers::from(bloom::insert(bits, id))
}
