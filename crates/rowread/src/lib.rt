// Reads a stored row by RFC 4180. Nothing is written to the outputs before the whole row is read, so that a refusal leaves them unchanged.
//
// The fast path (`line`) reads a row without quotes in one search. Where it meets a quote, `exact::short_row` reads a row of at most 1,024 bytes into a buffer.
// Both say nothing of a row that is too near the table's end, too wide or malformed, or whose output has no block to spare. The exact path (`exact`) reads any
// row and gives every refusal; it goes through it twice by the same functions, first without writing. All find delimiters by `marks`, eight bytes at a time;
// `unquote` is the exact path's quoted value.
// What a delimiter is, is known to `marks::delimiters_of` for eight bytes and to `rfc4180::is_text` for one; what a row end is, to `exact::row_end`.
#![tactic(auto)]

mod exact;
mod line;
mod marks;
mod unquote;

ghost use Rattle.rowread.specs.Claims.{Claims};
ghost use Rattle.std.specs.Prelude.{◌≡◌, ◌+◌, ◌<◌, length};
ghost use Rattle.rowread.specs.Stored.{values_at, joined, ends_of, read_answer, after};

use crate::exact::{row, write_row};
use crate::line::fast_row;
use base::slice::part;
use refusal::Refusal;
use rfc4180::MAX_ROW;

// What was read, a value or a row: its values have size bytes, and next is the offset after it.
#[derive(Clone, Copy)]
pub struct Span {
    pub next: usize,
    pub size: usize,
}

// Reads the row of `width` values at an offset of a table: its values, joined, to out, and where each ends to ends.
pub fn read_row(
    table: &[u8],
    width: usize,
    offset: usize,
    out: &mut [u8],
    ends: &mut [usize],
) -> Result<Option<Span>, Refusal>
    ensures { (result ≡ read_answer table.now width offset (length out.old) (length ends.old)) × (out.new ≡ after result (joined (values_at table.now width offset)) out.old) × (ends.new ≡ after result (ends_of 0 (values_at table.now width offset)) ends.old) }
{
    if table.len() < offset {
        return Err(Refusal::Row);
    }
    if offset == table.len() {
        return Ok(None);
    }
    let t = part(table, offset, MAX_ROW);
    let quick = fast_row(t, width, out, ends);
    if let Some(read) = quick {
        return Ok(Some(Span {
            next: offset + read.next,
            size: read.size,
        }));
    }
    let scan = row(t, width, out, ends, false, true);
    let Some(found) = scan else {
        return Err(Refusal::Row);
    };
    if out.len() < found.size {
        return Err(Refusal::Small);
    }
    if ends.len() < width {
        return Err(Refusal::Small);
    }
    write_row(t, width, found.size, out, ends);
    Ok(Some(Span {
        next: offset + found.next,
        size: found.size,
    }))
}

// What holds of reading rows. The function does nothing: its contract is what is proved of the definitions
// (specs/Claims.antt).
pub fn reads_hold()
    ensures { Claims }
{}
