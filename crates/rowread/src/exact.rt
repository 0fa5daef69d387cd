// The exact path: any row, in two passes of the same functions. The first (`write` is false) only reads, so that a refusal leaves the outputs
// unchanged; the second writes the values of a row that is known to fit. A short row with quotes is read once, into a buffer, and copied to the outputs
// once it is known to be a row.
ghost use Rattle.std.specs.Prelude.{◌≡◌, ◌+◌, ◌-◌, ◌≤◌, ◌<◌, length, drop, MatchOption};
ghost use Rattle.std.proofs.lemmas.List.Edits.{sets};
ghost use Rattle.rfc4180.specs.Read.{plain_value, field_at, row_end, values};
ghost use Rattle.rowread.specs.Stored.{values_of, joined, ends_of};
ghost use Rattle.rowread.specs.Steps.{piece_of, scan_of, IsRow, slack_of, Filled, FieldRoom, RowRoom, RowWritten, Quickly};

use crate::Span;
use crate::line::{BLOCK, copy_block, copy_part, copy_value};
use crate::marks::{delimiters_of, first, load};
use crate::unquote::unquote;
use base::number::LONG_BYTES;
use base::slice::part;
use leaf::bytes::get8;
use rfc4180::{COMMA, CR, LF, MAX_COLUMNS, QUOTE, is_text};

// How many bytes a row end has.
const LF_SIZE: usize = 1;

const CRLF_SIZE: usize = 2;

// The longest row that is read into a buffer, and the buffer's size: a block may go past the row's values.
const SHORT: usize = 1024;

const BUFFER: usize = SHORT + BLOCK;

// How many bytes the row end at an offset has: LF, or CR and LF; None if there is none.
pub(crate) fn row_end(t: &[u8], i: usize) -> Option<usize>
    ensures { MatchOption result (row_end (drop i t.now) ≡ 0) (λ n. (n ≡ row_end (drop i t.now)) × (0 < n)) }
{
    let b = get8(t, i);
    if b == LF {
        return Some(LF_SIZE);
    }
    if b != CR {
        return None;
    }
    if get8(t, i + 1) != LF {
        return None;
    }
    Some(CRLF_SIZE)
}

// The end of the value without quotes at an offset.
fn text_end(t: &[u8], from: usize) -> usize
    requires { from ≤ length t.now }
    ensures { result ≡ from + length (plain_value (drop from t.now)) }
{
    let words = (t.len() - from) / LONG_BYTES;
    for k in 0..words {
        let i = from + k * LONG_BYTES;
        let m = delimiters_of(load(t, i));
        if m != 0 {
            return i + first(m);
        }
    }
    for i in from + words * LONG_BYTES..t.len() {
        if !is_text(t[i]) {
            return i;
        }
    }
    t.len()
}

// The value at an offset, unquoted; if `write`, it goes to out. If `ahead`, a block after it may be overwritten.
fn value(t: &[u8], from: usize, out: &mut [u8], to: usize, write: bool, ahead: bool) -> Option<Span>
    requires from_in_bounds { (from ≤ length t.now) × (to ≤ from) }
    requires field_room { FieldRoom (slack_of ahead) write t.now from out.old to }
    ensures { (result ≡ piece_of (length t.now) (field_at (drop from t.now))) × Filled (slack_of ahead) write out.old to (field_at (drop from t.now)) out.new }
{
    if get8(t, from) == QUOTE {
        return unquote(t, from + 1, out, to, write, ahead);
    }
    let end = text_end(t, from);
    let size = end - from;
    if write {
        if ahead & (BLOCK <= t.len() - end) {
            copy_value(t, from, size, out, to);
        } else {
            copy_part(t, from, end, out, to);
        }
    }
    Some(Span { next: end, size })
}

// The row of `width` values at the start of t; if `write`, the values go to out and their ends to ends. If `ahead`, a block after the values may be
// overwritten.
pub(crate) fn row(
    t: &[u8],
    width: usize,
    out: &mut [u8],
    ends: &mut [usize],
    write: bool,
    ahead: bool,
) -> Option<Span>
    requires { RowRoom (slack_of ahead) write t.now width out.old ends.old }
    ensures { (result ≡ scan_of width t.now) × RowWritten (slack_of ahead) write t.now width out.old ends.old out.new ends.new }
{
    let mut from: usize = 0;
    let mut to: usize = 0;
    for k in 0..width {
        let v = value(t, from, out, to, write, ahead)?;
        to += v.size;
        if write {
            ends[k] = to;
        }
        if k + 1 == width {
            let e = row_end(t, v.next)?;
            return Some(Span {
                next: v.next + e,
                size: to,
            });
        }
        if get8(t, v.next) != COMMA {
            return None;
        }
        from = v.next + 1;
    }
    None
}

// Writes the values of the row at the start of t, `size` bytes, and their ends. What a block may overwrite after them is saved before, and put back.
pub(crate) fn write_row(t: &[u8], width: usize, size: usize, out: &mut [u8], ends: &mut [usize])
    requires { IsRow (values width t.now) × (size ≡ length (joined (values_of (values width t.now)))) × (size ≤ length out.old) × (width ≤ length ends.old) }
    ensures { (out.new ≡ sets out.old 0 (joined (values_of (values width t.now)))) × (ends.new ≡ sets ends.old 0 (ends_of 0 (values_of (values width t.now)))) }
{
    if out.len() - size < BLOCK {
        row(t, width, out, ends, true, false);
        return;
    }
    let mut saved: [u8; BLOCK] = [0; BLOCK];
    copy_block(out, size, &mut saved, 0);
    row(t, width, out, ends, true, true);
    copy_block(&saved, 0, out, size);
}

// Reads the row of `width` values at the start of t, if these are at most ten, it has at most 1,024 bytes and a block fits after its values. They are
// read into a buffer, and copied once they are known to be a row's; what the last block overwrites after them is saved before, and put back.
pub(crate) fn short_row(t: &[u8], width: usize, out: &mut [u8], ends: &mut [usize]) -> Option<Span>
    ensures { Quickly t.now width out.old ends.old out.new ends.new result }
{
    if MAX_COLUMNS < width {
        return None;
    }
    if ends.len() < width {
        return None;
    }
    let s = part(t, 0, SHORT);
    let mut held: [u8; BUFFER] = [0; BUFFER];
    let mut marks: [usize; MAX_COLUMNS] = [0; MAX_COLUMNS];
    let scan = row(s, width, &mut held, &mut marks, true, true)?;
    if out.len() < scan.size + BLOCK {
        return None;
    }
    let mut after: [u8; BLOCK] = [0; BLOCK];
    copy_block(out, scan.size, &mut after, 0);
    copy_value(&held, 0, scan.size, out, 0);
    copy_block(&after, 0, out, scan.size);
    ends[0..width].copy_from_slice(&marks[0..width]);
    Some(scan)
}
