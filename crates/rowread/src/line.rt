// The fast path: a row without quotes. One search, eight bytes at a time, finds the first quote, CR or LF and the commas before it. If a row
// end is there, the values are copied block by block: a block may go past the end of its value, since the next value overwrites what is too much, and what the
// last block overwrites after the row is saved before and put back.
ghost use Rattle.std.specs.Prelude.{◌≡◌, ◌+◌, ◌-◌, ◌≤◌, ◌<◌, length, take, drop};
ghost use Rattle.std.proofs.lemmas.List.Edits.{sets};
ghost use Rattle.base.specs.Little.{long_bytes};
ghost use Rattle.rowread.specs.Steps.{commas_in, text_in, cuts_in, marks_in, block_size, Ahead, WordSearched, LineFound, Quickly};

use crate::Span;
use crate::exact::{row_end, short_row};
use crate::marks::{clear_first, delimiters_of, first, load};
use base::number::LONG_BYTES;
use rfc4180::{COMMA, MAX_COLUMNS};

// How many bytes are copied at once.
pub(crate) const BLOCK: usize = 16;

// What a search found: the offset of the first quote, CR or LF and how many commas are before it, or only commas.
#[derive(Clone, Copy)]
pub(crate) enum Found {
    Stop { end: usize, commas: usize },
    Commas(usize),
}

// Searches eight bytes. `commas` are before them; `marks` gets where the values before each comma end.
fn search_word(t: &[u8], i: usize, commas: usize, marks: &mut [usize]) -> Found
    requires long_bytes_in_bounds { i + long_bytes ≤ length t.now }
    requires commas_le_i { commas ≤ i }
    ensures { WordSearched t.now i commas marks.old marks.new result }
{
    let mut m = delimiters_of(load(t, i));
    let mut k = commas;
    // No for: what is left of the marks is a number, and k counts commas.
    while m != 0 {
        let q = i + first(m);
        if t[q] != COMMA {
            return Found::Stop { end: q, commas: k };
        }
        if k < marks.len() {
            marks[k] = q - k;
        }
        k += 1;
        m = clear_first(m);
    }
    Found::Commas(k)
}

// Searches the first quote, CR or LF; where t ends within eight bytes it is not found.
fn search_line(t: &[u8], marks: &mut [usize]) -> Found
    ensures { LineFound t.now marks.old marks.new result }
{
    let mut commas: usize = 0;
    for k in 0..t.len() / LONG_BYTES {
        match search_word(t, k * LONG_BYTES, commas, marks) {
            Found::Commas(n) => commas = n,
            stop => return stop,
        }
    }
    Found::Commas(commas)
}

// Copies the bytes of t from one offset to another to out, byte by byte: copy_from_slice would be a call of C's memmove, which the archive doesn't need otherwise.
pub(crate) fn copy_part(t: &[u8], from: usize, end: usize, out: &mut [u8], to: usize)
    requires { (from ≤ end) × (end ≤ length t.now) × (to + (end - from) ≤ length out.old) }
    ensures { out.new ≡ sets out.old to (take (end - from) (drop from t.now)) }
{
    for (i, b) in t[from..end].iter().enumerate() {
        out[to + i] = *b;
    }
}

// Copies a block at once, since its length is a constant.
pub(crate) fn copy_block(t: &[u8], from: usize, out: &mut [u8], to: usize)
    requires { (from + block_size ≤ length t.now) × (to + block_size ≤ length out.old) }
    ensures { out.new ≡ sets out.old to (take block_size (drop from t.now)) }
{
    let until = to + BLOCK;
    let end = from + BLOCK;
    out[to..until].copy_from_slice(&t[from..end]);
}

// Copies n bytes by blocks; up to a block after them is overwritten too.
pub(crate) fn copy_value(t: &[u8], from: usize, n: usize, out: &mut [u8], to: usize)
    requires { (from + n + block_size ≤ length t.now) × (to + n + block_size ≤ length out.old) }
    ensures { Ahead block_size out.old to (take n (drop from t.now)) out.new }
{
    for k in 0..n.div_ceil(BLOCK) {
        copy_block(t, from + k * BLOCK, out, to + k * BLOCK);
    }
}

// Copies the values of the first e bytes, which have n commas, and their ends. What a block may overwrite after them is saved before, and put back.
fn copy_line(t: &[u8], e: usize, n: usize, marks: &[usize], out: &mut [u8], ends: &mut [usize])
    requires block_size_in_bounds { (e + block_size ≤ length t.now) × (n ≡ commas_in (take e t.now)) × (take n marks.now ≡ cuts_in 0 (take e t.now)) }
    requires n_in_bounds { (n ≤ length marks.now) × (e - n + block_size ≤ length out.old) × (n < length ends.old) }
    ensures { (out.new ≡ sets out.old 0 (text_in (take e t.now))) × (ends.new ≡ sets ends.old 0 (marks_in 0 (take e t.now))) }
{
    let mut saved: [u8; BLOCK] = [0; BLOCK];
    copy_block(out, e - n, &mut saved, 0);
    let mut from: usize = 0;
    let mut to: usize = 0;
    for k in 0..n {
        let end = marks[k];
        copy_value(t, from, end - to, out, to);
        ends[k] = end;
        from = from + (end - to) + 1;
        to = end;
    }
    copy_value(t, from, e - from, out, to);
    ends[n] = e - n;
    copy_block(&saved, 0, out, e - n);
}

// Reads the row of `width` values at the start of t, if it has no quotes, and if a block fits after it and after its values. Where a quote comes first, or
// a lone CR, `short_row` is asked.
pub(crate) fn fast_row(t: &[u8], width: usize, out: &mut [u8], ends: &mut [usize]) -> Option<Span>
    ensures { Quickly t.now width out.old ends.old out.new ends.new result }
{
    let mut marks: [usize; MAX_COLUMNS] = [0; MAX_COLUMNS];
    let found = search_line(t, &mut marks);
    let Found::Stop { end, commas } = found else {
        return None;
    };
    let Some(e) = row_end(t, end) else {
        return short_row(t, width, out, ends);
    };
    if commas + 1 != width {
        return None;
    }
    if MAX_COLUMNS < width {
        return None;
    }
    if ends.len() < width {
        return None;
    }
    if t.len() - end < BLOCK {
        return None;
    }
    let size = end - commas;
    if out.len() < size + BLOCK {
        return None;
    }
    copy_line(t, end, commas, &marks, out, ends);
    Some(Span {
        next: end + e,
        size,
    })
}
