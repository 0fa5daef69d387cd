// How many bytes a row has, and the most that it can have.
ghost use Rattle.std.specs.Prelude.{◌≡◌, true, ◌+◌, ◌*◌, ◌≤◌, min, length};
ghost use Rattle.rfc4180.specs.Csv.{max_columns, max_row};
ghost use Rattle.rfc4180.specs.Write.{doubled, field_of, row_of};
ghost use Rattle.row.specs.Steps.{counted_size, value_ends};
ghost use Rattle.row.specs.Write.{passed_values};

use crate::special::any_special;
use rfc4180::{MAX_ROW, QUOTE};

// How many bytes are counted at once: few enough for a count in a u8, and enough for LLVM to keep the loop and count by blocks.
const COUNTED: usize = 64;

// The two quotes around a value.
const TWO_QUOTES: usize = 2;

// What a row has beside its values' bytes, for each at most: two quotes and a delimiter.
const VALUE_ENDS: usize = TWO_QUOTES + 1;

// The size that is given for a row over its limit.
const TOO_LONG: usize = MAX_ROW + 1;

// Whether the row of values with `bytes` bytes in all fits the output and the limit even if every byte is doubled and every value quoted.
pub(crate) fn longest_fits(bytes: usize, values: usize, capacity: usize) -> bool
    requires { values ≤ max_columns }
    ensures { (result ≡ true) → (bytes + bytes + values * value_ends ≤ max_row) × (bytes + bytes + values * value_ends ≤ capacity) }
{
    if MAX_ROW < bytes {
        return false;
    }
    let longest = bytes + bytes + values * VALUE_ENDS;
    if MAX_ROW < longest {
        return false;
    }
    longest <= capacity
}

// How many bytes a value of length n has: at most those that are left.
pub(crate) fn cut(left: usize, n: u32) -> usize
    ensures { result ≡ min n left }
{
    left.min(n as usize)
}

// How many of at most 64 bytes are quotes, which is what doubling adds.
fn quotes(v: &[u8]) -> u8
    requires { length v.now ≤ counted_size }
    ensures { result + length v.now ≡ length (doubled v.now) }
{
    let mut n: u8 = 0;
    for b in v {
        if *b == QUOTE {
            n += 1;
        }
    }
    n
}

// How many bytes a value has with its quotes doubled.
fn doubled_size(v: &[u8]) -> usize
    requires { length v.now ≤ max_row }
    ensures { result ≡ length (doubled v.now) }
{
    let (parts, rest) = v.as_chunks::<COUNTED>();
    let mut n = v.len();
    for part in parts {
        n += usize::from(quotes(part));
    }
    n + usize::from(quotes(rest))
}

// How many bytes a value's field has.
fn field_size(v: &[u8]) -> usize
    requires { length v.now ≤ max_row }
    ensures { result ≡ length (field_of v.now) }
{
    if any_special(v) {
        return doubled_size(v) + TWO_QUOTES;
    }
    v.len()
}

// The row's size, or 8,193 for any above 8,192.
pub(crate) fn row_size(texts: &[u8], lengths: &[u32]) -> usize
    ensures { result ≡ min (max_row + 1) (length (row_of (passed_values texts.now lengths.now))) }
{
    let mut total: usize = 0;
    let mut rest = texts;
    for n in lengths {
        let (value, others) = rest.split_at(cut(rest.len(), *n));
        if MAX_ROW < value.len() {
            return TOO_LONG;
        }
        total += field_size(value) + 1;
        if MAX_ROW < total {
            return TOO_LONG;
        }
        rest = others;
    }
    total
}
