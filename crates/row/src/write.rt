// Writes a row, in one pass.
//
// There is one writer, `put_row`, and `crate::row` calls it on two paths:
// - The fast path, where the longest that the row can be fits (`crate::size::longest_fits`). No size is computed. All texts are tested
//   for special bytes at once; if they have none, no value is tested again.
// - The exact path, where it might not fit. The row's size is computed first (`crate::size::row_size`), so that a refusal leaves the
//   output as it was. The texts may be longer than the values, so each value is tested by itself.
// A change of how bytes are written is made here and in what `put_row` calls, once for both paths: `crate::copy` writes a value as it is,
// `crate::quoted` one with a special byte, and `crate::special` tells which. None of them writes a byte after the row, not even to
// overwrite it, and none tests whether the row fits: that is their `requires`. They are fast because their slices have a constant length
// where they are called: LLVM then makes a load, a comparison or a store of 16 or 8 bytes of a whole loop.
ghost use Rattle.std.specs.Prelude.{◌≡◌, false, ◌+◌, ◌≤◌, eqb, length};
ghost use Rattle.std.proofs.lemmas.List.Edits.{sets};
ghost use Rattle.base.specs.Number.{pick};
ghost use Rattle.rfc4180.specs.Csv.{comma, line_feed};
ghost use Rattle.rfc4180.specs.Write.{any_special, field_of, row_of};
ghost use Rattle.row.specs.Write.{passed_values};

use crate::copy::copy;
use crate::quoted::put_quoted;
use crate::size::cut;
use crate::special::any_special;
use rfc4180::{COMMA, LF};

// Writes the field of v to out at an offset; gives where it ends. Without `test` v has no special byte.
fn put_field(v: &[u8], test: bool, out: &mut [u8], to: usize) -> usize
    requires { ((test ≡ false) → any_special v.now ≡ false) × (to + length (field_of v.now) ≤ length out.old) }
    ensures { (result ≡ to + length (field_of v.now)) × (out.new ≡ sets out.old to (field_of v.now)) }
{
    if test {
        if any_special(v) {
            return put_quoted(v, out, to);
        }
    }
    copy(v, out, to);
    to + v.len()
}

// The byte after field k of n, counted from 1.
fn end_byte(k: usize, n: usize) -> u8
    ensures { result ≡ pick (eqb k n) line_feed comma }
{
    if k == n { LF } else { COMMA }
}

// Writes the row to out; gives how many bytes it has. Without `test` no value has a special byte.
pub(crate) fn put_row(texts: &[u8], lengths: &[u32], test: bool, out: &mut [u8]) -> usize
    requires { ((test ≡ false) → any_special texts.now ≡ false) × (length (row_of (passed_values texts.now lengths.now)) ≤ length out.old) }
    ensures { (result ≡ length (row_of (passed_values texts.now lengths.now))) × (out.new ≡ sets out.old 0 (row_of (passed_values texts.now lengths.now))) }
{
    let mut to: usize = 0;
    let mut rest = texts;
    for (k, n) in lengths.iter().enumerate() {
        let (value, others) = rest.split_at(cut(rest.len(), *n));
        let last = put_field(value, test, out, to);
        out[last] = end_byte(k + 1, lengths.len());
        to = last + 1;
        rest = others;
    }
    to
}
