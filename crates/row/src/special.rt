// Whether bytes have a special one, which makes a value quoted. They are tested by blocks of a fixed length, as they are copied.
ghost use Rattle.std.specs.Prelude.{◌≡◌, ◌+◌, ◌≤◌, ◌<◌, length};
ghost use Rattle.rfc4180.specs.Write.{any_special};
ghost use Rattle.row.specs.Steps.{has, block_size};

use crate::{BLOCK, HALF_WORD, HALVES, WORD};
use rfc4180::{COMMA, CR, LF, QUOTE};

// The first, middle and last byte.
const THREE_BYTES: usize = 3;

// Whether a byte is among others. The loop has no early exit, so that many are tested at once.
pub(crate) fn has_byte(v: &[u8], byte: u8) -> bool
    ensures { result ≡ has byte v.now }
{
    let mut found = false;
    for b in v {
        found |= *b == byte;
    }
    found
}

// Whether a quote, comma, CR or LF is among a few bytes. A test for each, so that LLVM compares a whole block with one of them at once.
fn special_in_block(v: &[u8]) -> bool
    ensures { result ≡ any_special v.now }
{
    has_byte(v, QUOTE) | (has_byte(v, COMMA) | (has_byte(v, CR) | has_byte(v, LF)))
}

// The same of v, which has n to 2n bytes: of the first n or the last n.
fn special_in_ends(v: &[u8], n: usize) -> bool
    requires { (n ≤ length v.now) × (length v.now ≤ n + n) }
    ensures { result ≡ any_special v.now }
{
    let last = v.len() - n;
    special_in_block(&v[..n]) | special_in_block(&v[last..])
}

// The same of fewer than 16 bytes. Of 1, 2 or 3 bytes the first, the middle and the last are all.
fn special_in_short(v: &[u8]) -> bool
    requires { length v.now < block_size }
    ensures { result ≡ any_special v.now }
{
    let n = v.len();
    if WORD <= n {
        return special_in_ends(v, WORD);
    }
    if HALF_WORD <= n {
        return special_in_ends(v, HALF_WORD);
    }
    if n == 0 {
        return false;
    }
    let middle = n / HALVES;
    let last = n - 1;
    let b: [u8; THREE_BYTES] = [v[0], v[middle], v[last]];
    special_in_block(&b)
}

// Whether a special byte is among those of v.
pub(crate) fn any_special(v: &[u8]) -> bool
    ensures { result ≡ any_special v.now }
{
    let n = v.len();
    if n < BLOCK {
        return special_in_short(v);
    }
    let (blocks, _) = v[..n - 1].as_chunks::<BLOCK>();
    for block in blocks {
        if special_in_block(block) {
            return true;
        }
    }
    special_in_block(&v[n - BLOCK..])
}
