// Which of eight bytes are delimiters, told by marks: a number whose byte k is a mark, its highest bit, if byte k of the eight is one, else 0. Eight
// bytes are tested at once, in a 64-bit number.
ghost use Rattle.std.specs.Prelude.{◌≡◌, ◌+◌, ◌<◌, ◌≤◌, length, take, drop};
ghost use Rattle.base.specs.Little.{little, long_bytes};
ghost use Rattle.rowread.specs.Marks.{Bytes, is_quote, is_delimiter, HasMarks, MarksOf, FirstOf, ClearedOf};

use base::number::{BYTE_BITS, bytes_to_u64};
use rfc4180::{COMMA, CR, LF, QUOTE};

// The highest bit of a byte, by which it is marked.
const HIGH_BIT: u64 = 128;

// A byte in each of the eight places.
const EACH: u64 = 0x0101010101010101;

const HIGH_BITS: u64 = HIGH_BIT * EACH;

const LOW_BITS: u64 = (HIGH_BIT - 1) * EACH;

const QUOTES: u64 = (QUOTE as u64) * EACH;

const COMMAS: u64 = (COMMA as u64) * EACH;

const CRS: u64 = (CR as u64) * EACH;

const LFS: u64 = (LF as u64) * EACH;

// The eight bytes at offset i as a little-endian number.
pub(crate) fn load(s: &[u8], i: usize) -> u64
    requires { i + long_bytes ≤ length s.now }
    ensures { (result ≡ little (take long_bytes (drop i s.now))) × Bytes s.now }
{
    bytes_to_u64(
        s[i],
        s[i + 1],
        s[i + 2],
        s[i + 3],
        s[i + 4],
        s[i + 5],
        s[i + 6],
        s[i + 7],
    )
}

// Marks on the bytes of w that are quotes.
pub(crate) fn quotes_of(w: u64) -> u64
    ensures { MarksOf is_quote w result }
{
    !((((w & LOW_BITS) ^ QUOTES) + LOW_BITS) | w) & HIGH_BITS
}

// Marks on the bytes of w that are quotes, commas, CR or LF.
pub(crate) fn delimiters_of(w: u64) -> u64
    ensures { MarksOf is_delimiter w result }
{
    let low = w & LOW_BITS;
    let cr_or_lf = ((low ^ CRS) + LOW_BITS) & ((low ^ LFS) + LOW_BITS);
    !((((low ^ QUOTES) + LOW_BITS) & (((low ^ COMMAS) + LOW_BITS) & cr_or_lf)) | w) & HIGH_BITS
}

// The index of the first mark.
pub(crate) fn first(m: u64) -> usize
    requires { HasMarks m × (0 < m) }
    ensures { FirstOf m result }
{
    m.trailing_zeros() as usize / BYTE_BITS
}

// The marks without the first.
pub(crate) fn clear_first(m: u64) -> u64
    requires { 0 < m }
    ensures { ClearedOf m result × (result < m) }
{
    m & (m - 1)
}
