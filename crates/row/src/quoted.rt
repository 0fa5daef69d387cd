// Writes a quoted value: a quote, its bytes with each quote doubled, a quote.
ghost use Rattle.std.specs.Prelude.{◌≡◌, ◌++◌, ◌+◌, ◌≤◌, eqb, length, take, drop};
ghost use Rattle.std.proofs.lemmas.List.Edits.{sets};
ghost use Rattle.base.specs.Number.{pick};
ghost use Rattle.rfc4180.specs.Csv.{quote};
ghost use Rattle.rfc4180.specs.Write.{doubled};
ghost use Rattle.row.specs.Steps.{block_size, quoted_of};

use crate::copy::copy_block;
use crate::special::has_byte;
use crate::{BLOCK, WORD};
use rfc4180::QUOTE;

// How many bytes doubling adds: 1 to a quote.
fn doubling_adds(byte: u8) -> usize
    ensures { result ≡ pick (eqb byte quote) 1 0 }
{
    usize::from(byte == QUOTE)
}

// Writes bytes to out at an offset, quotes doubled; gives where they end. For each byte a quote is written first; a quote then follows
// it, any other byte overwrites it. So no branch depends on a byte.
fn put_each(v: &[u8], out: &mut [u8], to: usize) -> usize
    requires { to + length (doubled v.now) ≤ length out.old }
    ensures { (result ≡ to + length (doubled v.now)) × (out.new ≡ sets out.old to (doubled v.now)) }
{
    let mut n = to;
    for (i, b) in v.iter().enumerate() {
        out[n + i] = QUOTE;
        n += doubling_adds(*b);
        out[n + i] = *b;
    }
    n + v.len()
}

// The same of a word, which is copied at once if it has no quote.
fn put_word(v: &[u8], out: &mut [u8], to: usize) -> usize
    requires { (length v.now ≤ block_size) × (to + length (doubled v.now) ≤ length out.old) }
    ensures { (result ≡ to + length (doubled v.now)) × (out.new ≡ sets out.old to (doubled v.now)) }
{
    if has_byte(v, QUOTE) {
        return put_each(v, out, to);
    }
    copy_block(v, out, to);
    to + v.len()
}

// Copies the blocks of v before the first one with a quote to out at an offset; gives how many bytes they have.
fn put_plain_blocks(v: &[u8], out: &mut [u8], to: usize) -> usize
    requires { to + length v.now ≤ length out.old }
    ensures { (result ≤ length v.now) × (doubled v.now ≡ take result v.now ++ doubled (drop result v.now)) × (out.new ≡ sets out.old to (take result v.now)) }
{
    let (blocks, _) = v.as_chunks::<BLOCK>();
    for (i, block) in blocks.iter().enumerate() {
        if has_byte(block, QUOTE) {
            return BLOCK * i;
        }
        copy_block(block, out, to + BLOCK * i);
    }
    BLOCK * blocks.len()
}

// Writes v to out at an offset, quotes doubled; gives where it ends. From the first block with a quote on it goes by words.
fn put_doubled(v: &[u8], out: &mut [u8], to: usize) -> usize
    requires { to + length (doubled v.now) ≤ length out.old }
    ensures { (result ≡ to + length (doubled v.now)) × (out.new ≡ sets out.old to (doubled v.now)) }
{
    let plain = put_plain_blocks(v, out, to);
    let (words, rest) = v[plain..].as_chunks::<WORD>();
    let mut n = to + plain;
    for word in words {
        n = put_word(word, out, n);
    }
    put_each(rest, out, n)
}

// Writes v quoted to out at an offset; gives where it ends.
pub(crate) fn put_quoted(v: &[u8], out: &mut [u8], to: usize) -> usize
    requires { to + length (quoted_of v.now) ≤ length out.old }
    ensures { (result ≡ to + length (quoted_of v.now)) × (out.new ≡ sets out.old to (quoted_of v.now)) }
{
    out[to] = QUOTE;
    let end = put_doubled(v, out, to + 1);
    out[end] = QUOTE;
    end + 1
}
