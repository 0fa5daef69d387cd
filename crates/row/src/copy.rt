// Copies bytes, many at once. A value is copied by blocks of a fixed length, the last of which ends where the value ends and may
// overlap the one before it: no byte after the value is written.
ghost use Rattle.std.specs.Prelude.{◌≡◌, ◌+◌, ◌≤◌, ◌<◌, length};
ghost use Rattle.std.proofs.lemmas.List.Edits.{sets};
ghost use Rattle.row.specs.Steps.{block_size};

use crate::{BLOCK, HALF_WORD, HALVES, WORD};

// Copies v to out at an offset, byte by byte.
fn copy_each(v: &[u8], out: &mut [u8], to: usize)
    requires { to + length v.now ≤ length out.old }
    ensures { out.new ≡ sets out.old to v.now }
{
    for (i, b) in v.iter().enumerate() {
        out[to + i] = *b;
    }
}

// Copies at most 16 bytes to out at an offset. All are read before one is written, so that a call with a slice of fixed length becomes
// one load and one store.
pub(crate) fn copy_block(v: &[u8], out: &mut [u8], to: usize)
    requires { (length v.now ≤ block_size) × (to + length v.now ≤ length out.old) }
    ensures { out.new ≡ sets out.old to v.now }
{
    let mut b: [u8; BLOCK] = [0; BLOCK];
    copy_each(v, &mut b, 0);
    let n = v.len();
    copy_each(&b[..n], out, to);
}

// Copies v, which has n to 2n bytes, to out at an offset: the first n, then the last n.
fn copy_ends(v: &[u8], n: usize, out: &mut [u8], to: usize)
    requires { (n ≤ length v.now) × (length v.now ≤ n + n) × (n ≤ block_size) × (to + length v.now ≤ length out.old) }
    ensures { out.new ≡ sets out.old to v.now }
{
    let last = v.len() - n;
    copy_block(&v[..n], out, to);
    copy_block(&v[last..v.len()], out, to + last);
}

// Copies fewer than 16 bytes to out at an offset. Of 1, 2 or 3 bytes the first, the middle and the last are all.
fn copy_short(v: &[u8], out: &mut [u8], to: usize)
    requires { (length v.now < block_size) × (to + length v.now ≤ length out.old) }
    ensures { out.new ≡ sets out.old to v.now }
{
    let n = v.len();
    if WORD <= n {
        copy_ends(v, WORD, out, to);
        return;
    }
    if HALF_WORD <= n {
        copy_ends(v, HALF_WORD, out, to);
        return;
    }
    if n == 0 {
        return;
    }
    let middle = n / HALVES;
    let last = n - 1;
    out[to] = v[0];
    out[to + middle] = v[middle];
    out[to + last] = v[last];
}

// Copies v to out at an offset.
pub(crate) fn copy(v: &[u8], out: &mut [u8], to: usize)
    requires { to + length v.now ≤ length out.old }
    ensures { out.new ≡ sets out.old to v.now }
{
    let n = v.len();
    if n < BLOCK {
        copy_short(v, out, to);
        return;
    }
    let last = n - BLOCK;
    let (blocks, _) = v[..n - 1].as_chunks::<BLOCK>();
    for (i, block) in blocks.iter().enumerate() {
        copy_block(block, out, to + BLOCK * i);
    }
    copy_block(&v[last..], out, to + last);
}
