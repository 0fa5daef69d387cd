// Numbers in a slice of bytes, little-endian.
ghost use Rattle.leaf.specs.Claims.{Numbers};
ghost use Rattle.std.specs.Prelude.{◌≡◌, ◌+◌, ◌<◌, ◌≤◌, true, drop, nat_le};
ghost use Rattle.base.specs.Lists.{byte};
ghost use Rattle.leaf.specs.Bytes as Bytes;

use base::number::WORD_VALUES;

// The bytes of a 32-bit number, and of a 64-bit one.
pub const WORD_SIZE: usize = 4;

pub const TIME_SIZE: usize = 8;

// The byte at offset i, 0 past the end.
pub fn get8(b: &[u8], i: usize) -> u8
    ensures { result ≡ byte b.now i }
{
    b.get(i).copied().unwrap_or(0)
}

// The bytes from offset i on, none past the end.
fn rest(b: &[u8], i: usize) -> &[u8]
    ensures { result.now ≡ drop i b.now }
{
    &b[i.min(b.len())..]
}

// The 32-bit number at offset i; a byte past the end reads 0.
pub fn get(b: &[u8], i: usize) -> u32
    ensures { result ≡ Bytes.word b.now i }
{
    let p = rest(b, i);
    u32::from_le_bytes([get8(p, 0), get8(p, 1), get8(p, 2), get8(p, 3)])
}

// Whether n bytes at offset i fit in len bytes.
fn fits_at(len: usize, i: usize, n: usize) -> bool
    ensures { (result ≡ nat_le (i + n) len) × (result ≡ true → i + n ≤ len) }
{
    if len < n {
        return false;
    }
    i <= len - n
}

// Writes bytes at offset i if they fit; otherwise nothing changes.
fn store<const N: usize>(b: &mut [u8], i: usize, bytes: [u8; N])
    ensures { b.new ≡ Bytes.written b.old i bytes.entry }
{
    if fits_at(b.len(), i, N) {
        b[i..i + N].copy_from_slice(&bytes);
    }
}

// Writes a 32-bit number at offset i if it fits; otherwise nothing changes.
pub fn put(b: &mut [u8], i: usize, n: u32)
    ensures { b.new ≡ Bytes.written b.old i (Bytes.le32 n) }
{
    store(b, i, n.to_le_bytes())
}

// The signed 64-bit number at offset i; a byte past the end reads 0.
pub fn get_time(b: &[u8], i: usize) -> i64
    ensures { result ≡ Bytes.time b.now i }
{
    let p = rest(b, i);
    let n = u64::from(get(p, 0)) + u64::from(get(p, WORD_SIZE)) * WORD_VALUES;
    n.cast_signed()
}

// Writes a signed 64-bit number at offset i if it fits; otherwise nothing changes.
pub fn put_time(b: &mut [u8], i: usize, z: i64)
    ensures { b.new ≡ Bytes.written b.old i (Bytes.le64 z) }
{
    store(b, i, z.to_le_bytes())
}

// What holds of numbers in bytes. The function does nothing: its contract is what is proved of the definitions
// (specs/Claims.antt).
pub fn numbers_hold()
    ensures { Numbers }
{}
