// Bytes written into a buffer. Those that don't fit are left out. Buffers of zeros, and a file read into one.
ghost use Rattle.std.specs.Prelude.{◌≡◌, ◌-◌, ◌≤◌, IfOk, min, length, take, replicate, slice_set};
ghost use Rattle.std.proofs.lemmas.List.Edits.{sets};

use std::io;
use std::io::Read;

// 4,096 zeros.
pub fn buffer() -> [u8; 4096]
    ensures { 4096 ≡ length result }
{
    [0; 4096]
}

// 65,536 zeros, for what moves many bytes.
pub fn large_buffer() -> [u8; 65536]
    ensures { 65536 ≡ length result }
{
    [0; 65536]
}

// Reads until a buffer is full or the input ends, and gives how many bytes are at the buffer's start.
pub fn read_full<R: Read>(from: &mut R, buffer: &mut [u8]) -> io::Result<usize>
    ensures ok { IfOk result (λ n. n ≤ length buffer.new) }
    ensures length { length buffer.new ≡ length buffer.old }
{
    let mut done = 0;
    // No `for`: each turn goes on by as many bytes as the read gave.
    while done < buffer.len() {
        let n = from.read(&mut buffer[done..])?;
        if n == 0 {
            break;
        }
        done += n;
    }
    Ok(done)
}

// Writes a byte at an offset.
pub fn put8(out: &mut [u8], at: usize, b: u8)
    ensures { out.new ≡ slice_set out.old at b }
{
    if at < out.len() {
        out[at] = b;
    }
}

// How many of n bytes fit from an offset on.
fn fitting(n: usize, size: usize, at: usize) -> usize
    ensures { result ≡ min n (size - at) }
{
    if size <= at {
        return 0;
    }
    if n < size - at { n } else { size - at }
}

// Copies bytes to an offset.
pub fn copy(s: &[u8], out: &mut [u8], at: usize)
    ensures { out.new ≡ sets out.old at (take (length out.old - at) s.now) }
{
    let n = fitting(s.len(), out.len(), at);
    if 0 < n {
        out[at..at + n].copy_from_slice(&s[..n]);
    }
}

// Writes n bytes b from an offset on.
pub fn fill(out: &mut [u8], at: usize, n: usize, b: u8)
    ensures { out.new ≡ sets out.old at (replicate (min n (length out.old - at)) b) }
{
    let m = fitting(n, out.len(), at);
    if 0 < m {
        out[at..at + m].fill(b);
    }
}
