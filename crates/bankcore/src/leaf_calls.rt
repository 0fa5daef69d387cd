// The leaves: numbers in bytes, CRC-32, generations, dates.
ghost use Rattle.std.specs.Prelude.{◌≡◌, length};
ghost use Rattle.leaf.specs.Bytes as Bytes;
ghost use Rattle.leaf.specs.Crc as Crc;
ghost use Rattle.leaf.specs.Date as Dates;
ghost use Rattle.leaf.specs.Generation as Generation;
ghost use Rattle.base.specs.Number.{rotation, rotate_left32};
ghost use Rattle.bankcore.specs.LeafAnswers.{date_or_zero, put_refusal};

use leaf::bytes::{TIME_SIZE, WORD_SIZE};
use leaf::date::Date;
use refusal::{Refusal, number_u32};

// The 32-bit number at an offset, little-endian. A byte past the end reads 0.
//   b: the bytes
//   i: the offset of its first byte
#[unsafe(no_mangle)]
pub extern "C" fn tt_get(b: &[u8], i: usize) -> u32
    ensures { result ≡ Bytes.word b.now i }
{
    leaf::bytes::get(b, i)
}

// 9 if n bytes at offset i don't fit.
fn put_refusal(length: usize, i: usize, n: usize) -> u32
    ensures { result ≡ put_refusal length i n }
{
    if length < n {
        return number_u32(Refusal::Small);
    }
    if length - n < i {
        return number_u32(Refusal::Small);
    }
    0
}

// Writes a 32-bit number at an offset, little-endian. Gives 0, or the refusal, and then nothing is written.
//   b: the bytes to write to; i + 4 are needed
//   i: the offset of its first byte
//   n: the number
//   refusals: 9
#[unsafe(no_mangle)]
pub extern "C" fn tt_put(b: &mut [u8], i: usize, n: u32) -> u32
    ensures { (result ≡ put_refusal (length b.old) i Bytes.word_size) × (b.new ≡ Bytes.written b.old i (Bytes.le32 n)) }
{
    let r = put_refusal(b.len(), i, WORD_SIZE);
    leaf::bytes::put(b, i, n);
    r
}

// The signed 64-bit time at an offset, little-endian. A byte past the end reads 0.
//   b: the bytes
//   i: the offset of its first byte
#[unsafe(no_mangle)]
pub extern "C" fn tt_get_time(b: &[u8], i: usize) -> i64
    ensures { result ≡ Bytes.time b.now i }
{
    leaf::bytes::get_time(b, i)
}

// Writes a signed 64-bit time at an offset, little-endian. Gives 0, or the refusal, and then nothing is written.
//   b: the bytes to write to; i + 8 are needed
//   i: the offset of its first byte
//   z: the time, in seconds
//   refusals: 9
#[unsafe(no_mangle)]
pub extern "C" fn tt_put_time(b: &mut [u8], i: usize, z: i64) -> u32
    ensures { (result ≡ put_refusal (length b.old) i Bytes.time_size) × (b.new ≡ Bytes.written b.old i (Bytes.le64 z)) }
{
    let r = put_refusal(b.len(), i, TIME_SIZE);
    leaf::bytes::put_time(b, i, z);
    r
}

// The CRC-32 of bytes (IEEE 802.3), continued from that of the bytes before them. Bytes may be fed part after part: each part starts from
// the answer for the part before it, and the last answer is the CRC of all parts joined. An empty part changes nothing.
//   start: the CRC of the bytes before, 0 if there are none
//   bytes: the bytes
#[unsafe(no_mangle)]
pub extern "C" fn tt_crc32(start: u32, bytes: &[u8]) -> u32
    ensures { result ≡ Crc.crc32 start bytes.now }
{
    leaf::crc::crc32(start, bytes)
}

// Whether generation a is newer than b: at most 2^31 - 1 steps after it, where 0 follows 4294967295.
//   a: a generation
//   b: another
#[unsafe(no_mangle)]
pub extern "C" fn tt_newer(a: u32, b: u32) -> bool
    ensures { result ≡ Generation.newer a b }
{
    leaf::generation::newer(a, b)
}

// The generation after g; 0 follows 4294967295.
//   g: a generation
#[unsafe(no_mangle)]
pub extern "C" fn tt_next(g: u32) -> u32
    ensures { result ≡ Generation.next g }
{
    leaf::generation::next(g)
}

// A date's number, year × 10000 + month × 100 + day; 0 if there is no such date.
//   year: 1 to 9999
//   month: 1 to 12
//   day: 1 to 31
#[unsafe(no_mangle)]
pub extern "C" fn tt_date_new(year: u16, month: u8, day: u8) -> u32
    ensures { result ≡ date_or_zero year month day }
{
    match Date::new(year, month, day) {
        Some(d) => d.0,
        None => 0,
    }
}

// Whether d is a date's number.
//   d: any number
#[unsafe(no_mangle)]
pub extern "C" fn tt_valid_date(d: u32) -> bool
    ensures { result ≡ Dates.valid_date d }
{
    leaf::date::valid_date(d)
}

// x rotated left by 13 bits.
//   x: any number
#[unsafe(no_mangle)]
pub extern "C" fn tt_rotate13(x: u32) -> u32
    ensures { result ≡ rotate_left32 rotation x }
{
    base::number::rotate13(x)
}
