// The trip filter: four bits of a lent filter for each trip id.
#![tactic(auto)]

ghost use Rattle.bloom.specs.Claims.{Claims};
ghost use Rattle.std.specs.Prelude.{◌≡◌, ◌*◌, ◌/◌, ◌%◌, ◌<◌, ◌≤◌, true, length};
ghost use Rattle.base.specs.Number.{byte_bits};
ghost use Rattle.bloom.specs.Bloom as Bloom;
ghost use Rattle.bloom.specs.Bloom.{max_filter};
ghost use Rattle.bloom.specs.Positions.{Within};

use base::number::{BYTE_BITS, BYTE_BITS_32, rotate13};
use leaf::crc::crc32;
use refusal::Refusal;

// The most bytes of a filter.
pub const MAX_FILTER: usize = 65536;

// How many bits a trip id has.
const POSITIONS: usize = 4;

fn step_of(hash: u32) -> u32
    ensures { result ≡ Bloom.step_of hash }
{
    rotate13(hash) | 1
}

// A sum modulo the filter's number of bits.
fn position_in(sum: u32, bytes: usize) -> u32
    requires { (0 < bytes) × (bytes ≤ max_filter) }
    ensures { (result ≡ sum % (byte_bits * bytes)) × (result / byte_bits < bytes) }
{
    sum % ((BYTE_BITS * bytes) as u32)
}

fn positions(hash: u32, bytes: usize) -> [u32; POSITIONS]
    requires { (0 < bytes) × (bytes ≤ max_filter) }
    ensures { (result ≡ Bloom.positions hash bytes) × Within bytes result }
{
    let step = step_of(hash);
    let second = hash.wrapping_add(step);
    let third = second.wrapping_add(step);
    let fourth = third.wrapping_add(step);
    [
        position_in(hash, bytes),
        position_in(second, bytes),
        position_in(third, bytes),
        position_in(fourth, bytes),
    ]
}

// Whether the bit at a position is set.
fn is_set(bits: &[u8], p: u32) -> bool
    requires { p / byte_bits < length bits.now }
    ensures { result ≡ Bloom.is_set bits.now p }
{
    (bits[(p / BYTE_BITS_32) as usize] >> (p % BYTE_BITS_32)) % 2 == 1
}

// Reads the bit at a position, then sets it.
fn visit(bits: &mut [u8], p: u32) -> bool
    requires { p / byte_bits < length bits.old }
    ensures { (result ≡ Bloom.is_set bits.old p) × (bits.new ≡ Bloom.set_bit bits.old p) }
{
    let i = (p / BYTE_BITS_32) as usize;
    let before = bits[i];
    let after = before | (1 << (p % BYTE_BITS_32));
    bits[i] = after;
    (before >> (p % BYTE_BITS_32)) % 2 == 1
}

// Whether the bits at positions are all set.
fn all_set(bits: &[u8], positions: &[u32; POSITIONS]) -> bool
    requires { Within (length bits.now) positions.now }
    ensures { result ≡ Bloom.all_set bits.now positions.now }
{
    let mut all = true;
    for p in positions {
        all &= is_set(bits, *p);
    }
    all
}

// Reads and sets the bits at positions in order; whether all were set.
fn set_all(bits: &mut [u8], positions: &[u32; POSITIONS]) -> bool
    requires { Within (length bits.old) positions.now }
    ensures { (result ≡ Bloom.seen bits.old positions.now) × (bits.new ≡ Bloom.set_all bits.old positions.now) }
{
    let mut all = true;
    for p in positions {
        all &= visit(bits, *p);
    }
    all
}

// Whether a filter has 1 to 65,536 bytes.
fn fits(bytes: usize) -> bool
    ensures { (result ≡ Bloom.fits bytes) × (result ≡ true → (0 < bytes) × (bytes ≤ max_filter)) }
{
    (1 <= bytes) & (bytes <= MAX_FILTER)
}

// Whether all four bits of a trip id are set.
pub fn query(bits: &[u8], id: &[u8]) -> Result<bool, Refusal>
    ensures { result ≡ Bloom.query bits.now id.now }
{
    if !fits(bits.len()) {
        return Err(Refusal::Argument);
    }
    let p = positions(crc32(0, id), bits.len());
    Ok(all_set(bits, &p))
}

// Sets the four bits of a trip id, and answers whether all were set before.
pub fn insert(bits: &mut [u8], id: &[u8]) -> Result<bool, Refusal>
    ensures { (result ≡ Bloom.insert_answer bits.old id.now) × (bits.new ≡ Bloom.inserted bits.old id.now) }
{
    if !fits(bits.len()) {
        return Err(Refusal::Argument);
    }
    let p = positions(crc32(0, id), bits.len());
    Ok(set_all(bits, &p))
}

// What holds of the filter, for every size. The function does nothing: its contract is what is proved of the definitions
// (specs/Claims.antt).
pub fn filter_holds()
    ensures { Claims }
{}
