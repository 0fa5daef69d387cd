// The CRC's shift register, many bytes at a time.
//
// The first word has 1 to 8 bytes, so that whole words follow. A long input is folded: a multiple of the generator with few terms
// removes a 64-bit word and adds it, shifted, to words after it. The words that are left are read by digits of 7 bits with a table (`table`).
ghost use Rattle.std.specs.Prelude.{◌≡◌, ◌+◌, ◌-◌, ◌*◌, ◌%◌, ◌^◌, ◌≤◌, ◌<◌, length, take, drop};
ghost use Rattle.std.specs.Int.Bits.{bit_xor};
ghost use Rattle.base.specs.Little.{little, long_bytes};
ghost use Rattle.base.specs.Number.{byte_values, byte_bits, word_values, long_bits};
ghost use Rattle.checksum.specs.Register.{steps, run};
ghost use Rattle.checksum.specs.Pending.{after};
ghost use Rattle.checksum.specs.Words.{two, three, five};

use crate::table::{DIGIT_BITS, DIGIT_VALUES, DIGITS, digit_steps};
use base::number::{BYTE_BITS_32, LONG_BYTES, bytes_to_u64, u32_to_u64};

// The values of a nibble.
pub(crate) const NIBBLES: u32 = 16;

const LONG_BITS: u32 = 64;

// The bytes of 64-bit words.
const TWO_WORDS: usize = 2 * LONG_BYTES;

const FIVE_WORDS: usize = 5 * LONG_BYTES;

// The eight bytes at offset i as a little-endian number.
fn load(s: &[u8], i: usize) -> u64
    requires { i + long_bytes ≤ length s.now }
    ensures { result ≡ little (take long_bytes (drop i s.now)) }
{
    bytes_to_u64(
        s[i],
        s[i + 1],
        s[i + 2],
        s[i + 3],
        s[i + 4],
        s[i + 5],
        s[i + 6],
        s[i + 7],
    )
}

// 64 steps, digit by digit. Called at one place only, so that it is compiled in line.
fn steps64(x: u64) -> u32
    ensures { result ≡ steps long_bits x }
{
    let mut r: u32 = 0;
    for row in (0..DIGITS).rev() {
        r = r ^ digit_steps(row, ((x >> (DIGIT_BITS * row)) % DIGIT_VALUES) as u32);
    }
    r
}

// Each nibble after 4 steps, and after 8.
static AFTER_4: [u32; NIBBLES as usize] = [
    0, 498536548, 997073096, 651767980, 1994146192, 1802195444, 1303535960, 1342533948, 3988292384,
    4027552580, 3604390888, 3412177804, 2607071920, 2262029012, 2685067896, 3183342108,
];

static AFTER_8: [u32; NIBBLES as usize] = [
    0, 1996959894, 3993919788, 2567524794, 124634137, 1886057615, 3915621685, 2657392035,
    249268274, 2044508324, 3772115230, 2547177864, 162941995, 2125561021, 3887607047, 2428444049,
];

// The register after one byte.
fn byte(crc: u32, b: u8) -> u32
    ensures { result ≡ steps byte_bits (bit_xor crc (b % byte_values)) }
{
    let x = crc ^ u32::from(b);
    AFTER_8[(x % NIBBLES) as usize] ^ (AFTER_4[((x >> 4) % NIBBLES) as usize] ^ (x >> 8))
}

// The register after less than a word, byte by byte.
fn feed_bytes(crc: u32, s: &[u8]) -> u32
    ensures { result ≡ run crc s.now }
{
    let mut c = crc;
    for b in s {
        c = byte(c, *b);
    }
    c
}

// A word of the data folded into the three after it, by x^185 + x^93 + x^54 + x^46 + x^20 + x^19 + 1. The words are pending ones: what folds
// have added to the next words of the input.
fn fold_into_three(p: [u64; 3], w: u64) -> [u64; 3]
    ensures { steps (3 * long_bits) (three result) ≡ steps (4 * long_bits) (bit_xor (three p) w) }
{
    let x = p[0] ^ w;
    [
        p[1] ^ (x << 28),
        p[2] ^ ((x >> 36) ^ ((x << 3) ^ ((x << 11) ^ ((x << 37) ^ ((x << 38) ^ (x << 57)))))),
        (x >> 61) ^ ((x >> 53) ^ ((x >> 27) ^ ((x >> 26) ^ (x >> 7)))),
    ]
}

// A word of the data folded into the two after it, by x^120 + x^56 + x^40 + x^33 + x^15 + x^9 + x^8 + x + 1.
fn fold_into_two(p: [u64; 3], w: u64) -> [u64; 2]
    ensures { steps (2 * long_bits) (two result) ≡ steps (3 * long_bits) (bit_xor (three p) w) }
{
    let x = p[0] ^ w;
    [
        p[1] ^ (x
            ^ ((x << 16)
                ^ ((x << 23) ^ ((x << 41) ^ ((x << 47) ^ ((x << 48) ^ ((x << 55) ^ (x << 56)))))))),
        p[2] ^ ((x >> 48)
            ^ ((x >> 41) ^ ((x >> 23) ^ ((x >> 17) ^ ((x >> 16) ^ ((x >> 9) ^ (x >> 8))))))),
    ]
}

// A word of the data folded into the second to fifth after it, by x^300 + x^155 + x^117 + x^89 + 1.
fn fold_into_five(p: [u64; 5], w: u64) -> [u64; 5]
    ensures { steps (5 * long_bits) (five result) ≡ steps (6 * long_bits) (bit_xor (five p) w) }
{
    let x = p[0] ^ w;
    [
        p[1],
        p[2] ^ ((x << 17) ^ (x << 55)),
        p[3] ^ ((x >> 47) ^ ((x >> 9) ^ (x << 19))),
        p[4] ^ ((x >> 45) ^ (x << 44)),
        x >> 20,
    ]
}

// A state between words. The register after the bytes before offset `at` is 64 steps of `word`, with `added` added.
#[derive(Clone, Copy)]
struct Begun {
    word: u64,
    added: u64,
    at: usize,
}

// Pending words, and the offset of the first of them in the input.
#[derive(Clone, Copy)]
struct Pending<const N: usize> {
    words: [u64; N],
    at: usize,
}

// The first word: 1 to 8 bytes, so that whole words are left. Its bytes are shifted up, as if zeros were before them.
fn begin(crc: u32, s: &[u8]) -> Begun
    requires { long_bytes ≤ length s.now }
    ensures { (result.at ≤ long_bytes) × ((length s.now - result.at) % long_bytes ≡ 0) × (result.added < word_values) × (run (after result.word result.added) (drop result.at s.now) ≡ run crc s.now) }
{
    let at = (s.len() - 1) % LONG_BYTES + 1;
    let bits = BYTE_BITS_32 * (at as u32);
    let half_bits = bits / 2;
    let c = u32_to_u64(crc);
    Begun {
        word: (c ^ load(s, 0)) << (LONG_BITS - bits),
        added: (c >> half_bits) >> half_bits,
        at,
    }
}

// Folds two words at a time, until 40 to 55 bytes are left.
fn fold_all(b: Begun, s: &[u8]) -> Pending<5>
    requires long_bytes_in_bounds { b.at + 5 * long_bytes ≤ length s.now }
    requires long_bytes_value { (length s.now - b.at) % long_bytes ≡ 0 }
    requires added_lt_word_values { b.added < word_values }
    ensures { (result.at + 5 * long_bytes ≤ length s.now) × ((length s.now - result.at) % long_bytes ≡ 0) × (run (five result.words) (drop result.at s.now) ≡ run (after b.word b.added) (drop b.at s.now)) }
{
    let f = fold_into_five([b.word, 0, 0, 0, 0], 0);
    let mut p = [f[0] ^ b.added, f[1], f[2], f[3], f[4]];
    let (pairs, _) = s[b.at..s.len() - FIVE_WORDS].as_chunks::<TWO_WORDS>();
    for pair in pairs {
        let q = fold_into_five(p, load(pair, 0));
        p = fold_into_five(q, load(pair, LONG_BYTES));
    }
    Pending {
        words: p,
        at: b.at + TWO_WORDS * pairs.len(),
    }
}

// Folds two more words, into the three after them.
fn five_to_three(p: Pending<5>, s: &[u8]) -> Pending<3>
    requires { p.at + 5 * long_bytes ≤ length s.now }
    ensures { (result.at ≡ p.at + 2 * long_bytes) × (run (three result.words) (drop result.at s.now) ≡ run (five p.words) (drop p.at s.now)) }
{
    let Pending { words, at } = p;
    let q = fold_into_three([words[0], words[1], words[2]], load(s, at));
    let r = fold_into_three([q[0], q[1], q[2] ^ words[3]], load(s, at + LONG_BYTES));
    Pending {
        words: [r[0], r[1], r[2] ^ words[4]],
        at: at + TWO_WORDS,
    }
}

// Folds one more word into the two after it, of which the first is the word to go on with.
fn three_to_two(p: Pending<3>, s: &[u8]) -> Begun
    requires { p.at + 3 * long_bytes ≤ length s.now }
    ensures { (result.at ≡ p.at + 2 * long_bytes) × (run (after result.word result.added) (drop result.at s.now) ≡ run (three p.words) (drop p.at s.now)) }
{
    let at = p.at;
    let q = fold_into_two(p.words, load(s, at));
    Begun {
        word: q[0] ^ load(s, at + LONG_BYTES),
        added: q[1],
        at: at + TWO_WORDS,
    }
}

// Folds a long input, until two or three words are left. A short one is left as it is.
fn fold_long(b: Begun, s: &[u8]) -> Begun
    requires at_le_long_bytes { (b.at ≤ long_bytes) × (b.at ≤ length s.now) }
    requires long_bytes_value { (length s.now - b.at) % long_bytes ≡ 0 }
    requires added_lt_word_values { b.added < word_values }
    ensures { (result.at ≤ length s.now) × ((length s.now - result.at) % long_bytes ≡ 0) × (result.at ≡ length s.now → result.added < word_values) × (run (after result.word result.added) (drop result.at s.now) ≡ run (after b.word b.added) (drop b.at s.now)) }
{
    if s.len() <= FIVE_WORDS {
        return b;
    }
    three_to_two(five_to_three(fold_all(b, s), s), s)
}

// Reads the words that are left by the table.
fn finish(b: Begun, s: &[u8]) -> u32
    requires at_in_bounds { b.at ≤ length s.now }
    requires long_bytes_value { (length s.now - b.at) % long_bytes ≡ 0 }
    requires added_lt_word_values { b.at ≡ length s.now → b.added < word_values }
    ensures { result ≡ run (after b.word b.added) (drop b.at s.now) }
{
    let (words, _) = s[b.at..].as_chunks::<LONG_BYTES>();
    let mut left = words.iter();
    let mut c: u32 = 0;
    let mut word = b.word;
    let mut added = b.added;
    loop {
        c = steps64(word ^ u64::from(c));
        let Some(next) = left.next() else {
            return c ^ (added as u32);
        };
        word = load(next, 0) ^ added;
        added = 0;
    }
}

// The register after some bytes.
pub fn feed(crc: u32, bytes: &[u8]) -> u32
    ensures { result ≡ run crc bytes.now }
{
    if bytes.len() < LONG_BYTES {
        return feed_bytes(crc, bytes);
    }
    finish(fold_long(begin(crc, bytes), bytes), bytes)
}
