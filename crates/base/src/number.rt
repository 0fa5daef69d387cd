// Operations on numbers, by std's. Wrong programs of each are kept (must-fail), so each is a function of its own; new code may as well call std.
ghost use Rattle.std.specs.Prelude.{◌≡◌, [], ◌∷◌, ◌<◌};
ghost use Rattle.std.specs.Int.Signed.{le_z, lt_z};
ghost use Rattle.base.specs.Little.{little};
ghost use Rattle.base.specs.Number.{byte_values, word_values, rotation, rotate_left32};

// How many values a byte has.
pub const BYTE_VALUES: usize = 256;

pub const BYTE_VALUES_32: u32 = BYTE_VALUES as u32;

// The bits of a byte, and of a word.
pub const BYTE_BITS: usize = 8;

pub const BYTE_BITS_32: u32 = BYTE_BITS as u32;

pub const WORD_BITS: u32 = 32;

// The bytes of a 64-bit number.
pub const LONG_BYTES: usize = 8;

// What each byte of a 32-bit number but the first counts.
pub const SECOND_BYTE: u32 = BYTE_VALUES_32;

pub const THIRD_BYTE: u32 = SECOND_BYTE * BYTE_VALUES_32;

pub const FOURTH_BYTE: u32 = THIRD_BYTE * BYTE_VALUES_32;

// How many values a 32-bit number has: what the upper half of a 64-bit one counts.
pub const WORD_VALUES: u64 = 4294967296;

// The lowest 64-bit number that is negative if read as signed.
pub const SIGN_BIT: u64 = 9223372036854775808;

// By how many bits the core rotates.
const ROTATION: u32 = 13;

// A byte as a 32-bit number.
pub fn u8_to_u32(x: u8) -> u32
    ensures { (result ≡ x) × (result < byte_values) }
{
    u32::from(x)
}

// A byte as a 64-bit number.
pub fn u8_to_u64(x: u8) -> u64
    ensures { (result ≡ x) × (result < byte_values) }
{
    u64::from(x)
}

// Eight bytes as one little-endian number. It is one load where they are next to each other.
pub fn bytes_to_u64(a: u8, b: u8, c: u8, d: u8, e: u8, f: u8, g: u8, h: u8) -> u64
    ensures { result ≡ little (a ∷ b ∷ c ∷ d ∷ e ∷ f ∷ g ∷ h ∷ []) }
{
    u64::from_le_bytes([a, b, c, d, e, f, g, h])
}

// A 32-bit number as a 64-bit one.
pub fn u32_to_u64(n: u32) -> u64
    ensures { (result ≡ n) × (result < word_values) }
{
    u64::from(n)
}

// a is at most b, signed.
pub fn le(a: i64, b: i64) -> bool
    ensures { result ≡ le_z a b }
{
    a <= b
}

// a is below b, signed.
pub fn lt(a: i64, b: i64) -> bool
    ensures { result ≡ lt_z a b }
{
    a < b
}

// x rotated left by 13 bits.
pub fn rotate13(x: u32) -> u32
    ensures { result ≡ rotate_left32 rotation x }
{
    x.rotate_left(ROTATION)
}
