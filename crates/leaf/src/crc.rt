// CRC-32 of IEEE 802.3.
ghost use Rattle.leaf.specs.Claims.{Crc};
ghost use Rattle.leaf.specs.CrcParts.{CrcParts};
ghost use Rattle.std.specs.Prelude.{◌≡◌};
ghost use Rattle.leaf.specs.Crc as Crc;

use checksum::pair::{Both, feed_both};

// The CRC of bytes that follow others whose CRC is start, 0 for none.
pub fn crc32(start: u32, bytes: &[u8]) -> u32
    ensures { result ≡ Crc.crc32 start bytes.now }
{
    !checksum::register::feed(!start, bytes)
}

// The CRCs of the same bytes after others whose CRC is a, and after others whose CRC is b.
pub fn crc32_both(a: u32, b: u32, bytes: &[u8]) -> Both
    ensures { (result.a ≡ Crc.crc32 a bytes.now) × (result.b ≡ Crc.crc32 b bytes.now) }
{
    let r = feed_both(!a, !b, bytes);
    Both { a: !r.a, b: !r.b }
}

// What holds of the CRC. The function does nothing: its contract is what is proved of the definitions
// (specs/Claims.antt).
pub fn crc_holds()
    ensures { Crc }
{}

// What holds of the CRC of bytes that are fed in parts. The function does nothing: its contract is what is proved of the
// definitions (specs/CrcParts.antt).
pub fn crc_parts_hold()
    ensures { CrcParts }
{}
