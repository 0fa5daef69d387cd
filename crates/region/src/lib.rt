// The region: two banks, each a header sector and data. Its sizes, and a bank's bytes.
#![tactic(auto)]

ghost use Rattle.std.specs.Prelude.{◌≡◌};
ghost use Rattle.region.specs.Region.{bank_of};

use base::slice::part;

pub const SECTOR_SIZE: usize = 4096;
// The most data bytes of a bank.
pub const CAPACITY: usize = 487424;

pub const BANKS: usize = 2;

pub const BANK_SIZE: usize = SECTOR_SIZE + CAPACITY;

pub const REGION_SIZE: usize = BANKS * BANK_SIZE;

// The same in other widths.
pub const SECTOR_SIZE_32: u32 = SECTOR_SIZE as u32;

pub const CAPACITY_32: u32 = CAPACITY as u32;

pub const CAPACITY_64: u64 = CAPACITY as u64;

// Banks 0 and 1.
pub const LAST_BANK: u32 = BANKS as u32 - 1;

// A byte of an erased sector.
pub const ERASED_BYTE: u8 = 255;

// A write has a multiple of this many bytes.
pub const WRITE_UNIT: usize = 4;

// A bank's bytes.
pub fn bank_of(region: &[u8], number: u32) -> &[u8]
    ensures { result.now ≡ bank_of region.now number }
{
    part(region, number as usize * BANK_SIZE, BANK_SIZE)
}
