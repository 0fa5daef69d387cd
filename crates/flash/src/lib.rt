// The two flash operations on a bank of a lent region.
#![tactic(auto)]

ghost use Rattle.std.specs.Prelude.{◌≡◌, true, ◌+◌, ◌≤◌, length};
ghost use Rattle.flash.specs.Flash.{clear, within, erased_in, written_in};
ghost use Rattle.flash.specs.Claims.{Claims};
ghost use Rattle.region.specs.Region.{region_size, bank_size, last_bank};

use region::{BANK_SIZE, ERASED_BYTE, LAST_BANK, REGION_SIZE, SECTOR_SIZE};

// Whether n bytes at an offset of a bank are inside it, in a region of len bytes.
fn lies_within(len: usize, bank: u32, at: usize, n: usize) -> bool
    ensures { (result ≡ within len bank at n) × (result ≡ true → (len ≡ region_size) × (bank ≤ last_bank) × (at + n ≤ bank_size)) }
{
    if len != REGION_SIZE {
        return false;
    }
    if LAST_BANK < bank {
        return false;
    }
    if BANK_SIZE < n {
        return false;
    }
    at <= BANK_SIZE - n
}

// Clears the bits of s that are 0 in ws.
fn clear_bits(s: &mut [u8], ws: &[u8])
    requires { length s.old ≡ length ws.now }
    ensures { s.new ≡ clear ws.now s.old }
{
    for (i, x) in s.iter_mut().enumerate() {
        *x &= ws[i];
    }
}

// Erases the sector at an offset of a bank, if it is inside; otherwise nothing changes.
pub fn erase(region: &mut [u8], bank: u32, at: usize)
    ensures { region.new ≡ erased_in region.old bank at }
{
    if lies_within(region.len(), bank, at, SECTOR_SIZE) {
        let sector = bank as usize * BANK_SIZE + at;
        let end = sector + SECTOR_SIZE;
        region[sector..end].fill(ERASED_BYTE);
    }
}

// Writes bytes at an offset of a bank, if they fit; otherwise nothing changes.
pub fn write(region: &mut [u8], bank: u32, at: usize, bytes: &[u8])
    ensures { region.new ≡ written_in region.old bank at bytes.now }
{
    if lies_within(region.len(), bank, at, bytes.len()) {
        let from = bank as usize * BANK_SIZE + at;
        let end = from + bytes.len();
        clear_bits(&mut region[from..end], bytes);
    }
}

// What holds of operations, whole and cut. The function does nothing: its contract is what is proved of the definitions (specs/Claims.antt).
pub fn flash_holds()
    ensures { Claims }
{}
