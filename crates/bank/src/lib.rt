// The banks of a region: validate, load, and data checking in turns.
#![tactic(auto)]

pub mod turns;

ghost use Rattle.std.specs.Prelude.{◌≡◌, ◌-◌, ◌≤◌, length};
ghost use Rattle.region.specs.Region.{last_bank};
ghost use Rattle.bank.specs.Bank as Banks;

use base::slice::part;
use header::{Bank, GENERATION_OFFSET, header_of};
use leaf::bytes::get;
use leaf::crc::crc32;
use leaf::generation::newer;
use refusal::Refusal;
use region::{LAST_BANK, REGION_SIZE, SECTOR_SIZE, bank_of};

// Tests a bank that a call names by number: 1, 2, then 3 to 6.
pub fn header(region: &[u8], number: u32) -> Result<Bank, Refusal>
    ensures { result ≡ Banks.named region.now number }
{
    if region.len() != REGION_SIZE {
        Err(Refusal::Region)
    } else if LAST_BANK < number {
        Err(Refusal::Argument)
    } else {
        header_of(bank_of(region, number), number)
    }
}

// A bank's data.
fn data_in(region: &[u8], b: Bank) -> &[u8]
    ensures { result.now ≡ Banks.data_in region.now b }
{
    let l = bank_of(region, b.number);
    part(l, SECTOR_SIZE, b.length as usize)
}

fn data_ok(region: &[u8], b: Bank) -> bool
    ensures { result ≡ Banks.data_ok region.now b }
{
    let d = data_in(region, b);
    crc32(0, d) == b.crc
}

// Tests a bank's header and data: 1, 2, then 3 to 7.
pub fn validate(region: &[u8], number: u32) -> Result<Bank, Refusal>
    ensures { result ≡ Banks.validated region.now number }
{
    let b = header(region, number)?;
    if data_ok(region, b) {
        Ok(b)
    } else {
        Err(Refusal::Data)
    }
}

fn generation(region: &[u8], number: u32) -> u32
    ensures { result ≡ Banks.generation region.now number }
{
    let l = bank_of(region, number);
    get(l, GENERATION_OFFSET)
}

fn first_tried(region: &[u8]) -> u32
    ensures { (result ≡ Banks.first_tried region.now) × (result ≤ last_bank) }
{
    if newer(generation(region, LAST_BANK), generation(region, 0)) {
        LAST_BANK
    } else {
        0
    }
}

// The bank to use: the first that passes.
pub fn load(region: &[u8]) -> Result<Option<Bank>, Refusal>
    ensures { result ≡ Banks.loaded region.now }
{
    if region.len() != REGION_SIZE {
        return Err(Refusal::Region);
    }
    let first = first_tried(region);
    if let Ok(b) = validate(region, first) {
        return Ok(Some(b));
    }
    if let Ok(other) = validate(region, LAST_BANK - first) {
        return Ok(Some(other));
    }
    Ok(None)
}
