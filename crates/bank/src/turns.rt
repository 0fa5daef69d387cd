// Data checking in turns.
ghost use Rattle.bank.specs.Claims.{Claims};
ghost use Rattle.std.specs.Prelude.{◌≡◌, ◌+◌, ◌-◌, ◌≤◌, length, min};
ghost use Rattle.bank.specs.Turns as Turns;

use crate::{data_in, header};
use base::slice::part;
use header::{Bank, header_of};
use leaf::crc::crc32;
use refusal::Refusal;
use region::{CAPACITY_32, LAST_BANK, REGION_SIZE, bank_of};

// A number of no bank.
pub const NO_BANK: u32 = 255;

// The state of data checking on a bank.
#[derive(Clone, Copy)]
pub struct Checking {
    pub bank: u32,
    pub position: u32,
    pub crc: u32,
}

// A turn's answer: how many bytes it hashed, or the verdict.
#[derive(Clone, Copy)]
pub enum Progress {
    Hashed(u32),
    Yes,
}

#[derive(Clone, Copy)]
pub struct Turn {
    pub progress: Result<Progress, Refusal>,
    pub next: Checking,
}

// Begins data checking on a bank.
pub fn check_start(region: &[u8], number: u32) -> Turn
    ensures { result ≡ Turns.started region.now number }
{
    let h = header(region, number);
    match h {
        Ok(_) => stays(
            Checking {
                bank: number,
                position: 0,
                crc: 0,
            },
            Ok(Progress::Hashed(0)),
        ),
        Err(r) => stays(
            Checking {
                bank: NO_BANK,
                position: 0,
                crc: 0,
            },
            Err(r),
        ),
    }
}

// Hashes the next bytes.
fn hashed(region: &[u8], b: Bank, s: Checking, n: u32) -> Turn
    requires { s.position ≤ b.length }
    ensures { result ≡ Turns.hashed region.now b s n }
{
    let count = n.min(b.length - s.position);
    let d = data_in(region, b);
    let p = part(d, s.position as usize, count as usize);
    let crc = crc32(s.crc, p);
    let next = Checking {
        bank: s.bank,
        position: s.position + count,
        crc,
    };
    stays(next, Ok(Progress::Hashed(count)))
}

fn on_bank(region: &[u8], b: Bank, s: Checking, n: u32) -> Turn
    ensures { result ≡ Turns.on_bank region.now b s n }
{
    if b.length < s.position {
        return stays(s, Err(Refusal::Turn));
    }
    if s.position == b.length {
        if s.crc == b.crc {
            return stays(s, Ok(Progress::Yes));
        }
        return stays(s, Err(Refusal::Data));
    }
    hashed(region, b, s, n)
}

// A turn of data checking, given n bytes.
pub fn check_turn(region: &[u8], s: Checking, n: u32) -> Turn
    ensures { result ≡ Turns.turned region.now s n }
{
    if region.len() != REGION_SIZE {
        return stays(s, Err(Refusal::Region));
    }
    if !((s.bank <= LAST_BANK) & (s.position <= CAPACITY_32)) {
        return stays(s, Err(Refusal::Turn));
    }
    let l = bank_of(region, s.bank);
    let h = header_of(l, s.bank);
    match h {
        Ok(b) => on_bank(region, b, s, n),
        Err(r) => stays(s, Err(r)),
    }
}

fn stays(s: Checking, p: Result<Progress, Refusal>) -> Turn
    ensures { result ≡ Turns.stays s p }
{
    Turn {
        progress: p,
        next: s,
    }
}

// What holds of data checking in turns. The function does nothing: its contract is what is proved of the definitions
// (specs/Claims.antt).
pub fn turns_hold()
    ensures { Claims }
{}
