// Calls on a loaded bank. Each names it by number and tests it again.
#![tactic(auto)]

pub mod freshness;
pub mod keymatch;
pub mod rows;
pub mod source;

ghost use Rattle.std.specs.Prelude.{◌≡◌};
ghost use Rattle.snapshot.specs.Freshness as Fresh;

use bank::header;
use header::Bank;
use refusal::Refusal;
use region::REGION_SIZE;

// Tests a bank as `bank::header` does; `fits` says whether the call's other arguments pass 2.
fn header_if(fits: bool, region: &[u8], number: u32) -> Result<Bank, Refusal>
    ensures { result ≡ Fresh.named_if fits region.now number }
{
    if fits {
        return header(region, number);
    }
    if region.len() != REGION_SIZE {
        return Err(Refusal::Region);
    }
    Err(Refusal::Argument)
}
