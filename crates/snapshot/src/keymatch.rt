// Whether a loaded bank's key is the key of an identity and picks.
ghost use Rattle.std.specs.Prelude.{◌≡◌};
ghost use Rattle.snapshot.specs.KeyMatch as Keys;

use crate::header_if;
use base::slice::part;
use header::Bank;
use key::picks_fit;
use refusal::Refusal;
use region::{SECTOR_SIZE, bank_of};

// A bank's key: the first bytes of its data.
fn key_in(region: &[u8], b: Bank) -> &[u8]
    ensures { result.now ≡ Keys.key_in region.now b }
{
    let l = bank_of(region, b.number);
    part(l, SECTOR_SIZE, b.key as usize)
}

// Whether a bank's key is the key of an identity and picks.
pub fn same_key(
    region: &[u8],
    number: u32,
    identity: &[u8],
    texts: &[u8],
    lengths: &[u32],
) -> Result<bool, Refusal>
    ensures { result ≡ Keys.key_match_answer region.now number identity.now texts.now lengths.now }
{
    let fit = picks_fit(texts, lengths);
    let b = header_if(fit, region, number)?;
    let stored = key_in(region, b);
    key::same_key(stored, identity, texts, lengths)
}
