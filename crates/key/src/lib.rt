// The key of an identity and picks: its bytes, and whether a stored key equals it. Every public function accepts any input.
#![tactic(auto)]

mod matching;
mod picks;
mod write;

ghost use Rattle.key.specs.Claims.{Claims};
ghost use Rattle.std.specs.Prelude.{◌≡◌, ◌+◌, ◌*◌, length};
ghost use Rattle.key.specs.Picks.{passed_picks};
ghost use Rattle.key.specs.Layout.{key_of, fit, key_answer, after};
ghost use Rattle.key.specs.Match.{match_answer};

use matching::match_key;
use picks::{Picks, prepare};
use refusal::Refusal;
use write::write_key;

// The fields of a pick, the most picks and texts of a key, and the offsets that divide these texts.
pub const FIELDS: usize = 5;

pub const MAX_PICKS: usize = 16;

const LAST_FIELD: usize = FIELDS - 1;

const MAX_TEXTS: usize = MAX_PICKS * FIELDS;

const STARTS: usize = MAX_TEXTS + 1;

pub const MAX_IDENTITY: usize = 65535;

// The first byte of a key that has an identity, and how many bytes are before the identity.
pub const IDENTITY_MARK: u8 = 255;

pub const PREFIX_SIZE: usize = 3;

// The fields' numbers that the code names.
const CODE_FIELD: usize = 2;

const STOP_FIELD: usize = 3;

const NAME_FIELD: usize = LAST_FIELD;

// Whether there are at most 16 picks and each text is within its size.
pub fn picks_fit(texts: &[u8], lengths: &[u32]) -> bool
    ensures { result ≡ fit texts.now lengths.now }
{
    let mut starts: [usize; STARTS] = [0; STARTS];
    prepare(&texts[0..0], texts, lengths, &mut starts).is_ok()
}

// Writes the key of an identity and picks to out.
pub fn key(identity: &[u8], texts: &[u8], lengths: &[u32], out: &mut [u8]) -> Result<usize, Refusal>
    ensures { (result ≡ key_answer identity.now texts.now lengths.now (length out.old)) × (out.new ≡ after result (key_of identity.now (passed_picks texts.now lengths.now)) out.old) }
{
    let mut starts: [usize; STARTS] = [0; STARTS];
    let n = prepare(identity, texts, lengths, &mut starts)?;
    let end = n * FIELDS + 1;
    let starts = &starts[0..end];
    let picks = Picks { texts, starts, n };
    write_key(identity, &picks, out)
}

// Whether the stored key is the key of the identity and the picks.
pub fn same_key(
    stored: &[u8],
    identity: &[u8],
    texts: &[u8],
    lengths: &[u32],
) -> Result<bool, Refusal>
    ensures { result ≡ match_answer stored.now identity.now texts.now lengths.now }
{
    let mut starts: [usize; STARTS] = [0; STARTS];
    let n = prepare(identity, texts, lengths, &mut starts)?;
    let end = n * FIELDS + 1;
    let starts = &starts[0..end];
    let picks = Picks { texts, starts, n };
    Ok(match_key(stored, identity, &picks))
}

// What holds of keys. The function does nothing: its contract is what is proved of the definitions
// (specs/Claims.antt).
pub fn keys_hold()
    ensures { Claims }
{}
