// A stored key compared with the key of an identity and picks, part by part; no key is built.
ghost use Rattle.std.specs.Prelude.{◌≡◌, [], ◌∷◌, ◌++◌, map, ◌%◌, ◌≤◌, ◌<◌, length};
ghost use Rattle.base.specs.Number.{byte_values};
ghost use Rattle.key.specs.Picks.{firsts};
ghost use Rattle.key.specs.Layout.{field as field_of, entry, joined, key_of, prefix, max_identity};
ghost use Rattle.base.specs.Same.{same};
ghost use Rattle.key.specs.Steps.{pick_in, Below, Left};

use crate::picks::Picks;
use crate::write::key_length;
use crate::{FIELDS, IDENTITY_MARK, MAX_PICKS};
use base::number::BYTE_VALUES;

// Each of these functions gives what is left of a stored key after the compared bytes, or None where they differ.

fn match_byte(stored: &[u8], b: u8) -> Option<&[u8]>
    ensures { Left stored.now (b ∷ []) result }
{
    stored.strip_prefix(&[b])
}

// A text after its length byte.
fn match_field<'a>(stored: &'a [u8], s: &[u8]) -> Option<&'a [u8]>
    ensures { Left stored.now (field_of s.now) result }
{
    match_byte(stored, (s.len() % BYTE_VALUES) as u8)?.strip_prefix(s)
}

fn match_pick<'a>(stored: &'a [u8], picks: &Picks, i: usize) -> Option<&'a [u8]>
    requires { i < picks.now.n }
    ensures { Left stored.now (entry (pick_in picks.now.texts.now picks.now.starts.now i)) result }
{
    let mut rest = stored;
    for f in 0..FIELDS {
        rest = match_field(rest, picks.field(i, f))?;
    }
    Some(rest)
}

fn match_picks<'a>(stored: &'a [u8], picks: &Picks, sorted: &[usize]) -> Option<&'a [u8]>
    requires { Below picks.now.n sorted.now }
    ensures { Left stored.now (joined entry (map (pick_in picks.now.texts.now picks.now.starts.now) sorted.now)) result }
{
    let mut rest = stored;
    for i in sorted {
        rest = match_pick(rest, picks, *i)?;
    }
    Some(rest)
}

fn match_prefix<'a>(stored: &'a [u8], identity: &[u8]) -> Option<&'a [u8]>
    ensures { Left stored.now (prefix identity.now) result }
{
    let n = identity.len();
    if n == 0 {
        return Some(stored);
    }
    let rest = match_byte(stored, IDENTITY_MARK)?;
    let rest = match_byte(rest, (n % BYTE_VALUES) as u8)?;
    let rest = match_byte(rest, (n / BYTE_VALUES % BYTE_VALUES) as u8)?;
    rest.strip_prefix(identity)
}

// The prefix, the count byte and the sorted picks.
fn match_parts<'a>(
    stored: &'a [u8],
    identity: &[u8],
    picks: &Picks,
    sorted: &[usize],
) -> Option<&'a [u8]>
    requires { Below picks.now.n sorted.now }
    ensures { Left stored.now (prefix identity.now ++ length sorted.now % byte_values ∷ joined entry (map (pick_in picks.now.texts.now picks.now.starts.now) sorted.now)) result }
{
    let rest = match_prefix(stored, identity)?;
    let rest = match_byte(rest, (sorted.len() % BYTE_VALUES) as u8)?;
    match_picks(rest, picks, sorted)
}

// Whether the stored key is the key of an identity and the picks. A key of another length is told by that alone.
pub(crate) fn match_key(stored: &[u8], identity: &[u8], picks: &Picks) -> bool
    requires { length identity.now ≤ max_identity }
    ensures { result ≡ same stored.now (key_of identity.now (firsts picks.now.n (pick_in picks.now.texts.now picks.now.starts.now))) }
{
    let mut order: [usize; MAX_PICKS] = [0; MAX_PICKS];
    let m = picks.sort(&mut order);
    let sorted = &order[0..m];
    if stored.len() != key_length(identity, picks, sorted) {
        return false;
    }
    match_parts(stored, identity, picks, sorted).is_some()
}
