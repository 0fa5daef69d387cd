// The key's bytes: how many they are, and written into a buffer.
ghost use Rattle.std.specs.Prelude.{◌≡◌, map, ◌+◌, ◌≤◌, ◌<◌, length};
ghost use Rattle.leaf.specs.Bytes.{written};
ghost use Rattle.key.specs.Picks.{firsts};
ghost use Rattle.key.specs.Layout.{field as field_of, entry, joined, key_of, prefix, max_identity, prefix_size, within, after, max_picks};
ghost use Rattle.key.specs.Steps.{pick_in, Below, Small};

use crate::picks::Picks;
use crate::{FIELDS, IDENTITY_MARK, MAX_PICKS, PREFIX_SIZE};
use base::number::BYTE_VALUES;
use refusal::Refusal;

fn prefix_length(identity: &[u8]) -> usize
    requires { length identity.now ≤ max_identity }
    ensures { (result ≡ length (prefix identity.now)) × (result ≤ max_identity + prefix_size) }
{
    let n = identity.len();
    if n == 0 {
        return 0;
    }
    n + PREFIX_SIZE
}

// How many bytes the key of an identity and the sorted picks has.
pub(crate) fn key_length(identity: &[u8], picks: &Picks, sorted: &[usize]) -> usize
    requires { Below picks.now.n sorted.now × (length sorted.now ≤ max_picks) × (length identity.now ≤ max_identity) }
    ensures { result ≡ length (prefix identity.now) + 1 + length (joined entry (map (pick_in picks.now.texts.now picks.now.starts.now) sorted.now)) }
{
    prefix_length(identity) + 1 + picks.entries_length(sorted)
}

// Copies s to out at an offset, byte by byte: copy_from_slice would be a call of C's memmove, which the archive doesn't need otherwise.
fn put_bytes(out: &mut [u8], at: usize, s: &[u8])
    requires { at + length s.now ≤ length out.old }
    ensures { out.new ≡ written out.old at s.now }
{
    for (i, b) in s.iter().enumerate() {
        out[at + i] = *b;
    }
}

// Writes a text after its length byte.
fn put_field(out: &mut [u8], at: usize, s: &[u8])
    requires { at + length (field_of s.now) ≤ length out.old }
    ensures { out.new ≡ written out.old at (field_of s.now) }
{
    out[at] = (s.len() % BYTE_VALUES) as u8;
    put_bytes(out, at + 1, s);
}

// Writes pick i; gives the offset after it.
fn put_pick(out: &mut [u8], at: usize, picks: &Picks, i: usize) -> usize
    requires { (i < picks.now.n) × (at + length (entry (pick_in picks.now.texts.now picks.now.starts.now i)) ≤ length out.old) }
    ensures { (result ≡ at + length (entry (pick_in picks.now.texts.now picks.now.starts.now i))) × (out.new ≡ written out.old at (entry (pick_in picks.now.texts.now picks.now.starts.now i))) }
{
    let mut to = at;
    for f in 0..FIELDS {
        let t = picks.field(i, f);
        put_field(out, to, t);
        to = to + 1 + t.len();
    }
    to
}

// Writes the sorted picks.
fn put_picks(out: &mut [u8], at: usize, picks: &Picks, sorted: &[usize])
    requires { Below picks.now.n sorted.now × (at + length (joined entry (map (pick_in picks.now.texts.now picks.now.starts.now) sorted.now)) ≤ length out.old) }
    ensures { out.new ≡ written out.old at (joined entry (map (pick_in picks.now.texts.now picks.now.starts.now) sorted.now)) }
{
    let mut to = at;
    for i in sorted {
        to = put_pick(out, to, picks, *i);
    }
}

// Writes the identity's prefix; gives the offset after it.
fn put_prefix(out: &mut [u8], identity: &[u8]) -> usize
    requires { length (prefix identity.now) ≤ length out.old }
    ensures { (result ≡ length (prefix identity.now)) × (out.new ≡ written out.old 0 (prefix identity.now)) }
{
    let n = identity.len();
    if n == 0 {
        return 0;
    }
    out[0] = IDENTITY_MARK;
    out[1] = (n % BYTE_VALUES) as u8;
    out[2] = (n / BYTE_VALUES % BYTE_VALUES) as u8;
    put_bytes(out, PREFIX_SIZE, identity);
    n + PREFIX_SIZE
}

// Writes the key of an identity and the picks, if out has the capacity.
pub(crate) fn write_key(identity: &[u8], picks: &Picks, out: &mut [u8]) -> Result<usize, Refusal>
    requires { length identity.now ≤ max_identity }
    ensures { (result ≡ within (length out.old) (key_of identity.now (firsts picks.now.n (pick_in picks.now.texts.now picks.now.starts.now)))) × (out.new ≡ after result (key_of identity.now (firsts picks.now.n (pick_in picks.now.texts.now picks.now.starts.now))) out.old) }
{
    let mut order: [usize; MAX_PICKS] = [0; MAX_PICKS];
    let m = picks.sort(&mut order);
    let sorted = &order[0..m];
    let total = key_length(identity, picks, sorted);
    if out.len() < total {
        return Err(Refusal::Small);
    }
    let at = put_prefix(out, identity);
    out[at] = (m % BYTE_VALUES) as u8;
    put_picks(out, at + 1, picks, sorted);
    Ok(total)
}
