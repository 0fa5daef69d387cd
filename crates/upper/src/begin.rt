// The upper layer's begin, which appends the key, and its close.
ghost use Rattle.std.specs.Prelude.{◌≡◌, ◌≤◌, ◌++◌, length, take, Err};
ghost use Rattle.key.specs.Layout as Key;
ghost use Rattle.lower.specs.Lower as Lower;
ghost use Rattle.run.specs.Run.{ran_writer, ran_region};
ghost use Rattle.run.specs.Appends as Appends;
ghost use Rattle.upper.specs.Upper as Upper;
ghost use Rattle.region.specs.Region.{region_size};

use crate::MAX_BODY;
use base::number::BYTE_VALUES;
use key::{IDENTITY_MARK, MAX_IDENTITY, PREFIX_SIZE};
use lower::begin::started;
use lower::{is_open, may_append};
use refusal::Refusal;
use region::REGION_SIZE;
use run::{append_all, flush};
use writer::{Answer, Step, Writer, did, stays};

// Appends the key's prefix, the identity.
fn append_prefix(w: Writer, region: &mut [u8], identity: &[u8]) -> Writer
    ensures { (result ≡ ran_writer region.old w (Appends.appends (Key.prefix identity.now))) × (region.new ≡ ran_region region.old w (Appends.appends (Key.prefix identity.now))) }
{
    let n = identity.len();
    if n == 0 {
        return w;
    }
    let mut head = [IDENTITY_MARK; PREFIX_SIZE];
    head[1] = (n % BYTE_VALUES) as u8;
    head[2] = (n / BYTE_VALUES % BYTE_VALUES) as u8;
    let v = append_all(w, region, &head);
    append_all(v, region, identity)
}

// The run of a beginning; the first n bytes are the key without its prefix.
fn run_begin(w: Writer, region: &mut [u8], identity: &[u8], bytes: &[u8], n: usize) -> Writer
    requires { n ≤ length bytes.now }
    ensures { (result ≡ ran_writer region.old w (Appends.appends (Key.prefix identity.now ++ take n bytes.now))) × (region.new ≡ ran_region region.old w (Appends.appends (Key.prefix identity.now ++ take n bytes.now))) }
{
    let body = &bytes[0..n];
    let v = append_prefix(w, region, identity);
    append_all(v, region, body)
}

// A refused beginning: every call refuses its state with 11.
fn refuse(comparing: bool, at: i64, x: Refusal) -> Step
    ensures { result ≡ record { answer = Err x; writer = Lower.started (Err x) comparing at } }
{
    let active = Err(x);
    let writer = started(active, comparing, at);
    let answer = Err(x);
    Step { answer, writer }
}

fn begin_in(
    region: &mut [u8],
    comparing: bool,
    at: i64,
    identity: &[u8],
    texts: &[u8],
    lengths: &[u32],
) -> Step
    requires { length region.old ≡ region_size }
    ensures { (result ≡ Upper.begin_step region.old comparing at identity.now texts.now lengths.now) × (region.new ≡ Upper.begin_region region.old comparing at identity.now texts.now lengths.now) }
{
    let none = &identity[0..0];
    let mut out = [0u8; MAX_BODY];
    let a = key::key(none, texts, lengths, &mut out);
    let Ok(n) = a else {
        return refuse(comparing, at, Refusal::Argument);
    };
    if MAX_IDENTITY < identity.len() {
        return refuse(comparing, at, Refusal::Identity);
    }
    let s = lower::begin::begin(region, comparing, at);
    let v = run_begin(s.writer, region, identity, &out, n);
    did(v)
}

// Begins an update on a region, and appends the key of an identity and picks.
pub fn begin(
    region: &mut [u8],
    comparing: bool,
    at: i64,
    identity: &[u8],
    texts: &[u8],
    lengths: &[u32],
) -> Step
    ensures { (result ≡ Upper.begin_step region.old comparing at identity.now texts.now lengths.now) × (region.new ≡ Upper.begin_region region.old comparing at identity.now texts.now lengths.now) }
{
    if region.len() != REGION_SIZE {
        return refuse(comparing, at, Refusal::Region);
    }
    begin_in(region, comparing, at, identity, texts, lengths)
}

// The run of a closing.
fn run_close(w: Writer, region: &mut [u8]) -> Writer
    ensures { (result ≡ ran_writer region.old w (Upper.run_of Upper.closing)) × (region.new ≡ ran_region region.old w (Upper.run_of Upper.closing)) }
{
    let v = flush(w, region);
    let k = lower::begin::close(v);
    flush(k.writer, region)
}

// Closes the update.
pub fn close(w: Writer, region: &mut [u8]) -> Step
    ensures { (result ≡ Upper.upper_step region.old w Upper.closing) × (region.new ≡ Upper.upper_region region.old w Upper.closing) }
{
    if region.len() != REGION_SIZE {
        return stays(w, Refusal::Region);
    }
    if !may_append(w) | is_open(w.tables) {
        return stays(w, Refusal::Turn);
    }
    let v = run_close(w, region);
    did(v)
}
