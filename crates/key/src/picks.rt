// Picks: their texts cut at the lengths and tested, their order, and the distinct ones sorted.
ghost use Rattle.std.specs.Prelude.{◌≡◌, true, [], map, ◌+◌, ◌-◌, ◌*◌, ◌≤◌, ◌<◌, length, take, get_or};
ghost use Rattle.key.specs.Order.{text_order, pick_order, field_count};
ghost use Rattle.key.specs.Picks.{firsts, insert, distinct};
ghost use Rattle.key.specs.Layout.{sized, every, entry, joined, max_picks, longest_entry};
ghost use Rattle.key.specs.Steps.{answer_of, Offsets, Rising, between, pick_in, Goes, Ordered, Below, Small, Prepares, starts_size};

use crate::{CODE_FIELD, FIELDS, LAST_FIELD, MAX_IDENTITY, MAX_TEXTS, NAME_FIELD, STOP_FIELD};
use refusal::Refusal;
use std::cmp::Ordering;

const SIZES: [usize; FIELDS] = [8, 32, 16, 32, 64];

// A text of more bytes than SHORT is compared byte by byte up to byte LAST_SINGLE, and by std's cmp from there on: in groups, but by a call.
const SHORT: usize = 16;

const LAST_SINGLE: usize = 3;

// Bytewise order of what is left of two texts. Cold: few picks get here, and LLVM keeps the fields' loop unrolled.
#[cold]
#[inline(never)]
fn rests_order(a: &[u8], b: &[u8]) -> Ordering
    ensures { result ≡ answer_of (text_order a.now b.now) }
{
    a.cmp(b)
}

// Bytewise order.
#[inline(always)]
fn order(a: &[u8], b: &[u8]) -> Ordering
    ensures { result ≡ answer_of (text_order a.now b.now) }
{
    for i in 0..a.len() {
        if b.len() <= i {
            return Ordering::Greater;
        }
        if a[i] < b[i] {
            return Ordering::Less;
        }
        if b[i] < a[i] {
            return Ordering::Greater;
        }
        if i == LAST_SINGLE && SHORT < a.len() {
            return rests_order(&a[i + 1..], &b[i + 1..]);
        }
    }
    if a.len() < b.len() {
        return Ordering::Less;
    }
    Ordering::Equal
}

// The offsets of texts 0 to m: each after the texts before it, at most the end.
fn offsets_of(texts: &[u8], lengths: &[u32], m: usize, starts: &mut [usize])
    requires { m < length starts.old }
    ensures { Offsets texts.now lengths.now m starts.new }
{
    let mut at: usize = 0;
    for i in 0..m + 1 {
        starts[i] = at;
        let n = lengths.get(i).copied().unwrap_or(0) as usize;
        at += n.min(texts.len() - at);
    }
}

// Text k: the bytes between two offsets.
fn text<'a, 'b>(texts: &'a [u8], starts: &'b [usize], k: usize) -> &'a [u8]
    requires { Rising starts.now (length texts.now) × (k + 1 < length starts.now) }
    ensures { result.now ≡ between texts.now starts.now k }
{
    let from = starts[k];
    let to = starts[k + 1];
    &texts[from..to]
}

// Whether every text is within its size.
fn sizes_fit(texts: &[u8], starts: &[usize], m: usize) -> bool
    requires { Rising starts.now (length texts.now) × (m + 1 ≡ length starts.now) }
    ensures { result ≡ every m (sized (between texts.now starts.now)) }
{
    for k in 0..m {
        let t = text(texts, starts, k);
        if SIZES[k % FIELDS] < t.len() {
            return false;
        }
    }
    true
}

// Picks that are ready: their texts, cut at the offsets, and how many picks there are. Each text is within its size.
#[derive(Clone, Copy)]
pub(crate) struct Picks<'a> {
    pub(crate) texts: &'a [u8],
    pub(crate) starts: &'a [usize],
    pub(crate) n: usize,
    ghost rises: { Rising starts.now (length texts.now) },
    ghost long: { n * field_count < length starts.now },
    ghost few: { n ≤ max_picks },
    ghost small: { Small (pick_in texts.now starts.now) n },
}

impl<'a> Picks<'a> {
    // Field f of pick i, as the key has it.
    pub(crate) fn field(&self, i: usize, f: usize) -> &'a [u8]
        requires { (i < self.now.n) × (f < field_count) }
        ensures { result.now ≡ get_or (pick_in self.now.texts.now self.now.starts.now i) f [] }
    {
        let first = i * FIELDS;
        if f < NAME_FIELD {
            return text(self.texts, self.starts, first + f);
        }
        let code = text(self.texts, self.starts, first + CODE_FIELD);
        if 0 < code.len() {
            return &self.texts[0..0];
        }
        text(self.texts, self.starts, first + NAME_FIELD)
    }

    // The order of two picks. The name stands apart: so the loop asks of no field whether it is the name.
    fn order(&self, i: usize, j: usize) -> Ordering
        requires { (i < self.now.n) × (j < self.now.n) }
        ensures { result ≡ answer_of (pick_order (pick_in self.now.texts.now self.now.starts.now i) (pick_in self.now.texts.now self.now.starts.now j)) }
    {
        for f in 0..NAME_FIELD {
            let a = self.field(i, f);
            let b = self.field(j, f);
            let o = order(a, b);
            if o.is_ne() {
                return o;
            }
        }
        let a = self.field(i, NAME_FIELD);
        let b = self.field(j, NAME_FIELD);
        order(a, b)
    }

    // The index at which pick i is inserted among the sorted ones, None if it is among them.
    fn index_of(&self, sorted: &[usize], i: usize) -> Option<usize>
        requires { (i < self.now.n) × Below self.now.n sorted.now }
        ensures { Goes (pick_in self.now.texts.now self.now.starts.now i) (map (pick_in self.now.texts.now self.now.starts.now) sorted.now) result }
    {
        for (k, j) in sorted.iter().enumerate() {
            match self.order(i, *j) {
                Ordering::Less => return Some(k),
                Ordering::Equal => return None,
                Ordering::Greater => {}
            }
        }
        Some(sorted.len())
    }

    // Inserts pick i among the m sorted ones, unless it is there; gives how many they are then.
    // By hand, no plainer by std: its sort calls a closure with any index, `order` takes a pick's; and equal picks would go in a second pass.
    fn insert(&self, order: &mut [usize], m: usize, i: usize) -> usize
        requires { (i < self.now.n) × (m < length order.old) × Below self.now.n (take m order.old) }
        ensures { (result ≤ m + 1) × Ordered (pick_in self.now.texts.now self.now.starts.now) self.now.n (insert (pick_in self.now.texts.now self.now.starts.now i) (map (pick_in self.now.texts.now self.now.starts.now) (take m order.old))) order.new result }
    {
        let Some(k) = self.index_of(&order[0..m], i) else {
            return m;
        };
        order.copy_within(k..m, k + 1);
        order[k] = i;
        m + 1
    }

    // Writes the indices of the distinct picks to `order`, sorted; gives how many they are.
    pub(crate) fn sort(&self, order: &mut [usize]) -> usize
        requires { self.now.n ≤ length order.old }
        ensures { (result ≤ self.now.n) × Ordered (pick_in self.now.texts.now self.now.starts.now) self.now.n (distinct (firsts self.now.n (pick_in self.now.texts.now self.now.starts.now))) order.new result }
    {
        let mut m: usize = 0;
        for i in (0..self.n).rev() {
            m = self.insert(order, m, i);
        }
        m
    }

    // How many bytes pick i has in the key. If it has a code, the name is left out.
    fn entry_length(&self, i: usize) -> usize
        requires { i < self.now.n }
        ensures { result ≡ length (entry (pick_in self.now.texts.now self.now.starts.now i)) }
    {
        let first = i * FIELDS;
        let from = self.starts[first];
        let code = self.starts[first + CODE_FIELD];
        let stop = self.starts[first + STOP_FIELD];
        let name = self.starts[first + NAME_FIELD];
        let end = self.starts[first + FIELDS];
        if code < stop {
            return name - from + FIELDS;
        }
        end - from + FIELDS
    }

    // How many bytes the sorted picks have.
    pub(crate) fn entries_length(&self, sorted: &[usize]) -> usize
        requires { Below self.now.n sorted.now × (length sorted.now ≤ max_picks) }
        ensures { (result ≡ length (joined entry (map (pick_in self.now.texts.now self.now.starts.now) sorted.now))) × (result ≤ longest_entry * max_picks) }
    {
        let mut bytes: usize = 0;
        for i in sorted {
            bytes += self.entry_length(*i);
        }
        bytes
    }
}

// Cuts the texts at their lengths and tests them and the identity: refusals 2 and 8.
pub(crate) fn prepare(
    identity: &[u8],
    texts: &[u8],
    lengths: &[u32],
    starts: &mut [usize],
) -> Result<usize, Refusal>
    requires { length starts.old ≡ starts_size }
    ensures { Prepares identity.now texts.now lengths.now starts.new result }
{
    if MAX_TEXTS < lengths.len() {
        return Err(Refusal::Argument);
    }
    let n = (lengths.len() + LAST_FIELD) / FIELDS;
    let m = n * FIELDS;
    offsets_of(texts, lengths, m, starts);
    let end = m + 1;
    if !sizes_fit(texts, &starts[0..end], m) {
        return Err(Refusal::Argument);
    }
    if MAX_IDENTITY < identity.len() {
        return Err(Refusal::Identity);
    }
    Ok(n)
}
