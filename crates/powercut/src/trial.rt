// One update, cut between its flash operations and inside them.
use crate::data::key_length;
use crate::kinds::{Kind, Leftover};
use crate::leftover::{number_after, start};
use crate::scratch::{AFTER, BEFORE};
use crate::strips::{mark_at, put_mark};
use crate::torn::{Cut, Cuts, Span, are_tried, is_sampled as is_sampled_inside, is_tried};
use crate::update::{
    EVERY_OPERATION, MOST_CALLS, STAMP, Update, begin, is_over, next_operation, run, step,
};
use crate::{kinds, strips};
use bank::load;
use base::slice::part;
use header::Bank;
use leaf::bytes::get8;
use leaf::crc::crc32;
use program::bytes::{copy, put8};
use program::number::low32;
use program::output::Grouped;
use record::VERSION;
use refusal::Refusal;
use region::{REGION_SIZE, SECTOR_SIZE, bank_of};
use std::io;
use std::io::Write;
use std::num::{wrapping_add_u32, wrapping_add_usize, wrapping_sub_u32};

// The update is begun again after every 97th cut between operations, and after the last seven.
const AGAIN_EVERY: u32 = 97;

const LAST_CUTS: u32 = 7;
// Progress is shown at every 16th cut.
const SHOWN: u32 = 16;

// What is tried.
#[derive(Clone, Copy)]
pub struct Setting {
    pub leftover: Leftover,
    pub update: Kind,
    pub cuts: Cuts,
    pub progress: bool,
}

// What is tried, what load gave on the region found, and the bank that the update commits.
#[derive(Clone, Copy)]
pub struct Plan {
    pub setting: Setting,
    pub update: Kind,
    pub found: Result<Option<Bank>, Refusal>,
    pub fresh: Bank,
}

// How many cuts there were between operations and inside them, after how many load gave what was found and the new bank, after how many the
// update was begun again, and how many were wrong: the first of them at a cut, or, if byte isn't 0, in an operation after that many bytes.
#[derive(Clone, Copy)]
pub struct Count {
    pub cuts: u32,
    pub inside: u32,
    pub old: u32,
    pub new: u32,
    pub again: u32,
    pub wrong: u32,
    pub first: u32,
    pub byte: u32,
}

// No cuts yet.
pub fn none() -> Count {
    Count {
        cuts: 0,
        inside: 0,
        old: 0,
        new: 0,
        again: 0,
        wrong: 0,
        first: 0,
        byte: 0,
    }
}

// An update so far, and the count of its cuts.
#[derive(Clone, Copy)]
struct Tried {
    update: Update,
    count: Count,
}

// A step that was made: the operation that it did, if it did one, the update after it, and the count before.
#[derive(Clone, Copy)]
struct Step {
    span: Option<Span>,
    update: Update,
    count: Count,
}

// The result of a cut: whether it is right, whether the update is over, whether it was begun again.
#[derive(Clone, Copy)]
struct Outcome {
    right: bool,
    over: bool,
    again: bool,
}

fn generation_after(l: Result<Option<Bank>, Refusal>) -> u32 {
    match l {
        Ok(Some(b)) => wrapping_add_u32(b.generation, 1),
        _ => 0,
    }
}

// The bank that an update of n bytes commits if load gives l.
fn bank_after(l: Result<Option<Bank>, Refusal>, data: &[u8], n: usize) -> Bank {
    Bank {
        number: number_after(l),
        version: VERSION,
        generation: generation_after(l),
        length: low32(n as u64),
        crc: crc32(0, part(data, 0, n)),
        count: 1,
        key: low32(key_length(n) as u64),
        checked: STAMP,
    }
}

pub fn planned(region: &[u8], data: &[u8], setting: Setting) -> Plan {
    let found = load(region);
    let update = setting.update;
    let fresh = bank_after(found, data, kinds::size(update));
    Plan {
        setting,
        update,
        found,
        fresh,
    }
}

fn same_numbers(a: Bank, b: Bank) -> bool {
    (a.number == b.number)
        & ((a.version == b.version) & (a.generation == b.generation))
        & ((a.length == b.length) & (a.crc == b.crc))
        & ((a.count == b.count) & (a.key == b.key))
        & (a.checked == b.checked)
}

fn is_found(l: Result<Option<Bank>, Refusal>, b: Bank) -> bool {
    match l {
        Ok(Some(x)) => same_numbers(x, b),
        _ => false,
    }
}

fn is_nothing(l: Result<Option<Bank>, Refusal>) -> bool {
    matches!(l, Ok(None))
}

fn same_loaded(l: Result<Option<Bank>, Refusal>, e: Result<Option<Bank>, Refusal>) -> bool {
    match e {
        Ok(Some(b)) => is_found(l, b),
        _ => is_nothing(l),
    }
}

fn is_good(v: Result<Bank, Refusal>, b: Bank) -> bool {
    match v {
        Ok(x) => same_numbers(x, b),
        _ => false,
    }
}

// Whether a bank is there whole: validate passes, and its data are the bytes of the update.
fn is_whole(region: &[u8], data: &[u8], b: Bank, n: usize) -> bool {
    let v = bank::validate(region, b.number);
    let held = part(bank_of(region, b.number), SECTOR_SIZE, n);
    is_good(v, b) & (held == part(data, 0, n))
}

// Whether the bank that isn't written has the bytes it had.
fn is_kept(region: &[u8], before: &[u8], p: Plan) -> bool {
    let b = p.fresh;
    let other = if b.number == 0 { 1 } else { 0 };
    bank_of(region, other) == bank_of(before, other)
}

// Whether load gives what must be there after a cut.
fn is_right(region: &[u8], before: &[u8], data: &[u8], p: Plan, over: bool) -> bool {
    let l = load(region);
    let b = p.fresh;
    let k = p.update;
    if over {
        return is_found(l, b)
            & (is_whole(region, data, b, kinds::size(k)) & is_kept(region, before, p));
    }
    let e = p.found;
    same_loaded(l, e) & is_kept(region, before, p)
}

// Begins again on a region, and says whether the whole update commits.
fn commits(region: &mut [u8], data: &[u8], update: Kind) -> bool {
    let n = kinds::size(update);
    let l = load(region);
    let b = bank_after(l, data, n);
    let begun = begin(region, n, false, false);
    let u = run(begun, region, data, EVERY_OPERATION);
    let after = load(region);
    (is_over(u) & (u.right & (u.operations == kinds::operations(update))))
        & (is_found(after, b) & is_whole(region, data, b, n))
}

// Whether the update is begun again after this cut.
fn is_sampled(update: Kind, cut: u32) -> bool {
    (cut % AGAIN_EVERY == 0) | (kinds::operations(update) < wrapping_add_u32(cut, LAST_CUTS))
}

// `commits` on the copy in the first n bytes of the scratch buffer.
fn commits_in(scratch: &mut [u8], n: usize, data: &[u8], update: Kind) -> bool {
    if n < scratch.len() {
        return commits(&mut scratch[..n], data, update);
    }
    false
}

// Begins again on a copy of the region, and says whether the whole update commits.
fn begun_again(region: &[u8], scratch: &mut [u8], data: &[u8], update: Kind) -> bool {
    copy(region, scratch, 0);
    commits_in(scratch, REGION_SIZE, data, update)
}

// Whether the update commits again, if that is tried.
fn commits_if_sampled(
    region: &[u8],
    scratch: &mut [u8],
    data: &[u8],
    update: Kind,
    sampled: bool,
) -> bool {
    if sampled {
        return begun_again(region, scratch, data, update);
    }
    true
}

// Counts one more wrong: a cut, or the byte of an operation.
fn with_wrong(c: Count, byte: u32) -> Count {
    let wrong = wrapping_add_u32(c.wrong, 1);
    if c.wrong == 0 {
        return Count {
            wrong,
            first: c.cuts,
            byte,
            ..c
        };
    }
    Count { wrong, ..c }
}

// Counts one more update that was begun again, if it was.
fn with_again(c: Count, again: bool) -> Count {
    if again {
        return Count {
            again: wrapping_add_u32(c.again, 1),
            ..c
        };
    }
    c
}

// Counts the result of one more cut.
fn with_cut(c: Count, o: Outcome, byte: u32) -> Count {
    if !o.right {
        return with_wrong(c, byte);
    }
    if o.over {
        return Count {
            new: wrapping_add_u32(c.new, 1),
            ..c
        };
    }
    Count {
        old: wrapping_add_u32(c.old, 1),
        ..c
    }
}

// Counts a cut between operations. Its number is how many there were before it.
fn counted(c: Count, o: Outcome) -> Count {
    let a = with_again(c, o.again);
    let b = with_cut(a, o, 0);
    Count {
        cuts: wrapping_add_u32(b.cuts, 1),
        ..b
    }
}

// Counts a cut inside an operation, after its first n bytes. The cut before the operation is counted already, so `cuts` is the number
// of the operation.
fn counted_inside(c: Count, o: Outcome, n: u32) -> Count {
    let a = with_again(c, o.again);
    let b = with_cut(a, o, n);
    Count {
        inside: wrapping_add_u32(b.inside, 1),
        ..b
    }
}

fn gave(o: Outcome) -> u8 {
    if !o.right {
        return strips::WRONG;
    }
    if o.over { strips::NEW } else { strips::OLD }
}

// A cut's mark in the picture.
fn mark(o: Outcome) -> u8 {
    let g = gave(o) % strips::BEGUN_AGAIN;
    if o.again { strips::BEGUN_AGAIN + g } else { g }
}

fn show_progress<E: Write>(err: &mut E, p: Plan, cut: u32) -> io::Result<()> {
    let s = p.setting;
    if s.progress & (cut % SHOWN == 0) {
        let leftover = s.leftover;
        let update = s.update;
        write!(
            err,
            "\rleftover {leftover}, {update}: cut {} of {}   ",
            Grouped(cut),
            Grouped(kinds::operations(update))
        )?;
    }
    Ok(())
}

// Tests the region after a cut.
fn look<E: Write>(
    err: &mut E,
    t: Tried,
    p: Plan,
    region: &[u8],
    before: &[u8],
    data: &[u8],
    scratch: &mut [u8],
) -> Count {
    let u = t.update;
    let c = t.count;
    let k = p.update;
    let over = is_over(u);
    let again = is_sampled(k, c.cuts);
    let good = u.right & is_right(region, before, data, p, over);
    let right = commits_if_sampled(region, scratch, data, k, again) & good;
    let o = Outcome { right, over, again };
    put_mark(scratch, c.cuts, mark(o));
    let _ = show_progress(err, p, c.cuts);
    counted(c, o)
}

// Tests the region after a cut inside an operation. Its bytes are in the bank that is written, so the other bank isn't compared here.
fn look_inside(x: Cut, c: Count, p: Plan, region: &[u8], data: &[u8], scratch: &mut [u8]) -> Count {
    let s = x.span;
    let n = low32(x.done as u64);
    let again = is_sampled_inside(x);
    let l = load(region);
    let e = p.found;
    let k = p.update;
    let right = commits_if_sampled(region, scratch, data, k, again) & same_loaded(l, e);
    let o = Outcome {
        right,
        over: false,
        again,
    };
    strips::put_inside(scratch, s, n, mark(o));
    counted_inside(c, o, n)
}

// The same, if this cut is tried.
fn after_byte(x: Cut, c: Count, p: Plan, region: &[u8], data: &[u8], scratch: &mut [u8]) -> Count {
    let t = p.setting;
    let cuts = t.cuts;
    let s = x.span;
    if is_tried(cuts, s, x.done, c.cuts) {
        return look_inside(x, c, p, region, data, scratch);
    }
    c
}

// All cuts inside an operation: byte by byte the region becomes what the operation left.
fn cut_after_each_byte(
    s: Span,
    so_far: Count,
    p: Plan,
    region: &mut [u8],
    data: &[u8],
    scratch: &mut [u8],
) -> Count {
    let mut c = so_far;
    for i in 0..s.size {
        let b = get8(scratch, wrapping_add_usize(AFTER, i));
        put8(region, wrapping_add_usize(s.at, i), b);
        let x = Cut {
            span: s,
            done: i + 1,
            before: c.inside,
        };
        c = after_byte(x, c, p, region, data, scratch);
    }
    c
}

// The cuts inside an operation that is done: the bytes from before it are put back first.
fn inside(s: Span, c: Count, p: Plan, region: &mut [u8], data: &[u8], scratch: &mut [u8]) -> Count {
    copy(part(region, s.at, s.size), scratch, AFTER);
    copy(part(scratch, BEFORE, s.size), region, s.at);
    cut_after_each_byte(s, c, p, region, data, scratch)
}

fn inside_if_tried(
    s: Span,
    c: Count,
    p: Plan,
    region: &mut [u8],
    data: &[u8],
    scratch: &mut [u8],
) -> Count {
    let t = p.setting;
    let cuts = t.cuts;
    if are_tried(cuts) {
        return inside(s, c, p, region, data, scratch);
    }
    c
}

// Marks the cut after an operation in its strip too: all its bytes are done.
fn mark_whole(s: Span, c: Count, scratch: &mut [u8]) {
    let m = mark_at(scratch, wrapping_sub_u32(c.cuts, 1));
    strips::put_inside(scratch, s, low32(s.size as u64), m);
}

// If a cut inside an operation was wrong, marks the cell of the cut after it too: most operations have no strip.
fn mark_wrong(before: Count, inside: Count, c: Count, scratch: &mut [u8]) {
    if before.wrong != inside.wrong {
        put_mark(scratch, wrapping_sub_u32(c.cuts, 1), strips::WRONG);
    }
}

// Tries the cuts inside the flash operation of a step, and the one after it.
fn operate<E: Write>(
    err: &mut E,
    x: Step,
    p: Plan,
    region: &mut [u8],
    before: &[u8],
    data: &[u8],
    scratch: &mut [u8],
) -> Count {
    let c = x.count;
    let update = x.update;
    let d = match x.span {
        Some(s) => inside_if_tried(s, c, p, region, data, scratch),
        None => c,
    };
    let t = Tried { update, count: d };
    let e = look(err, t, p, region, before, data, scratch);
    if let Some(s) = x.span {
        mark_whole(s, e, scratch);
    }
    mark_wrong(c, d, e, scratch);
    e
}

// Tries the cuts of a step that did a flash operation. One that `next_operation` did not give is wrong: it could not be cut inside.
fn after_step<E: Write>(
    err: &mut E,
    x: Step,
    p: Plan,
    region: &mut [u8],
    before: &[u8],
    data: &[u8],
    scratch: &mut [u8],
) -> Count {
    if x.update.flash {
        let c = operate(err, x, p, region, before, data, scratch);
        return with_wrong_unless(c, x.span.is_some());
    }
    x.count
}

// A step, with its cuts. The bytes that it changes are kept from before.
fn step_with_cuts<E: Write>(
    err: &mut E,
    t: Tried,
    p: Plan,
    region: &mut [u8],
    before: &[u8],
    data: &[u8],
    scratch: &mut [u8],
) -> Tried {
    let u = t.update;
    let c = t.count;
    let found = p.found;
    let span = next_operation(u, start(found));
    if let Some(s) = span {
        copy(part(region, s.at, s.size), scratch, BEFORE);
    }
    let update = step(u, region, data);
    let x = Step {
        span,
        update,
        count: c,
    };
    let count = after_step(err, x, p, region, before, data, scratch);
    Tried { update, count }
}

// The beginning, and the cut before any operation.
fn begun<E: Write>(
    err: &mut E,
    p: Plan,
    region: &[u8],
    before: &[u8],
    data: &[u8],
    scratch: &mut [u8],
) -> Tried {
    let k = p.update;
    let update = begin(region, kinds::size(k), false, false);
    let t = Tried {
        update,
        count: none(),
    };
    let count = look(err, t, p, region, before, data, scratch);
    Tried { update, count }
}

// All cuts of an update.
fn cuts<E: Write>(
    err: &mut E,
    p: Plan,
    region: &mut [u8],
    before: &[u8],
    data: &[u8],
    scratch: &mut [u8],
) -> Count {
    let mut t = begun(err, p, region, before, data, scratch);
    for _ in 0..MOST_CALLS {
        if is_over(t.update) {
            return t.count;
        }
        t = step_with_cuts(err, t, p, region, before, data, scratch);
    }
    t.count
}

// Whether the comparison of an update with the active bank answers as it must, and changes nothing.
fn compares(region: &mut [u8], data: &[u8], update: Kind, same: bool) -> bool {
    let before = crc32(0, region);
    let begun = begin(region, kinds::size(update), true, same);
    let u = run(begun, region, data, EVERY_OPERATION);
    is_over(u) & (u.right & (crc32(0, region) == before))
}

// Counts one more wrong, unless it is right.
fn with_wrong_unless(c: Count, right: bool) -> Count {
    if right {
        return c;
    }
    with_wrong(c, 0)
}

// All cuts, and whether there are as many operations as there must be.
fn counted_cuts<E: Write>(
    err: &mut E,
    p: Plan,
    region: &mut [u8],
    before: &[u8],
    data: &[u8],
    scratch: &mut [u8],
) -> Count {
    let k = p.update;
    let c = cuts(err, p, region, before, data, scratch);
    with_wrong_unless(
        c,
        (c.cuts == wrapping_add_u32(kinds::operations(k), 1)) & (c.new <= 1),
    )
}

// Tries one update; one that is compared before it is compared after it too.
pub fn trial<E: Write>(
    err: &mut E,
    p: Plan,
    region: &mut [u8],
    before: &[u8],
    data: &[u8],
    scratch: &mut [u8],
) -> Count {
    let k = p.update;
    if k != Kind::Compared {
        return counted_cuts(err, p, region, before, data, scratch);
    }
    let first = compares(region, data, k, false);
    let c = counted_cuts(err, p, region, before, data, scratch);
    let second = compares(region, data, k, true);
    with_wrong_unless(c, first & second)
}
