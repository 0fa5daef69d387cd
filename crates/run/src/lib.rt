// Runs of lower calls: what is due is done, bytes are appended. They leave the sources unchanged, so they work on the parts of a state and
// its tail: NAME_parts. NAME is the same on a whole state, of which the upper layer's theorems speak.
#![tactic(auto)]

ghost use Rattle.std.specs.Prelude.{◌≡◌, true, false, ◌+◌, ◌≤◌, ◌<◌, ◌∷◌, [], ◌++◌, length};
ghost use Rattle.run.specs.Run as Run;
ghost use Rattle.run.specs.Run.{ran_writer, ran_region};
ghost use Rattle.run.specs.Appends as Appends;
ghost use Rattle.run.specs.PartsRun as PartsRun;
ghost use Rattle.writer.specs.State.{tail_size};

use due::due_parts;
use lower::append::append_parts;
use refusal::Refusal;
use writer::{
    Answer, Beginning, Contents, Parts, Stage, TAIL_SIZE, TAIL_SIZE_32, Writer, parts_of, whole,
};

// Does the second and the third operation that are due.
fn do_two(b: Beginning, p: Parts, tail: &[u8; TAIL_SIZE], region: &mut [u8]) -> Parts
    ensures { PartsRun.Ran region.old b p tail.now (Run.due ∷ Run.due ∷ []) result tail.now region.new }
{
    let c = due_parts(b, p, tail, region);
    let d = due_parts(b, c.parts, tail, region);
    d.parts
}

// Does what is still due, at most two operations.
fn flush_two(b: Beginning, p: Parts, tail: &[u8; TAIL_SIZE], region: &mut [u8]) -> Parts
    ensures { PartsRun.Ran region.old b p tail.now (Run.due ∷ Run.due ∷ []) result tail.now region.new }
{
    match p.stage {
        Stage::Due(_) => do_two(b, p, tail, region),
        Stage::Idle => p,
        Stage::HeaderWritten => p,
        Stage::Committed => p,
    }
}

// Does what is due, at most three operations.
fn do_due(b: Beginning, p: Parts, tail: &[u8; TAIL_SIZE], region: &mut [u8]) -> Parts
    ensures { PartsRun.Ran region.old b p tail.now Appends.dues result tail.now region.new }
{
    let a = due_parts(b, p, tail, region);
    flush_two(b, a.parts, tail, region)
}

fn flush_parts(b: Beginning, p: Parts, tail: &[u8; TAIL_SIZE], region: &mut [u8]) -> Parts
    ensures { PartsRun.Ran region.old b p tail.now Appends.dues result tail.now region.new }
{
    match p.stage {
        Stage::Due(_) => do_due(b, p, tail, region),
        Stage::Idle => p,
        Stage::HeaderWritten => p,
        Stage::Committed => p,
    }
}

// Does what is due.
pub fn flush(w: Writer, region: &mut [u8]) -> Writer
    ensures { (result ≡ ran_writer region.old w Appends.dues) × (region.new ≡ ran_region region.old w Appends.dues) }
{
    let b = w.beginning;
    let p = parts_of(w);
    let tail = w.tail;
    let q = flush_parts(b, p, &tail, region);
    whole(b, q, w.sources, tail)
}

// How many bytes were appended, and the parts after that.
#[derive(Clone, Copy)]
struct AfterAppend {
    n: usize,
    parts: Parts,
}

// Appends the first byte.
fn append_one(
    b: Beginning,
    p: Parts,
    tail: &mut [u8; TAIL_SIZE],
    region: &mut [u8],
    bytes: &[u8],
) -> AfterAppend
    requires { 1 ≤ length bytes.now }
    ensures { PartsRun.AfterAppend region.old b p tail.old bytes.now result.n result.parts tail.new region.new }
{
    let one = &bytes[0..1];
    let s = append_parts(b, p, tail, one);
    let q = flush_parts(b, s.parts, tail, region);
    AfterAppend { n: 1, parts: q }
}

// How many bytes a call appended.
fn count_of(a: Result<Answer, Refusal>) -> usize
    ensures { result ≡ PartsRun.count_of a }
{
    match a {
        Ok(Answer::Done) => 0,
        Ok(Answer::Appended(n)) => n as usize,
        Ok(Answer::NoneDue) => 0,
        Ok(Answer::Same) => 0,
        Ok(Answer::Different) => 0,
        Err(_) => 0,
    }
}

// Appends the first bytes: as many as the lower call appends, or one. The lower call tests the state's range.
fn append_some(
    b: Beginning,
    p: Parts,
    tail: &mut [u8; TAIL_SIZE],
    region: &mut [u8],
    bytes: &[u8],
) -> AfterAppend
    requires { 1 ≤ length bytes.now }
    ensures { PartsRun.AfterAppend region.old b p tail.old bytes.now result.n result.parts tail.new region.new }
{
    let s = append_parts(b, p, tail, bytes);
    let n = count_of(s.answer);
    if n == 0 {
        return append_one(b, p, tail, region, bytes);
    }
    let q = flush_parts(b, s.parts, tail, region);
    AfterAppend { n, parts: q }
}

fn append_all_parts(
    b: Beginning,
    p: Parts,
    tail: &mut [u8; TAIL_SIZE],
    region: &mut [u8],
    bytes: &[u8],
) -> Parts
    ensures { PartsRun.Ran region.old b p tail.old (Appends.appends bytes.now) result tail.new region.new }
{
    let mut q = p;
    let mut rest = bytes;
    while !rest.is_empty() {
        let f = append_some(b, q, tail, region, rest);
        q = f.parts;
        rest = &rest[f.n..];
    }
    q
}

// Appends bytes, and does what is due after each.
pub fn append_all(w: Writer, region: &mut [u8], bytes: &[u8]) -> Writer
    ensures { (result ≡ ran_writer region.old w (Appends.appends bytes.now)) × (region.new ≡ ran_region region.old w (Appends.appends bytes.now)) }
{
    let b = w.beginning;
    let p = parts_of(w);
    let mut tail = w.tail;
    let q = append_all_parts(b, p, &mut tail, region, bytes);
    whole(b, q, w.sources, tail)
}

fn flush_append_parts(
    b: Beginning,
    p: Parts,
    tail: &mut [u8; TAIL_SIZE],
    region: &mut [u8],
    bytes: &[u8],
) -> Parts
    ensures { PartsRun.Ran region.old b p tail.old (Appends.dues ++ Appends.appends bytes.now) result tail.new region.new }
{
    let q = flush_parts(b, p, tail, region);
    append_all_parts(b, q, tail, region, bytes)
}

// Does what is due, then appends bytes.
pub fn flush_append(w: Writer, region: &mut [u8], bytes: &[u8]) -> Writer
    ensures { (result ≡ ran_writer region.old w (Appends.dues ++ Appends.appends bytes.now)) × (region.new ≡ ran_region region.old w (Appends.dues ++ Appends.appends bytes.now)) }
{
    let b = w.beginning;
    let p = parts_of(w);
    let mut tail = w.tail;
    let q = flush_append_parts(b, p, &mut tail, region, bytes);
    whole(b, q, w.sources, tail)
}

// Whether n bytes leave the tail short of full.
fn leaves_tail_open(t: Contents, n: usize) -> bool
    ensures { result ≡ true → t.fill + n < tail_size }
{
    if TAIL_SIZE_32 <= t.fill {
        return false;
    }
    n < (TAIL_SIZE_32 - t.fill) as usize
}

// Does what is due, twice, then appends bytes.
fn flush_append_line(
    b: Beginning,
    p: Parts,
    tail: &mut [u8; TAIL_SIZE],
    region: &mut [u8],
    bytes: &[u8],
) -> Parts
    ensures { PartsRun.Ran region.old b p tail.old (Appends.dues ++ (Appends.dues ++ Appends.appends bytes.now)) result tail.new region.new }
{
    let q = flush_parts(b, p, tail, region);
    flush_append_parts(b, q, tail, region, bytes)
}

// The same for bytes that leave the tail short of full: by one call, if it appends them.
fn append_short_line(
    b: Beginning,
    p: Parts,
    tail: &mut [u8; TAIL_SIZE],
    region: &mut [u8],
    bytes: &[u8],
) -> Parts
    requires { p.contents.fill + length bytes.now < tail_size }
    ensures { PartsRun.Ran region.old b p tail.old (Appends.dues ++ (Appends.dues ++ Appends.appends bytes.now)) result tail.new region.new }
{
    let s = append_parts(b, p, tail, bytes);
    if count_of(s.answer) != 0 {
        return s.parts;
    }
    flush_append_line(b, p, tail, region, bytes)
}

// Does what is due, twice, then appends bytes: by one call if nothing is due before and after them.
pub fn append_line_parts(
    b: Beginning,
    p: Parts,
    tail: &mut [u8; TAIL_SIZE],
    region: &mut [u8],
    bytes: &[u8],
) -> Parts
    ensures { PartsRun.Ran region.old b p tail.old (Appends.dues ++ (Appends.dues ++ Appends.appends bytes.now)) result tail.new region.new }
{
    if leaves_tail_open(p.contents, bytes.len()) {
        return append_short_line(b, p, tail, region, bytes);
    }
    flush_append_line(b, p, tail, region, bytes)
}
