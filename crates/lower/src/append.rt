// The lower layer's append: bytes are put into the tail until it is full.
ghost use Rattle.std.specs.Prelude.{◌≡◌, List, ℕ, ◌+◌, ◌≤◌, length, take, Ok};
ghost use Rattle.std.proofs.lemmas.List.Edits.{sets};
ghost use Rattle.record.specs.declared.Source.{Source};
ghost use Rattle.writer.specs.Parts.{whole_of, step_with};
ghost use Rattle.writer.specs.declared.Answer.TheVariants as Answers;
ghost use Rattle.lower.specs.Lower as Lower;
ghost use Rattle.lower.specs.Appended.{parts_appended, step_appended, tail_appended};
ghost use Rattle.writer.specs.State.{tail_size};

use crate::{accepted, may_append_parts};
use leaf::crc::crc32_both;
use refusal::Refusal;
use region::CAPACITY;
use writer::{
    Answer, Beginning, Contents, Parts, PartsStep, Stage, Step, TAIL_SIZE, Tables, Writer, is_due,
    parts_of, stage_of, step_with,
};

// Puts bytes into the tail at an offset, one by one: copy_from_slice would be a call of C's memmove, which the archive doesn't need otherwise.
fn put_tail(tail: &mut [u8; TAIL_SIZE], at: usize, bytes: &[u8])
    requires { at + length bytes.now ≤ tail_size }
    ensures { tail.new ≡ sets tail.old at bytes.now }
{
    for (i, b) in bytes.iter().enumerate() {
        tail[at + i] = *b;
    }
}

// The answer, how many bytes are appended and at which offset of the tail, and what else they change.
#[derive(Clone, Copy)]
struct Appended {
    answer: Result<Answer, Refusal>,
    n: usize,
    at: usize,
    stage: Stage,
    contents: Contents,
    tables: Tables,
}

// No byte is appended.
fn none_appended(p: Parts, answer: Result<Answer, Refusal>) -> Appended
    ensures { result ≡ record { answer = answer; n = 0; at = 0; stage = p.stage; contents = p.contents; tables = p.tables } }
{
    Appended {
        answer,
        n: 0,
        at: 0,
        stage: p.stage,
        contents: p.contents,
        tables: p.tables,
    }
}

// The first n bytes are appended.
fn first_appended(b: Beginning, p: Parts, bytes: &[u8], n: usize) -> Appended
    requires { (n ≤ length bytes.now) × (p.contents.fill + n ≤ tail_size) }
    ensures { (result.answer ≡ Ok (Answers.Appended n)) × (result.n ≡ n) × (result.at + result.n ≤ tail_size) × ((ss : List Source) (tail : List ℕ) → whole_of b (parts_appended result) ss (tail_appended result bytes.now tail) ≡ Lower.with_bytes (whole_of b p ss tail) (take n bytes.now)) }
{
    let t = p.contents;
    let some = &bytes[0..n];
    let crcs = crc32_both(t.crc, p.tables.crc, some);
    let contents = Contents {
        fill: t.fill + n as u32,
        crc: crcs.a,
        ..t
    };
    let tables = Tables {
        crc: crcs.b,
        ..p.tables
    };
    let stage = stage_of(b.comparing, contents);
    Appended {
        answer: Ok(Answer::Appended(n as u32)),
        n,
        at: t.fill as usize,
        stage,
        contents,
        tables,
    }
}

fn append_some(b: Beginning, p: Parts, bytes: &[u8]) -> Appended
    requires { p.contents.fill ≤ tail_size }
    ensures { (result.n ≤ length bytes.now) × (result.at + result.n ≤ tail_size) × ((ss : List Source) (tail : List ℕ) → step_with b (step_appended result) ss (tail_appended result bytes.now tail) ≡ Lower.appended (whole_of b p ss tail) bytes.now) }
{
    if is_due(p.contents) {
        return none_appended(p, Ok(Answer::Appended(0)));
    }
    let n = accepted(p.contents, bytes.len());
    first_appended(b, p, bytes, n)
}

fn append_any(b: Beginning, p: Parts, offered: &[u8]) -> Appended
    ensures { (result.n ≤ length offered.now) × (result.at + result.n ≤ tail_size) × ((ss : List Source) (tail : List ℕ) → step_with b (step_appended result) ss (tail_appended result offered.now tail) ≡ Lower.bytes_step (whole_of b p ss tail) offered.now) }
{
    let t = p.contents;
    if !may_append_parts(b, p) {
        return none_appended(p, Err(Refusal::Turn));
    }
    let free = CAPACITY - (t.written + t.fill) as usize;
    if free < offered.len() {
        return none_appended(p, Err(Refusal::Full));
    }
    append_some(b, p, offered)
}

// Appends bytes to the tail until it is full, and says how many.
pub fn append_parts(b: Beginning, p: Parts, tail: &mut [u8; TAIL_SIZE], offered: &[u8]) -> PartsStep
    ensures { (ss : List Source) → step_with b result ss tail.new ≡ Lower.bytes_step (whole_of b p ss tail.old) offered.now }
{
    let g = append_any(b, p, offered);
    let n = g.n;
    let some = &offered[0..n];
    put_tail(tail, g.at, some);
    let parts = Parts {
        stage: g.stage,
        contents: g.contents,
        tables: g.tables,
    };
    PartsStep {
        answer: g.answer,
        parts,
    }
}

// Appends bytes until the tail is full, and says how many.
pub fn bytes(w: Writer, offered: &[u8]) -> Step
    ensures { result ≡ Lower.bytes_step w offered.now }
{
    let b = w.beginning;
    let p = parts_of(w);
    let mut tail = w.tail;
    let s = append_parts(b, p, &mut tail, offered);
    step_with(b, s, w.sources, tail)
}
