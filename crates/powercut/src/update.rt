// An update by the lower layer's calls, one call a step.
use crate::data::{FIRST_DAY, LAST_DAY, table_start};
use crate::torn;
use crate::torn::{Span, erase, write};
use program::text::between;
use record::{Source, no_source};
use refusal::Refusal;
use std::num::{wrapping_add_u32, wrapping_add_usize};
use writer::{Answer, Operation, Stage, Writer};

// The next call once no operation is due.
#[derive(Clone, Copy, PartialEq, Eq)]
pub enum Phase {
    Key,
    Table,
    Closed,
    HeaderWritten,
    Over,
}

// The state of an update of n bytes: bytes appended, flash operations done, whether the last step was one, and whether every call
// answered as it must. One that compares ends with the question whether the update is the same as the active bank.
#[derive(Clone, Copy)]
pub struct Update {
    pub writer: Writer,
    pub phase: Phase,
    pub n: usize,
    pub at: usize,
    pub comparing: bool,
    pub same: bool,
    pub operations: u32,
    pub flash: bool,
    pub right: bool,
}

// When the source was updated, the time of the beginning, and the host's stamp.
const UPDATED: i64 = 1790900000;

const NOW: i64 = 1791000000;

pub const STAMP: i64 = 1791000060;

// The table that is written, and its bit.
const TABLE: u32 = 0;

const PRESENT: u32 = 1;

// The longest update needs fewer calls.
pub const MOST_CALLS: u32 = 8000;

// More operations than any update makes.
pub const EVERY_OPERATION: u32 = 4294967295;

fn the_source() -> Source {
    let z = no_source();
    Source {
        start: FIRST_DAY,
        end: LAST_DAY,
        present: PRESENT,
        updated: UPDATED,
        ..z
    }
}

fn done(a: Result<Answer, Refusal>) -> bool {
    matches!(a, Ok(Answer::Done))
}

// Begins an update and its one source. `same` is the answer that a comparison must give.
pub fn begin(region: &[u8], n: usize, comparing: bool, same: bool) -> Update {
    let s = lower::begin::begin(region, comparing, NOW);
    let begun = s.writer;
    let a = s.answer;
    let source = the_source();
    let t = lower::source::source(begun, source);
    let writer = t.writer;
    let b = t.answer;
    Update {
        writer,
        phase: Phase::Key,
        n,
        at: 0,
        comparing,
        same,
        operations: 0,
        flash: false,
        right: done(a) & done(b),
    }
}

fn is_due(w: Writer) -> bool {
    matches!(w.stage, Stage::Due(_))
}

pub fn is_over(u: Update) -> bool {
    u.phase == Phase::Over
}

// Does the due operation.
fn operate(u: Update, region: &mut [u8]) -> Update {
    let w = u.writer;
    let s = due::due(w, region);
    let writer = s.writer;
    let a = s.answer;
    let mut operations = u.operations;
    if !u.comparing {
        operations = wrapping_add_u32(operations, 1);
    }
    Update {
        writer,
        operations,
        flash: !u.comparing,
        right: u.right & done(a),
        ..u
    }
}

// How many bytes were appended; 0 for any other answer.
fn appended(a: Result<Answer, Refusal>) -> usize {
    match a {
        Ok(Answer::Appended(k)) => k as usize,
        _ => 0,
    }
}

fn append(u: Update, bytes: &[u8]) -> Update {
    let w = u.writer;
    let s = lower::append::bytes(w, bytes);
    let writer = s.writer;
    let a = s.answer;
    let k = appended(a);
    Update {
        writer,
        at: wrapping_add_usize(u.at, k),
        flash: false,
        right: u.right & (0 < k),
        ..u
    }
}

fn start_table(u: Update) -> Update {
    let w = u.writer;
    let s = lower::table::table(w, TABLE);
    let writer = s.writer;
    let a = s.answer;
    Update {
        writer,
        phase: Phase::Table,
        flash: false,
        right: u.right & done(a),
        ..u
    }
}

fn close(u: Update) -> Update {
    let w = u.writer;
    let s = lower::table::end(w);
    let ended = s.writer;
    let a = s.answer;
    let t = lower::begin::close(ended);
    let writer = t.writer;
    let b = t.answer;
    Update {
        writer,
        phase: Phase::Closed,
        flash: false,
        right: u.right & (done(a) & done(b)),
        ..u
    }
}

// The first commit call.
fn write_header(u: Update, region: &mut [u8]) -> Update {
    let w = u.writer;
    let s = commit::commit(w, region, Some(STAMP), true);
    let writer = s.writer;
    let a = s.answer;
    Update {
        writer,
        phase: Phase::HeaderWritten,
        operations: wrapping_add_u32(u.operations, 1),
        flash: true,
        right: u.right & done(a),
        ..u
    }
}

// The second.
fn write_commit_word(u: Update, region: &mut [u8]) -> Update {
    let w = u.writer;
    let s = commit::commit_word(w, region);
    let writer = s.writer;
    let a = s.answer;
    Update {
        writer,
        phase: Phase::Over,
        operations: wrapping_add_u32(u.operations, 1),
        flash: true,
        right: u.right & done(a),
        ..u
    }
}

// Whether an answer is that the update is the same, or that it is not.
fn is_answer(a: Result<Answer, Refusal>, same: bool) -> bool {
    match a {
        Ok(Answer::Same) => same,
        Ok(Answer::Different) => !same,
        _ => false,
    }
}

fn ask_unchanged(u: Update, region: &[u8]) -> Update {
    let w = u.writer;
    let s = commit::unchanged::unchanged(w, region);
    let writer = s.writer;
    let a = s.answer;
    Update {
        writer,
        phase: Phase::Over,
        flash: false,
        right: u.right & is_answer(a, u.same),
        ..u
    }
}

fn in_key(u: Update, data: &[u8]) -> Update {
    let to = table_start(u.n);
    if u.at < to {
        return append(u, between(data, u.at, to));
    }
    start_table(u)
}

fn in_table(u: Update, data: &[u8]) -> Update {
    if u.at < u.n {
        return append(u, between(data, u.at, u.n));
    }
    close(u)
}

fn closed(u: Update, region: &mut [u8]) -> Update {
    if u.comparing {
        return ask_unchanged(u, region);
    }
    write_header(u, region)
}

// Makes one call.
pub fn step(u: Update, region: &mut [u8], data: &[u8]) -> Update {
    let w = u.writer;
    if is_due(w) {
        return operate(u, region);
    }
    let p = u.phase;
    match p {
        Phase::Key => in_key(u, data),
        Phase::Table => in_table(u, data),
        Phase::Closed => closed(u, region),
        Phase::HeaderWritten => write_commit_word(u, region),
        Phase::Over => u,
    }
}

// The due erase or write, in the bank at an offset.
fn due_span(o: Operation, bank: usize) -> Option<Span> {
    match o {
        Operation::Erase { sector } => Some(erase(bank, sector)),
        Operation::Write { offset, length } => Some(write(bank, offset, length)),
        Operation::Compare {
            offset: _,
            length: _,
        } => None,
    }
}

// The write of a commit call, if that is next.
fn commit_span(u: Update, bank: usize) -> Option<Span> {
    match u.phase {
        Phase::Closed if !u.comparing => Some(torn::header_write(bank)),
        Phase::HeaderWritten => Some(torn::commit_word_write(bank)),
        _ => None,
    }
}

// The flash operation that the next step does, if it does one.
pub fn next_operation(u: Update, bank: usize) -> Option<Span> {
    let w = u.writer;
    let s = w.stage;
    match s {
        Stage::Due(o) => due_span(o, bank),
        _ => commit_span(u, bank),
    }
}

// Makes calls until the first n operations are done or the update is over.
pub fn run(begun: Update, region: &mut [u8], data: &[u8], operations: u32) -> Update {
    let mut u = begun;
    for _ in 0..MOST_CALLS {
        if is_over(u) | (u.operations == operations) {
            return u;
        }
        u = step(u, region, data);
    }
    u
}
