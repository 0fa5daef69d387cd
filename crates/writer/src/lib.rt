// The state of an update by value, which operation is due, and which states are within their ranges.
#![tactic(auto)]

ghost use Rattle.std.specs.Prelude.{◌≡◌, ◌&&◌};
ghost use Rattle.writer.specs.State as State;
ghost use Rattle.writer.specs.Parts.{parts_of, whole_of, step_with, parts_did, parts_stay};

use base::table::{LAST_TABLE, TABLES};
use header::{Bank, SOURCES, SOURCES_32};
use record::Source;
use refusal::Refusal;
use region::{CAPACITY_64, LAST_BANK, SECTOR_SIZE_32};

// The tail's capacity.
pub const TAIL_SIZE: usize = 256;

pub const TAIL_SIZE_32: u32 = TAIL_SIZE as u32;
// The table number that means that none is open.
pub const NO_TABLE: u32 = TABLES as u32;

// What is due: an erase of a sector of the bank (0 is the header's), a write of the tail into the data, or its comparison.
#[derive(Clone, Copy)]
pub enum Operation {
    Erase { sector: u32 },
    Write { offset: u32, length: u32 },
    Compare { offset: u32, length: u32 },
}

#[derive(Clone, Copy)]
pub enum Stage {
    Idle,
    Due(Operation),
    HeaderWritten,
    Committed,
}

// What the beginning fixes.
#[derive(Clone, Copy)]
pub struct Beginning {
    pub active: Result<Option<Bank>, Refusal>,
    pub comparing: bool,
    pub now: i64,
}

// The bytes written and those in the tail, the CRC of all, whether a comparison found a difference, and whether the update is closed.
#[derive(Clone, Copy)]
pub struct Contents {
    pub written: u32,
    pub fill: u32,
    pub crc: u32,
    pub different: bool,
    pub closed: bool,
}

// How many sources were begun; the open table (8: none), where it starts, its CRC; which tables the last source began.
#[repr(C)]
#[derive(Clone, Copy)]
pub struct Tables {
    pub count: u32,
    pub table: u32,
    pub start: u32,
    pub crc: u32,
    pub begun: u32,
}

#[derive(Clone, Copy)]
pub struct Writer {
    pub stage: Stage,
    pub beginning: Beginning,
    pub contents: Contents,
    pub tables: Tables,
    pub sources: [Source; SOURCES],
    pub tail: [u8; TAIL_SIZE],
}

// A call's answer: done, n bytes appended, no operation due, the update the same as the active bank or not, or a refusal.
#[derive(Clone, Copy)]
pub enum Answer {
    Done,
    Appended(u32),
    NoneDue,
    Same,
    Different,
}

// The answer, and the state after the call.
#[derive(Clone, Copy)]
pub struct Step {
    pub answer: Result<Answer, Refusal>,
    pub writer: Writer,
}

// The few bytes of a state that calls change at every step. What the beginning fixed, the sources and the tail are passed beside them, so
// that they aren't copied from call to call.
#[derive(Clone, Copy)]
pub struct Parts {
    pub stage: Stage,
    pub contents: Contents,
    pub tables: Tables,
}

// The answer, and the parts after the call.
#[derive(Clone, Copy)]
pub struct PartsStep {
    pub answer: Result<Answer, Refusal>,
    pub parts: Parts,
}

pub fn is_due(t: Contents) -> bool
    ensures { result ≡ State.is_due t }
{
    (t.fill == TAIL_SIZE_32) | (t.closed & (0 < t.fill))
}

// The next sector's erase before the first write to it, else the write.
pub fn data_due(t: Contents) -> Operation
    ensures { result ≡ State.data_due t }
{
    if t.written % SECTOR_SIZE_32 == 0 {
        return Operation::Erase {
            sector: t.written / SECTOR_SIZE_32 + 1,
        };
    }
    Operation::Write {
        offset: t.written,
        length: t.fill,
    }
}

fn first_due(comparing: bool, t: Contents) -> Operation
    ensures { result ≡ State.first_due comparing t }
{
    if comparing {
        return Operation::Compare {
            offset: t.written,
            length: t.fill,
        };
    }
    if t.written == 0 {
        return Operation::Erase { sector: 0 };
    }
    data_due(t)
}

pub fn stage_of(comparing: bool, t: Contents) -> Stage
    ensures { result ≡ State.stage_of comparing t }
{
    if is_due(t) {
        let o = first_due(comparing, t);
        return Stage::Due(o);
    }
    Stage::Idle
}

// The bank that isn't the active one; 0 with no active bank.
#[tactic(auto, unfolding(crate::specs::State::target))]
pub fn target(l: Result<Option<Bank>, Refusal>) -> u32
    ensures { result ≡ State.target l }
{
    match l {
        Ok(Some(b)) => { if b.number == 0 { LAST_BANK } else { 0 } }
        Ok(None) => 0,
        Err(_) => 0,
    }
}

#[tactic(auto, unfolding(crate::specs::State::active_ok))]
fn active_ok(l: Result<Option<Bank>, Refusal>) -> bool
    ensures { result ≡ State.active_ok l }
{
    let Ok(active) = l else {
        return false;
    };
    match active {
        Some(b) => b.number <= LAST_BANK,
        None => true,
    }
}

fn position(t: Contents) -> u64
    ensures { result ≡ State.position t }
{
    t.written as u64 + t.fill as u64
}

fn contents_ok(t: Contents) -> bool
    ensures { result ≡ State.contents_ok t }
{
    (t.fill <= TAIL_SIZE_32)
        & ((position(t) <= CAPACITY_64)
            & ((t.written % TAIL_SIZE_32 == 0) | (t.closed & (t.fill == 0))))
}

fn tables_ok(n: u64, s: Tables) -> bool
    ensures { result ≡ State.tables_ok n s }
{
    (s.count <= SOURCES_32)
        & ((s.table == NO_TABLE)
            | ((s.table <= LAST_TABLE) & ((1 <= s.count) & (s.start as u64 <= n))))
}

fn operation_ok(comparing: bool, t: Contents, o: Operation) -> bool
    ensures { result ≡ State.operation_ok comparing t o }
{
    match o {
        Operation::Erase { sector } => {
            !comparing
                & (((t.written == 0) & (sector == 0))
                    | ((t.written % SECTOR_SIZE_32 == 0)
                        & (sector == t.written / SECTOR_SIZE_32 + 1)))
        }
        Operation::Write { offset, length } => {
            !comparing & ((offset == t.written) & (length == t.fill))
        }
        Operation::Compare { offset, length } => {
            comparing & ((offset == t.written) & (length == t.fill))
        }
    }
}

fn stage_ok(comparing: bool, t: Contents, s: Stage) -> bool
    ensures { result ≡ State.stage_ok comparing t s }
{
    match s {
        Stage::Idle => !is_due(t),
        Stage::Due(o) => is_due(t) & operation_ok(comparing, t, o),
        Stage::HeaderWritten => !comparing & (t.closed & (t.fill == 0)),
        Stage::Committed => !comparing & (t.closed & (t.fill == 0)),
    }
}

// Whether a state is within its ranges, by those few of its bytes that matter.
pub fn parts_in_range(b: Beginning, t: Contents, x: Tables, s: Stage) -> bool
    ensures { result ≡ (State.active_ok b.active && (State.contents_ok t && (State.tables_ok (State.position t) x && State.stage_ok b.comparing t s))) }
{
    let a = b.active;
    active_ok(a) & (contents_ok(t) & (tables_ok(position(t), x) & stage_ok(b.comparing, t, s)))
}

// Whether a state, whoever made it, is within its ranges.
pub fn in_range(w: Writer) -> bool
    ensures { result ≡ State.in_range w }
{
    let b = w.beginning;
    let t = w.contents;
    let x = w.tables;
    let s = w.stage;
    parts_in_range(b, t, x, s)
}

// Whether a call answered that it is done.
pub fn is_done(a: Result<Answer, Refusal>) -> bool
    ensures { result ≡ State.is_done a }
{
    match a {
        Ok(Answer::Done) => true,
        Ok(Answer::Appended(_)) => false,
        Ok(Answer::NoneDue) => false,
        Ok(Answer::Same) => false,
        Ok(Answer::Different) => false,
        Err(_) => false,
    }
}

// A call that is done.
pub fn did(w: Writer) -> Step
    ensures { result ≡ State.did w }
{
    Step {
        answer: Ok(Answer::Done),
        writer: w,
    }
}

// A call that is refused: the state is unchanged.
pub fn stays(w: Writer, r: Refusal) -> Step
    ensures { result ≡ State.stays w r }
{
    Step {
        answer: Err(r),
        writer: w,
    }
}

pub fn parts_of(w: Writer) -> Parts
    ensures { result ≡ parts_of w }
{
    let stage = w.stage;
    let contents = w.contents;
    let tables = w.tables;
    Parts {
        stage,
        contents,
        tables,
    }
}

// The whole state again.
pub fn whole(
    beginning: Beginning,
    p: Parts,
    sources: [Source; SOURCES],
    tail: [u8; TAIL_SIZE],
) -> Writer
    ensures { result ≡ whole_of beginning p sources tail }
{
    let stage = p.stage;
    let contents = p.contents;
    let tables = p.tables;
    Writer {
        stage,
        beginning,
        contents,
        tables,
        sources,
        tail,
    }
}

pub fn step_with(
    beginning: Beginning,
    s: PartsStep,
    sources: [Source; SOURCES],
    tail: [u8; TAIL_SIZE],
) -> Step
    ensures { result ≡ step_with beginning s sources tail }
{
    let answer = s.answer;
    let p = s.parts;
    let writer = whole(beginning, p, sources, tail);
    Step { answer, writer }
}

// A call on parts that is done.
pub fn parts_did(p: Parts) -> PartsStep
    ensures { result ≡ parts_did p }
{
    let answer = Ok(Answer::Done);
    PartsStep { answer, parts: p }
}

// A call on parts that is refused: they are unchanged.
pub fn parts_stay(p: Parts, r: Refusal) -> PartsStep
    ensures { result ≡ parts_stay p r }
{
    let answer = Err(r);
    PartsStep { answer, parts: p }
}
