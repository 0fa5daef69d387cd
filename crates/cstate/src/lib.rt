// A writer's state and a call's answer as plain numbers, for C. Every bit pattern is a State.
#![tactic(auto)]

ghost use Rattle.cstate.specs.Claims.{Claims};
ghost use Rattle.std.specs.Prelude.{◌≡◌};
ghost use Rattle.base.specs.Number.{pick};
ghost use Rattle.writer.specs.declared.Stage.TheVariants as Stages;
ghost use Rattle.writer.specs.Parts.{parts_of, whole_of};
ghost use Rattle.cstate.specs.State as Saved;
ghost use Rattle.cstate.specs.Answers as Answers;

use header::{Bank, SOURCES};
use record::Source;
use refusal::{Refusal, number_u32};
use writer::{
    Answer, Beginning, Contents, Operation, Parts, PartsStep, Stage, Step, TAIL_SIZE, Tables,
    Writer, whole,
};

// The numbers of stages.
pub const IDLE_STAGE: u32 = 0;

pub const ERASE_STAGE: u32 = 1;

pub const WRITE_STAGE: u32 = 2;

pub const COMPARE_STAGE: u32 = 3;

pub const HEADER_WRITTEN_STAGE: u32 = 4;

pub const COMMITTED_STAGE: u32 = 5;

// The numbers of `active`: no active bank, one, and a beginning that was refused.
pub const NO_ACTIVE: u32 = 0;

pub const SOME_ACTIVE: u32 = 1;

pub const REFUSED_ACTIVE: u32 = 2;

// The numbers of answers.
pub const ANSWER_DONE: u32 = 0;

pub const ANSWER_APPENDED: u32 = 1;

pub const ANSWER_NONE_DUE: u32 = 2;

pub const ANSWER_SAME: u32 = 3;

pub const ANSWER_DIFFERENT: u32 = 4;

// The state of an update. The stage is one of TT_STAGE_..; first is the due erase's sector (0 is the header's), or the offset in the data
// of the due write or comparison, and second its length, without padding. Active is TT_ACTIVE_NONE or TT_ACTIVE_SOME; with another number,
// or another stage, calls meet 11. A flag is set if its number isn't 0. Written and fill are the bytes written and those in the tail.
#[repr(C)]
#[derive(Clone, Copy)]
pub struct State {
    pub stage: u32,
    pub first: u32,
    pub second: u32,
    pub active: u32,
    pub bank: Bank,
    pub now: i64,
    pub comparing: u32,
    pub written: u32,
    pub fill: u32,
    pub crc: u32,
    pub different: u32,
    pub closed: u32,
    pub tables: Tables,
    pub sources: [Source; SOURCES],
    pub tail: [u8; TAIL_SIZE],
}

fn stage_of(kind: u32, first: u32, second: u32) -> Stage
    ensures { result ≡ Saved.stage_of kind first second }
{
    if kind == ERASE_STAGE {
        return Stage::Due(Operation::Erase { sector: first });
    }
    if kind == WRITE_STAGE {
        return Stage::Due(Operation::Write {
            offset: first,
            length: second,
        });
    }
    if kind == COMPARE_STAGE {
        return Stage::Due(Operation::Compare {
            offset: first,
            length: second,
        });
    }
    if kind == HEADER_WRITTEN_STAGE {
        return Stage::HeaderWritten;
    }
    if kind == COMMITTED_STAGE {
        return Stage::Committed;
    }
    Stage::Idle
}

fn active_of(stage: u32, active: u32, bank: Bank) -> Result<Option<Bank>, Refusal>
    ensures { result ≡ Saved.active_of stage active bank }
{
    if (stage <= COMMITTED_STAGE) & (active <= SOME_ACTIVE) {
        if active == SOME_ACTIVE {
            return Ok(Some(bank));
        }
        return Ok(None);
    }
    Err(Refusal::Turn)
}

fn is_set(flag: u32) -> bool
    ensures { result ≡ Saved.is_set flag }
{
    !(flag == 0)
}

// What the beginning of a state's update fixed.
impl From<State> for Beginning {
    ghost from_gives = { λ s x. x ≡ (Saved.writer_of s).beginning };

    fn from(s: State) -> Beginning {
        let bank = s.bank;
        let active = active_of(s.stage, s.active, bank);
        Beginning {
            active,
            comparing: is_set(s.comparing),
            now: s.now,
        }
    }
}

// The parts of the writer that a state means.
impl From<State> for Parts {
    ghost from_gives = { λ s x. x ≡ parts_of (Saved.writer_of s) };

    fn from(s: State) -> Parts {
        let stage = stage_of(s.stage, s.first, s.second);
        let contents = Contents {
            written: s.written,
            fill: s.fill,
            crc: s.crc,
            different: is_set(s.different),
            closed: is_set(s.closed),
        };
        let tables = s.tables;
        Parts {
            stage,
            contents,
            tables,
        }
    }
}

// The writer that a state means.
impl From<State> for Writer {
    ghost from_gives = { λ s x. x ≡ Saved.writer_of s };

    fn from(s: State) -> Writer {
        let b = Beginning::from(s);
        let p = Parts::from(s);
        let sources = s.sources;
        let tail = s.tail;
        whole(b, p, sources, tail)
    }
}

// A stage's number and the two numbers of its operation.
#[derive(Clone, Copy)]
struct StageNumbers {
    kind: u32,
    first: u32,
    second: u32,
}

fn operation_numbers(o: Operation) -> StageNumbers
    ensures { result ≡ Saved.stage_numbers (Stages.Due o) }
{
    match o {
        Operation::Erase { sector } => StageNumbers {
            kind: ERASE_STAGE,
            first: sector,
            second: 0,
        },
        Operation::Write { offset, length } => StageNumbers {
            kind: WRITE_STAGE,
            first: offset,
            second: length,
        },
        Operation::Compare { offset, length } => StageNumbers {
            kind: COMPARE_STAGE,
            first: offset,
            second: length,
        },
    }
}

fn stage_numbers(s: Stage) -> StageNumbers
    ensures { result ≡ Saved.stage_numbers s }
{
    match s {
        Stage::Idle => StageNumbers {
            kind: IDLE_STAGE,
            first: 0,
            second: 0,
        },
        Stage::Due(o) => operation_numbers(o),
        Stage::HeaderWritten => StageNumbers {
            kind: HEADER_WRITTEN_STAGE,
            first: 0,
            second: 0,
        },
        Stage::Committed => StageNumbers {
            kind: COMMITTED_STAGE,
            first: 0,
            second: 0,
        },
    }
}

fn active_kind(l: Result<Option<Bank>, Refusal>) -> u32
    ensures { result ≡ Saved.active_kind l }
{
    match l {
        Ok(Some(_)) => SOME_ACTIVE,
        Ok(None) => NO_ACTIVE,
        Err(_) => REFUSED_ACTIVE,
    }
}

fn no_bank() -> Bank
    ensures { result ≡ Saved.no_bank }
{
    Bank {
        number: 0,
        version: 0,
        generation: 0,
        length: 0,
        crc: 0,
        count: 0,
        key: 0,
        checked: 0,
    }
}

fn bank_in(l: Result<Option<Bank>, Refusal>) -> Bank
    ensures { result ≡ Saved.bank_in l }
{
    let Ok(Some(b)) = l else {
        return no_bank();
    };
    b
}

fn flag(b: bool) -> u32
    ensures { result ≡ Saved.flag b }
{
    if b { 1 } else { 0 }
}

// The state of a writer, passed in its parts.
fn state_with(b: Beginning, p: Parts, sources: [Source; SOURCES], tail: [u8; TAIL_SIZE]) -> State
    ensures { result ≡ Saved.saved_of (whole_of b p sources tail) }
{
    let t = p.contents;
    let stage = p.stage;
    let n = stage_numbers(stage);
    let loaded = b.active;
    let active = active_kind(loaded);
    let bank = bank_in(loaded);
    let tables = p.tables;
    State {
        stage: n.kind,
        first: n.first,
        second: n.second,
        active,
        bank,
        now: b.now,
        comparing: flag(b.comparing),
        written: t.written,
        fill: t.fill,
        crc: t.crc,
        different: flag(t.different),
        closed: flag(t.closed),
        tables,
        sources,
        tail,
    }
}

// The state of a writer.
impl From<Writer> for State {
    ghost from_gives = { λ w x. x ≡ Saved.saved_of w };

    fn from(w: Writer) -> State {
        let b = w.beginning;
        let p = writer::parts_of(w);
        let sources = w.sources;
        let tail = w.tail;
        state_with(b, p, sources, tail)
    }
}

// What a call of an update answers: answer is one of TT_ANSWER_.., count the number of bytes appended.
#[repr(C)]
#[derive(Clone, Copy)]
pub struct UpdateNumbers {
    pub refusal: u32,
    pub answer: u32,
    pub count: u32,
}

// What a call of an update gives back: its answer, and the state for the next call.
#[repr(C)]
#[derive(Clone, Copy)]
pub struct UpdateStep {
    pub numbers: UpdateNumbers,
    pub state: State,
}

fn done(answer: u32, count: u32) -> UpdateNumbers
    ensures { result ≡ Answers.done answer count }
{
    UpdateNumbers {
        refusal: 0,
        answer,
        count,
    }
}

fn refused(r: u32) -> UpdateNumbers
    ensures { result ≡ Answers.refused r }
{
    UpdateNumbers {
        refusal: r,
        answer: 0,
        count: 0,
    }
}

impl From<Result<Answer, Refusal>> for UpdateNumbers {
    ghost from_gives = { λ a x. x ≡ Answers.of_answer a };

    fn from(a: Result<Answer, Refusal>) -> UpdateNumbers {
        match a {
            Ok(Answer::Done) => done(ANSWER_DONE, 0),
            Ok(Answer::Appended(n)) => done(ANSWER_APPENDED, n),
            Ok(Answer::NoneDue) => done(ANSWER_NONE_DUE, 0),
            Ok(Answer::Same) => done(ANSWER_SAME, 0),
            Ok(Answer::Different) => done(ANSWER_DIFFERENT, 0),
            Err(r) => refused(number_u32(r)),
        }
    }
}

// Whether a call was answered.
fn is_answer(a: Result<Answer, Refusal>) -> bool
    ensures { result ≡ Answers.is_answer a }
{
    match a {
        Ok(Answer::Done) => true,
        Ok(Answer::Appended(_)) => true,
        Ok(Answer::NoneDue) => true,
        Ok(Answer::Same) => true,
        Ok(Answer::Different) => true,
        Err(_) => false,
    }
}

// The state after a call on its parts, with its own sources and tail; unchanged on a refusal.
fn state_after(answer: Result<Answer, Refusal>, b: Beginning, p: Parts, state: State) -> State
    ensures { result ≡ pick (Answers.is_answer answer) (Saved.saved_of (whole_of b p state.sources state.tail)) state }
{
    if is_answer(answer) {
        let sources = state.sources;
        let tail = state.tail;
        return state_with(b, p, sources, tail);
    }
    state
}

// What a call on a state's parts gives back. Sources and tail are those that the call left, which on a refusal are the state's own: not
// choosing between them saves copies.
pub fn after_parts(
    b: Beginning,
    s: PartsStep,
    sources: [Source; SOURCES],
    tail: [u8; TAIL_SIZE],
    state: State,
) -> UpdateStep
    ensures { result ≡ Answers.after_parts b s sources tail state }
{
    let a = s.answer;
    let p = s.parts;
    let numbers = UpdateNumbers::from(a);
    let mut v = state_after(a, b, p, state);
    v.sources = sources;
    v.tail = tail;
    UpdateStep { numbers, state: v }
}

// What a call on a state gives back; on a refusal the state is unchanged. Inlined, so that neither the step nor the state is copied for a call.
#[inline(always)]
pub fn after(s: Step, state: State) -> UpdateStep
    ensures { result ≡ Answers.after s state }
{
    let a = s.answer;
    let numbers = UpdateNumbers::from(a);
    if is_answer(a) {
        let w = s.writer;
        let v = State::from(w);
        return UpdateStep { numbers, state: v };
    }
    UpdateStep { numbers, state }
}

// What holds of states as numbers. The function does nothing: its contract is what is proved of the definitions
// (specs/Claims.antt).
pub fn states_hold()
    ensures { Claims }
{}
