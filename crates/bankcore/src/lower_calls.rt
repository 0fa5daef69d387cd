// An update's lower calls: each does one flash operation at most. The state is passed by value, as numbers; any numbers are allowed.
ghost use Rattle.std.specs.Prelude.{◌≡◌};
ghost use Rattle.record.specs.Record.{decoded, current_version};
ghost use Rattle.lower.specs.Lower as Lower;
ghost use Rattle.due.specs.Due as Due;
ghost use Rattle.commit.specs.Commit as Commit;
ghost use Rattle.commit.specs.Unchanged as Unchanged;
ghost use Rattle.cstate.specs.State.{writer_of};
ghost use Rattle.cstate.specs.Answers as Answers;
ghost use Rattle.bankcore.specs.Stamp.{stamp_of};
ghost use Rattle.bankcore.specs.Operation as Operations;
ghost use Rattle.bankcore.specs.Claims.{Claims};

use cstate::{State, UpdateStep, after, after_parts};
use due::due_parts;
use header::{Bank, COMMIT_OFFSET, HEADER_SIZE};
use leaf::bytes::WORD_SIZE;
use lower::append::append_parts;
use lower::begin::close_parts;
use lower::source::{source_parts, sources_with};
use lower::table::{end_parts, sources_ended, table_parts};
use record::{VERSION, decode};
use refusal::{Refusal, number_u32};
use region::{SECTOR_SIZE, WRITE_UNIT};
use writer::{
    Beginning, Contents, Operation, Parts, Stage, Writer, is_done, parts_in_range, target,
};

// The numbers of an update's operations.
pub const OPERATION_NONE: u32 = 0;

pub const OPERATION_ERASE: u32 = 1;

pub const OPERATION_WRITE: u32 = 2;

pub const OPERATION_COMPARE: u32 = 3;

pub const OPERATION_HEADER: u32 = 4;

pub const OPERATION_COMMIT_WORD: u32 = 5;

// An operation of an update, by its kind (TT_OPERATION_..): on bytes of a bank, from an offset of the bank on. An erase, a write, the
// header and the commit word are flash operations on the bank that isn't active; a write's length is with its padding. A comparison reads
// the active bank, bank 0 if there is none, and does nothing to the chip.
#[repr(C)]
#[derive(Clone, Copy)]
pub struct OperationNumbers {
    pub refusal: u32,
    pub kind: u32,
    pub bank: u32,
    pub offset: usize,
    pub length: usize,
}

// Begins an update: loads the region. It appends no key. Refused, it gives back the state that it was passed.
//   region: the region, TT_REGION_SIZE bytes
//   comparing: whether the update is compared with the active bank, and nothing is written
//   at: the time now; the checked time of the bank, unless the commit has a later stamp
//   state: the last update's, which the new one replaces, or TT_STATE_INIT
//   refusals: 1
#[unsafe(no_mangle)]
pub extern "C" fn tt_update_begin(
    region: &[u8],
    comparing: bool,
    at: i64,
    state: State,
) -> UpdateStep
    ensures { result ≡ Answers.after (Lower.begun region.now comparing at) state }
{
    let s = lower::begin::begin(region, comparing, at);
    after(s, state)
}

// Begins a source, at most TT_SOURCES in an update. Its blocks start as zero.
//   state: the update's
//   bytes: its record, TT_RECORD_SIZE bytes; missing ones are 0, further ones ignored
//   refusals: 11, 10
#[unsafe(no_mangle)]
pub extern "C" fn tt_update_source(state: State, bytes: &[u8]) -> UpdateStep
    ensures { result ≡ Answers.after (Lower.source_step (writer_of state) (decoded current_version bytes.now)) state }
{
    let r = decode(bytes, VERSION);
    let b = Beginning::from(state);
    let p = Parts::from(state);
    let s = source_parts(b, p);
    let answer = s.answer;
    let old = state.sources;
    let sources = sources_with(is_done(answer), old, p.tables, r);
    let tail = state.tail;
    after_parts(b, s, sources, tail, state)
}

// Begins a table of the last source; the first one of the first source is routes.
//   state: the update's
//   table: TT_TABLE_ROUTES to TT_TABLE_TRANSFERS
//   refusals: 2, 11
#[unsafe(no_mangle)]
pub extern "C" fn tt_update_table(state: State, table: u32) -> UpdateStep
    ensures { result ≡ Answers.after (Lower.table_step (writer_of state) table) state }
{
    let b = Beginning::from(state);
    let p = Parts::from(state);
    let s = table_parts(b, p, table);
    let sources = state.sources;
    let tail = state.tail;
    after_parts(b, s, sources, tail, state)
}

// Appends bytes until the tail is full, and gives how many were appended as count; 0 while an operation is due. Pass the others again
// after tt_update_due.
//   state: the update's
//   bytes: the bytes; all of them count for refusal 10
//   refusals: 11, 10
#[unsafe(no_mangle)]
pub extern "C" fn tt_update_bytes(state: State, bytes: &[u8]) -> UpdateStep
    ensures { result ≡ Answers.after (Lower.bytes_step (writer_of state) bytes.now) state }
{
    let b = Beginning::from(state);
    let p = Parts::from(state);
    let mut tail = state.tail;
    let s = append_parts(b, p, &mut tail, bytes);
    let sources = state.sources;
    after_parts(b, s, sources, tail, state)
}

// Ends the open table.
//   state: the update's
//   refusals: 11
#[unsafe(no_mangle)]
pub extern "C" fn tt_update_end(state: State) -> UpdateStep
    ensures { result ≡ Answers.after (Lower.end_step (writer_of state)) state }
{
    let b = Beginning::from(state);
    let p = Parts::from(state);
    let e = end_parts(b, p);
    let s = e.step;
    let answer = s.answer;
    let old = state.sources;
    let sources = sources_ended(is_done(answer), old, p.tables, e.block);
    let tail = state.tail;
    after_parts(b, s, sources, tail, state)
}

// Closes the update: no more bytes. Those in the tail are then due.
//   state: the update's
//   refusals: 11
#[unsafe(no_mangle)]
pub extern "C" fn tt_update_close(state: State) -> UpdateStep
    ensures { result ≡ Answers.after (Lower.close_step (writer_of state)) state }
{
    let b = Beginning::from(state);
    let p = Parts::from(state);
    let s = close_parts(b, p);
    let sources = state.sources;
    let tail = state.tail;
    after_parts(b, s, sources, tail, state)
}

// Does the erase, write or comparison that is due, or answers TT_ANSWER_NONE_DUE.
//   region: the region, TT_REGION_SIZE bytes
//   state: the update's
//   refusals: 1, 11
#[unsafe(no_mangle)]
pub extern "C" fn tt_update_due(region: &mut [u8], state: State) -> UpdateStep
    ensures value { result ≡ Answers.after (Due.due_step region.old (writer_of state)) state }
    ensures region_after { region.new ≡ Due.due_region region.old (writer_of state) }
{
    let b = Beginning::from(state);
    let p = Parts::from(state);
    let tail = state.tail;
    let s = due_parts(b, p, &tail, region);
    let sources = state.sources;
    after_parts(b, s, sources, tail, state)
}

fn no_operation(refusal: u32) -> OperationNumbers
    ensures { result ≡ Operations.no_operation refusal }
{
    OperationNumbers {
        refusal,
        kind: OPERATION_NONE,
        bank: 0,
        offset: 0,
        length: 0,
    }
}

// The bank that is compared with; 0 with no active bank.
#[tactic(auto, unfolding(crate::specs::Operation::compared))]
fn compared(l: Result<Option<Bank>, Refusal>) -> u32
    ensures { result ≡ Operations.compared l }
{
    match l {
        Ok(Some(b)) => b.number,
        Ok(None) => 0,
        Err(_) => 0,
    }
}

// n rounded up to a multiple of the write unit.
fn padded_length(n: u32) -> usize
    ensures { result ≡ Operations.padded_length n }
{
    let m = n as usize;
    m + (WRITE_UNIT - m % WRITE_UNIT) % WRITE_UNIT
}

fn due_operation(l: Result<Option<Bank>, Refusal>, o: Operation) -> OperationNumbers
    ensures { result ≡ Operations.due_operation l o }
{
    match o {
        Operation::Erase { sector } => OperationNumbers {
            refusal: 0,
            kind: OPERATION_ERASE,
            bank: target(l),
            offset: sector as usize * SECTOR_SIZE,
            length: SECTOR_SIZE,
        },
        Operation::Write { offset, length } => OperationNumbers {
            refusal: 0,
            kind: OPERATION_WRITE,
            bank: target(l),
            offset: SECTOR_SIZE + offset as usize,
            length: padded_length(length),
        },
        Operation::Compare { offset, length } => OperationNumbers {
            refusal: 0,
            kind: OPERATION_COMPARE,
            bank: compared(l),
            offset: SECTOR_SIZE + offset as usize,
            length: length as usize,
        },
    }
}

// With nothing due: a closed update that isn't compared is committed next.
fn idle_operation(b: Beginning, t: Contents) -> OperationNumbers
    ensures { result ≡ Operations.idle_operation b t }
{
    let l = b.active;
    if t.closed & !b.comparing {
        return OperationNumbers {
            refusal: 0,
            kind: OPERATION_HEADER,
            bank: target(l),
            offset: 0,
            length: HEADER_SIZE,
        };
    }
    no_operation(0)
}

fn word_operation(l: Result<Option<Bank>, Refusal>) -> OperationNumbers
    ensures { result ≡ Operations.word_operation l }
{
    OperationNumbers {
        refusal: 0,
        kind: OPERATION_COMMIT_WORD,
        bank: target(l),
        offset: COMMIT_OFFSET,
        length: WORD_SIZE,
    }
}

fn next_operation(b: Beginning, t: Contents, s: Stage) -> OperationNumbers
    ensures { result ≡ Operations.next_operation b t s }
{
    let l = b.active;
    match s {
        Stage::Idle => idle_operation(b, t),
        Stage::Due(o) => due_operation(l, o),
        Stage::HeaderWritten => word_operation(l),
        Stage::Committed => no_operation(0),
    }
}

// The operation that comes next, for a driver that does it on a chip: what tt_update_due does; else, once an update that isn't compared is
// closed, the header that tt_update_commit writes unless it is refused, then the commit word that tt_update_commit_word writes; else none.
//   state: the update's
//   refusals: 11
#[unsafe(no_mangle)]
pub extern "C" fn tt_update_operation(state: State) -> OperationNumbers
    ensures { result ≡ Operations.operation_of (writer_of state) }
{
    let b = Beginning::from(state);
    let p = Parts::from(state);
    let t = p.contents;
    let x = p.tables;
    let s = p.stage;
    if !parts_in_range(b, t, x, s) {
        return no_operation(number_u32(Refusal::Turn));
    }
    next_operation(b, t, s)
}

// Whether the update that was compared is the same as the active bank: TT_ANSWER_SAME or TT_ANSWER_DIFFERENT.
//   region: the region, TT_REGION_SIZE bytes
//   state: the update's, closed, with nothing due
//   refusals: 1, 11
#[unsafe(no_mangle)]
pub extern "C" fn tt_update_unchanged(region: &[u8], state: State) -> UpdateStep
    ensures { result ≡ Answers.after (Unchanged.unchanged_step region.now (writer_of state)) state }
{
    let s = commit::unchanged::unchanged(Writer::from(state), region);
    after(s, state)
}

fn stamp_of(stamped: bool, stamp: i64) -> Option<i64>
    ensures { result ≡ stamp_of stamped stamp }
{
    if stamped {
        return Some(stamp);
    }
    None
}

// The first write of a commit: the header, with 255 in the commit word.
//   region: the region, TT_REGION_SIZE bytes
//   state: the update's, closed, with nothing due
//   stamped: whether there is a stamp
//   stamp: the checked time, if it is after the time of the beginning; ignored unless stamped
//   current: whether the update is still wanted; refusal 12 if not
//   refusals: 1, 11, 12, 13
#[unsafe(no_mangle)]
pub extern "C" fn tt_update_commit(
    region: &mut [u8],
    state: State,
    stamped: bool,
    stamp: i64,
    current: bool,
) -> UpdateStep
    ensures value { result ≡ Answers.after (Commit.commit_step region.old (writer_of state) (stamp_of stamped stamp) current) state }
    ensures region_after { region.new ≡ Commit.commit_region region.old (writer_of state) (stamp_of stamped stamp) current }
{
    let m = stamp_of(stamped, stamp);
    let s = commit::commit(Writer::from(state), region, m, current);
    after(s, state)
}

// The second write of a commit: the commit word. From then on load gives the new bank.
//   region: the region, TT_REGION_SIZE bytes
//   state: the update's, after tt_update_commit
//   refusals: 1, 11
#[unsafe(no_mangle)]
pub extern "C" fn tt_update_commit_word(region: &mut [u8], state: State) -> UpdateStep
    ensures value { result ≡ Answers.after (Commit.word_step region.old (writer_of state)) state }
    ensures region_after { region.new ≡ Commit.word_region region.old (writer_of state) }
{
    let s = commit::commit_word(Writer::from(state), region);
    after(s, state)
}

// What holds of the next operation. The function does nothing: its contract is what is proved of the definitions
// (specs/Claims.antt).
pub fn operations_hold()
    ensures { Claims }
{}
