// The lower layer's due call: does one erase, write or comparison, or answers that none is due.
#![tactic(auto)]

ghost use Rattle.std.specs.Prelude.{◌≡◌, true, List, [], ◌++◌, ℕ, ◌+◌, ◌-◌, ◌%◌, ◌≤◌, eqb, length, take, Ok, Some};
ghost use Rattle.base.specs.Number.{pick};
ghost use Rattle.base.specs.Lists.{fill};
ghost use Rattle.record.specs.declared.Source.{Source};
ghost use Rattle.flash.specs.Flash.{written_in, performed};
ghost use Rattle.writer.specs.declared.Answer.TheVariants as Answers;
ghost use Rattle.writer.specs.declared.Beginning.{Beginning};
ghost use Rattle.writer.specs.declared.Operation.TheVariants as Operations;
ghost use Rattle.writer.specs.declared.Stage.TheVariants as Stages;
ghost use Rattle.writer.specs.State as State;
ghost use Rattle.writer.specs.Parts.{whole_of, step_with};
ghost use Rattle.due.specs.Due as Due;
ghost use Rattle.region.specs.Region.{region_size, capacity, sector_size, last_sector, erased_byte, write_unit};
ghost use Rattle.writer.specs.State.{tail_size, last_write};

use base::slice::{part, same_bytes};
use flash::{erase, write};
use header::Bank;
use refusal::Refusal;
use region::{ERASED_BYTE, REGION_SIZE, SECTOR_SIZE, WRITE_UNIT, bank_of};
use writer::{
    Answer, Beginning, Contents, Operation, Parts, PartsStep, Stage, Step, TAIL_SIZE, Writer,
    data_due, parts_did, parts_in_range, parts_of, parts_stay, step_with, target,
};

// The tail's first n bytes, and erased bytes after them.
fn filled(tail: &[u8], n: usize) -> [u8; TAIL_SIZE]
    requires { (length tail.now ≡ tail_size) × (n ≤ tail_size) }
    ensures { result ≡ take n tail.now ++ fill erased_byte (tail_size - n) }
{
    let mut t = [ERASED_BYTE; TAIL_SIZE];
    t[..n].copy_from_slice(&tail[..n]);
    t
}

// n rounded up to a multiple of the write unit.
fn padded_length(n: usize) -> usize
    requires { n ≤ tail_size }
    ensures { (result ≡ n + (write_unit - n % write_unit) % write_unit) × (result ≤ tail_size) }
{
    n + (WRITE_UNIT - n % WRITE_UNIT) % WRITE_UNIT
}

// Writes the tail's first n bytes, padded, at an offset of the data.
fn write_tail(region: &mut [u8], bank: u32, tail: &[u8; TAIL_SIZE], a: u32, n: u32)
    requires { n ≤ tail_size }
    ensures { region.new ≡ written_in region.old bank (sector_size + a) (Due.padded (take n tail.now)) }
{
    let e = n as usize;
    let all: &[u8] = tail;
    if e % WRITE_UNIT == 0 {
        let bytes = &all[0..e];
        write(region, bank, SECTOR_SIZE + a as usize, bytes);
        return;
    }
    let t = filled(all, e);
    let m = padded_length(e);
    let bytes = &t[0..m];
    write(region, bank, SECTOR_SIZE + a as usize, bytes);
}

fn differs_from(region: &[u8], b: Bank, t: Contents, tail: &[u8; TAIL_SIZE]) -> bool
    requires { t.fill ≤ tail_size }
    ensures { result ≡ Due.differs region.now (Ok (Some b)) t tail.now }
{
    let n = t.fill as usize;
    let l = bank_of(region, b.number);
    let stored = part(l, SECTOR_SIZE + t.written as usize, n);
    let all: &[u8] = tail;
    let held = &all[0..n];
    !(t.written as u64 + t.fill as u64 <= b.length as u64) | !same_bytes(stored, held)
}

#[tactic(auto, unfolding(crate::specs::Due::differs))]
fn differs(
    region: &[u8],
    l: Result<Option<Bank>, Refusal>,
    t: Contents,
    tail: &[u8; TAIL_SIZE],
) -> bool
    requires { t.fill ≤ tail_size }
    ensures { result ≡ Due.differs region.now l t tail.now }
{
    match l {
        Ok(Some(b)) => differs_from(region, b, t, tail),
        Ok(None) => true,
        Err(_) => true,
    }
}

fn with_emptied(p: Parts, different: bool) -> Parts
    requires { State.position p.contents ≤ capacity }
    ensures { (b : Beginning) (ss : List Source) (tail : List ℕ) → whole_of b result ss tail ≡ Due.with_emptied (whole_of b p ss tail) different }
{
    let t = p.contents;
    let contents = Contents {
        written: t.written + t.fill,
        fill: 0,
        different,
        ..t
    };
    Parts {
        stage: Stage::Idle,
        contents,
        ..p
    }
}

// The operation that is due after an erase.
fn next_due(t: Contents, sector: u32) -> Operation
    ensures { result ≡ pick (eqb sector 0) (State.data_due t) (State.write_due t) }
{
    if sector == 0 {
        return data_due(t);
    }
    Operation::Write {
        offset: t.written,
        length: t.fill,
    }
}

fn after_erase(p: Parts, sector: u32) -> Parts
    ensures { (b : Beginning) (ss : List Source) (tail : List ℕ) → whole_of b result ss tail ≡ Due.with_stage (whole_of b p ss tail) (Stages.Due (pick (eqb sector 0) (State.data_due p.contents) (State.write_due p.contents))) }
{
    let o = next_due(p.contents, sector);
    Parts {
        stage: Stage::Due(o),
        ..p
    }
}

fn do_erase(b: Beginning, p: Parts, region: &mut [u8], sector: u32) -> PartsStep
    requires { (length region.old ≡ region_size) × (sector ≤ last_sector) }
    ensures { ((ss : List Source) (tail : List ℕ) → step_with b result ss tail ≡ State.did (Due.operated region.old (whole_of b p ss tail) (Operations.Erase sector))) × (region.new ≡ performed (State.target b.active) (Due.ops_of [] (Stages.Due (Operations.Erase sector))) region.old) }
{
    let bank = target(b.active);
    erase(region, bank, sector as usize * SECTOR_SIZE);
    let v = after_erase(p, sector);
    parts_did(v)
}

fn do_write(
    b: Beginning,
    p: Parts,
    tail: &[u8; TAIL_SIZE],
    region: &mut [u8],
    offset: u32,
    n: u32,
) -> PartsStep
    requires { (length region.old ≡ region_size) × (n ≤ tail_size) × (offset ≤ last_write) × (State.position p.contents ≤ capacity) }
    ensures { ((ss : List Source) → step_with b result ss tail.now ≡ State.did (Due.operated region.old (whole_of b p ss tail.now) (Operations.Write offset n))) × (region.new ≡ performed (State.target b.active) (Due.ops_of tail.now (Stages.Due (Operations.Write offset n))) region.old) }
{
    let bank = target(b.active);
    write_tail(region, bank, tail, offset, n);
    let v = with_emptied(p, p.contents.different);
    parts_did(v)
}

fn do_compare(
    b: Beginning,
    p: Parts,
    tail: &[u8; TAIL_SIZE],
    region: &[u8],
    offset: u32,
    n: u32,
) -> PartsStep
    requires { (p.contents.fill ≤ tail_size) × (State.position p.contents ≤ capacity) }
    ensures { (ss : List Source) → step_with b result ss tail.now ≡ State.did (Due.operated region.now (whole_of b p ss tail.now) (Operations.Compare offset n)) }
{
    let l = b.active;
    let t = p.contents;
    let different = t.different | differs(region, l, t, tail);
    let v = with_emptied(p, different);
    parts_did(v)
}

fn operate(
    b: Beginning,
    p: Parts,
    tail: &[u8; TAIL_SIZE],
    region: &mut [u8],
    o: Operation,
) -> PartsStep
    requires { (length region.old ≡ region_size) × (State.in_range (whole_of b p [] []) ≡ true) × (p.stage ≡ Stages.Due o) }
    ensures { ((ss : List Source) → step_with b result ss tail.now ≡ State.did (Due.operated region.old (whole_of b p ss tail.now) o)) × (region.new ≡ performed (State.target b.active) (Due.ops_of tail.now (Stages.Due o)) region.old) }
{
    match o {
        Operation::Erase { sector } => do_erase(b, p, region, sector),
        Operation::Write { offset, length } => do_write(b, p, tail, region, offset, length),
        Operation::Compare { offset, length } => do_compare(b, p, tail, region, offset, length),
    }
}

fn none_due(p: Parts) -> PartsStep
    ensures { result ≡ record { answer = Ok Answers.NoneDue; parts = p } }
{
    PartsStep {
        answer: Ok(Answer::NoneDue),
        parts: p,
    }
}

fn in_stage(b: Beginning, p: Parts, tail: &[u8; TAIL_SIZE], region: &mut [u8]) -> PartsStep
    requires { (length region.old ≡ region_size) × (State.in_range (whole_of b p [] []) ≡ true) }
    ensures { ((ss : List Source) → step_with b result ss tail.now ≡ Due.step_of region.old (whole_of b p ss tail.now) p.stage) × (region.new ≡ performed (State.target b.active) (Due.ops_of tail.now p.stage) region.old) }
{
    match p.stage {
        Stage::Due(o) => operate(b, p, tail, region, o),
        Stage::Idle => none_due(p),
        Stage::HeaderWritten => none_due(p),
        Stage::Committed => none_due(p),
    }
}

// Does the operation that is due, one a call; the tail is only read.
pub fn due_parts(b: Beginning, p: Parts, tail: &[u8; TAIL_SIZE], region: &mut [u8]) -> PartsStep
    ensures { (ss : List Source) → (step_with b result ss tail.now ≡ Due.due_step region.old (whole_of b p ss tail.now)) × (region.new ≡ Due.due_region region.old (whole_of b p ss tail.now)) }
{
    if region.len() != REGION_SIZE {
        return parts_stay(p, Refusal::Region);
    }
    if !parts_in_range(b, p.contents, p.tables, p.stage) {
        return parts_stay(p, Refusal::Turn);
    }
    in_stage(b, p, tail, region)
}

// Does the operation that is due, one a call, on a whole state, of which the theorems speak; due_parts does the work, on what C lends.
pub fn due(w: Writer, region: &mut [u8]) -> Step
    ensures { (result ≡ Due.due_step region.old w) × (region.new ≡ Due.due_region region.old w) }
{
    let b = w.beginning;
    let p = parts_of(w);
    let tail = w.tail;
    let s = due_parts(b, p, &tail, region);
    step_with(b, s, w.sources, tail)
}
