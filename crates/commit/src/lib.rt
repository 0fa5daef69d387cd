// The lower layer's commit, in two calls.
#![tactic(auto)]

pub mod unchanged;

ghost use Rattle.std.specs.Prelude.{◌≡◌, ◌&&◌, ◌∷◌, [], ◌≤◌, length, take};
ghost use Rattle.std.specs.Int.Signed.{le_z};
ghost use Rattle.base.specs.Number.{pick};
ghost use Rattle.header.specs.WriteHeader.{header_bytes, blank_word, commit_bytes};
ghost use Rattle.flash.specs.Flash.{write as writing, performed};
ghost use Rattle.writer.specs.declared.Stage.TheVariants as Stages;
ghost use Rattle.writer.specs.State as State;
ghost use Rattle.due.specs.Due as Due;
ghost use Rattle.commit.specs.Commit as Commit;
ghost use Rattle.header.specs.Header.{commit_offset};
ghost use Rattle.region.specs.Region.{region_size, last_bank};

use flash::write;
use header::write::{commit_bytes, fit, header_bytes};
use header::{Bank, COMMIT_OFFSET, SOURCES};
use leaf::generation::next;
use record::{DATES_SIZE_32, Source, VERSION};
use refusal::Refusal;
use region::REGION_SIZE;
use writer::{Stage, Step, Writer, did, in_range, stays, target};

pub fn is_idle(s: Stage) -> bool
    ensures { result ≡ Commit.is_idle s }
{
    matches!(s, Stage::Idle)
}

fn with_header_written(w: Writer) -> Writer
    ensures { result ≡ Due.with_stage w Stages.HeaderWritten }
{
    Writer {
        stage: Stage::HeaderWritten,
        ..w
    }
}

fn later(s: i64, at: i64) -> i64
    ensures { result ≡ pick (le_z at s) s at }
{
    s.max(at)
}

fn checked_time(stamp: Option<i64>, at: i64) -> i64
    ensures { result ≡ Commit.checked_time stamp at }
{
    match stamp {
        Some(s) => later(s, at),
        None => at,
    }
}

#[tactic(auto, unfolding(writer::specs::State::next_generation))]
fn next_generation(l: Result<Option<Bank>, Refusal>) -> u32
    ensures { result ≡ State.next_generation l }
{
    match l {
        Ok(Some(b)) => next(b.generation),
        Ok(None) => 0,
        Err(_) => 0,
    }
}

pub fn routes_offset(ss: [Source; SOURCES]) -> u32
    ensures { result ≡ Commit.routes_offset ss }
{
    let s = ss[0];
    let b = s.tables[0];
    b.offset
}

pub fn key_length(offset: u32) -> u32
    ensures { result ≡ State.key_length offset }
{
    if offset < DATES_SIZE_32 {
        0
    } else {
        offset - DATES_SIZE_32
    }
}

// The bank to be committed.
fn bank_for(w: Writer, stamp: Option<i64>) -> Bank
    ensures { result ≡ Commit.bank_for w stamp }
{
    let b = w.beginning;
    let l = b.active;
    let t = w.contents;
    Bank {
        number: target(l),
        version: VERSION,
        generation: next_generation(l),
        length: t.written,
        crc: t.crc,
        count: w.tables.count,
        key: key_length(routes_offset(w.sources)),
        checked: checked_time(stamp, b.now),
    }
}

fn may_commit(w: Writer) -> bool
    ensures { result ≡ Commit.may_commit w }
{
    in_range(w) & (w.contents.closed & is_idle(w.stage))
}

fn is_current(w: Writer, current: bool) -> bool
    ensures { result ≡ Commit.is_current w current }
{
    !w.beginning.comparing & current
}

fn write_header(w: Writer, region: &mut [u8], b: Bank) -> Step
    requires { (length region.old ≡ region_size) × (b.number ≤ last_bank) }
    ensures { (result ≡ State.did (Due.with_stage w Stages.HeaderWritten)) × (region.new ≡ performed b.number (writing 0 (header_bytes b (take b.count w.sources) blank_word) ∷ []) region.old) }
{
    let bytes = header_bytes(b, w.sources);
    write(region, b.number, 0, &bytes);
    let v = with_header_written(w);
    did(v)
}

// The first call of a commit: writes the header, 255 in the commit word.
pub fn commit(w: Writer, region: &mut [u8], stamp: Option<i64>, current: bool) -> Step
    ensures { (result ≡ Commit.commit_step region.old w stamp current) × (region.new ≡ Commit.commit_region region.old w stamp current) }
{
    if region.len() != REGION_SIZE {
        return stays(w, Refusal::Region);
    }
    if !may_commit(w) {
        return stays(w, Refusal::Turn);
    }
    if !is_current(w, current) {
        return stays(w, Refusal::Obsolete);
    }
    let b = bank_for(w, stamp);
    if !fit(b, w.sources) {
        return stays(w, Refusal::Unfit);
    }
    write_header(w, region, b)
}

fn is_header_written(s: Stage) -> bool
    ensures { result ≡ Commit.is_header_written s }
{
    matches!(s, Stage::HeaderWritten)
}

fn committed(w: Writer) -> Writer
    ensures { result ≡ Due.with_stage w Stages.Committed }
{
    Writer {
        stage: Stage::Committed,
        ..w
    }
}

fn may_write_word(w: Writer) -> bool
    ensures { result ≡ (State.in_range w && Commit.is_header_written w.stage) }
{
    in_range(w) & is_header_written(w.stage)
}

fn write_word(w: Writer, region: &mut [u8]) -> Step
    requires { length region.old ≡ region_size }
    ensures { (result ≡ State.did (Due.with_stage w Stages.Committed)) × (region.new ≡ performed (State.target w.beginning.active) (writing commit_offset commit_bytes ∷ []) region.old) }
{
    let bank = target(w.beginning.active);
    let word = commit_bytes();
    write(region, bank, COMMIT_OFFSET, &word);
    let v = committed(w);
    did(v)
}

// The second call of a commit: writes the commit word.
pub fn commit_word(w: Writer, region: &mut [u8]) -> Step
    ensures { (result ≡ Commit.word_step region.old w) × (region.new ≡ Commit.word_region region.old w) }
{
    if region.len() != REGION_SIZE {
        return stays(w, Refusal::Region);
    }
    if !may_write_word(w) {
        return stays(w, Refusal::Turn);
    }
    write_word(w, region)
}
