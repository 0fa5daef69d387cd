// The lower layer's call `unchanged`: whether the update is the same as the active bank.
ghost use Rattle.std.specs.Prelude.{◌≡◌, ◌≤◌, take, Ok};
ghost use Rattle.base.specs.Number.{pick};
ghost use Rattle.header.specs.Header.{records_of, max_sources};
ghost use Rattle.writer.specs.declared.Answer.TheVariants as Answers;
ghost use Rattle.commit.specs.Unchanged as Unchanged;

use crate::{is_idle, key_length, routes_offset};
use header::{Bank, RECORDS_OFFSET, SOURCES, record_at};
use record::{Source, source_size};
use refusal::Refusal;
use region::{REGION_SIZE, bank_of};
use writer::{Answer, Step, Writer, in_range, stays};

// Whether dates and blocks are equal.
fn same_source(a: Source, b: Source) -> bool
    ensures { result ≡ Unchanged.same_source a b }
{
    (a.start == b.start) & ((a.end == b.end) & (a.tables == b.tables))
}

// Whether the first n sources have the dates and blocks of a bank's first n records.
fn same_sources(ss: [Source; SOURCES], n: usize, l: &[u8], version: u32) -> bool
    requires { n ≤ max_sources }
    ensures { result ≡ Unchanged.same_each Unchanged.same_source (take n ss) (records_of version l.now n) }
{
    let size = source_size(version);
    (0..n).all(|i| same_source(ss[i], record_at(l, version, RECORDS_OFFSET + i * size)))
}

fn same_bank(region: &[u8], w: Writer, b: Bank) -> bool
    requires { w.tables.count ≤ max_sources }
    ensures { result ≡ Unchanged.same_bank region.now w b }
{
    let t = w.contents;
    let x = w.tables;
    let ss = w.sources;
    let l = bank_of(region, b.number);
    let key = key_length(routes_offset(ss));
    let sources = same_sources(ss, x.count as usize, l, b.version);
    !t.different & ((t.written == b.length) & ((x.count == b.count) & ((key == b.key) & sources)))
}

#[tactic(auto, unfolding(crate::specs::Unchanged::is_unchanged))]
fn is_unchanged(region: &[u8], w: Writer, l: Result<Option<Bank>, Refusal>) -> bool
    requires { w.tables.count ≤ max_sources }
    ensures { result ≡ Unchanged.is_unchanged region.now w l }
{
    match l {
        Ok(Some(b)) => same_bank(region, w, b),
        Ok(None) => false,
        Err(_) => false,
    }
}

fn may_ask(w: Writer) -> bool
    ensures { result ≡ Unchanged.may_ask w }
{
    in_range(w) & (w.beginning.comparing & (w.contents.closed & is_idle(w.stage)))
}

fn same_answer(same: bool) -> Result<Answer, Refusal>
    ensures { result ≡ pick same (Ok Answers.Same) (Ok Answers.Different) }
{
    if same {
        return Ok(Answer::Same);
    }
    Ok(Answer::Different)
}

// Whether the update is the same as the active bank.
pub fn unchanged(w: Writer, region: &[u8]) -> Step
    ensures { result ≡ Unchanged.unchanged_step region.now w }
{
    if region.len() != REGION_SIZE {
        return stays(w, Refusal::Region);
    }
    if !may_ask(w) {
        return stays(w, Refusal::Turn);
    }
    let same = is_unchanged(region, w, w.beginning.active);
    let answer = same_answer(same);
    Step { answer, writer: w }
}
