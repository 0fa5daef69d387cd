// The lower layer's begin and close.
ghost use Rattle.std.specs.Prelude.{◌≡◌, List, ℕ};
ghost use Rattle.record.specs.declared.Source.{Source};
ghost use Rattle.writer.specs.Parts.{whole_of, step_with};
ghost use Rattle.lower.specs.Lower as Lower;

use crate::{is_open, may_append_parts};
use bank::load;
use header::{Bank, SOURCES};
use record::no_source;
use refusal::Refusal;
use writer::{
    Answer, Beginning, Contents, NO_TABLE, Parts, PartsStep, Stage, Step, TAIL_SIZE, Tables,
    Writer, is_due, parts_did, parts_of, parts_stay, stage_of, step_with,
};

// The state of an update that begins.
pub fn started(active: Result<Option<Bank>, Refusal>, comparing: bool, now: i64) -> Writer
    ensures { result ≡ Lower.started active comparing now }
{
    Writer {
        stage: Stage::Idle,
        beginning: Beginning {
            active,
            comparing,
            now,
        },
        contents: Contents {
            written: 0,
            fill: 0,
            crc: 0,
            different: false,
            closed: false,
        },
        tables: Tables {
            count: 0,
            table: NO_TABLE,
            start: 0,
            crc: 0,
            begun: 0,
        },
        sources: [no_source(); SOURCES],
        tail: [0; TAIL_SIZE],
    }
}

fn answer_of(l: Result<Option<Bank>, Refusal>) -> Result<Answer, Refusal>
    ensures { result ≡ Lower.answer_of l }
{
    l?;
    Ok(Answer::Done)
}

// Begins an update on a region.
pub fn begin(region: &[u8], comparing: bool, at: i64) -> Step
    ensures { result ≡ Lower.begun region.now comparing at }
{
    let l = load(region);
    let answer = answer_of(l);
    let writer = started(l, comparing, at);
    Step { answer, writer }
}

fn with_closed(b: Beginning, p: Parts) -> Parts
    ensures { (ss : List Source) (tail : List ℕ) → whole_of b result ss tail ≡ Lower.with_closed (whole_of b p ss tail) }
{
    let t = p.contents;
    let contents = Contents { closed: true, ..t };
    if is_due(t) {
        return Parts { contents, ..p };
    }
    let stage = stage_of(b.comparing, contents);
    Parts {
        stage,
        contents,
        ..p
    }
}

// Closes the update: the bytes in the tail are then due.
pub fn close_parts(b: Beginning, p: Parts) -> PartsStep
    ensures { (ss : List Source) (tail : List ℕ) → step_with b result ss tail ≡ Lower.close_step (whole_of b p ss tail) }
{
    if !may_append_parts(b, p) | is_open(p.tables) {
        return parts_stay(p, Refusal::Turn);
    }
    let q = with_closed(b, p);
    parts_did(q)
}

// Closes the update.
pub fn close(w: Writer) -> Step
    ensures { result ≡ Lower.close_step w }
{
    let b = w.beginning;
    let p = parts_of(w);
    let s = close_parts(b, p);
    step_with(b, s, w.sources, w.tail)
}
