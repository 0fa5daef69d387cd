// The lower layer's call that begins a source.
ghost use Rattle.std.specs.Prelude.{◌≡◌, List, ℕ};
ghost use Rattle.record.specs.declared.Source.{Source};
ghost use Rattle.writer.specs.Parts.{whole_of, step_with};
ghost use Rattle.writer.specs.State.{is_done};
ghost use Rattle.lower.specs.Sources as Sources;
ghost use Rattle.lower.specs.Lower as Lower;

use crate::{is_open, may_append_parts};
use base::table::TABLES;
use header::{SOURCES, SOURCES_32};
use record::{NO_BLOCK, Source};
use refusal::Refusal;
use writer::{
    Beginning, NO_TABLE, Parts, PartsStep, Step, Tables, Writer, is_done, parts_did, parts_of,
    parts_stay, step_with,
};

fn emptied(s: Source) -> Source
    ensures { result ≡ Lower.emptied s }
{
    Source {
        tables: [NO_BLOCK; TABLES],
        ..s
    }
}

// Begins a source. Its record is for the sources: `sources_with` stores it.
pub fn source_parts(b: Beginning, p: Parts) -> PartsStep
    ensures { (s : Source) (ss : List Source) (tail : List ℕ) → step_with b result (Sources.sources_with (is_done result.answer) ss p.tables s) tail ≡ Lower.source_step (whole_of b p ss tail) s }
{
    let x = p.tables;
    if !may_append_parts(b, p) | is_open(x) {
        return parts_stay(p, Refusal::Turn);
    }
    if SOURCES_32 <= x.count {
        return parts_stay(p, Refusal::Full);
    }
    let tables = Tables {
        count: x.count + 1,
        table: NO_TABLE,
        begun: 0,
        ..x
    };
    let q = Parts { tables, ..p };
    parts_did(q)
}

// The sources after a source's beginning: if it is done, the next of them has its record, with blocks of zeros.
pub fn sources_with(
    done: bool,
    sources: [Source; SOURCES],
    x: Tables,
    s: Source,
) -> [Source; SOURCES]
    ensures { result ≡ Sources.sources_with done sources x s }
{
    let mut ss = sources;
    if done {
        if x.count < SOURCES_32 {
            let e = emptied(s);
            ss[x.count as usize] = e;
        }
    }
    ss
}

// Begins a source.
pub fn source(w: Writer, s: Source) -> Step
    ensures { result ≡ Lower.source_step w s }
{
    let b = w.beginning;
    let p = parts_of(w);
    let r = source_parts(b, p);
    let sources = sources_with(is_done(r.answer), w.sources, p.tables, s);
    step_with(b, r, sources, w.tail)
}
