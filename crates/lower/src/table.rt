// The lower layer's calls that begin a table and end it, which fixes its block.
ghost use Rattle.std.specs.Prelude.{◌≡◌, List, ℕ, ◌≤◌};
ghost use Rattle.base.specs.Number.{pick};
ghost use Rattle.record.specs.declared.Source.{Source};
ghost use Rattle.record.specs.Record.{no_block};
ghost use Rattle.writer.specs.declared.Beginning.{Beginning};
ghost use Rattle.writer.specs.Parts.{whole_of, step_with};
ghost use Rattle.writer.specs.State.{is_done};
ghost use Rattle.lower.specs.Sources as Sources;
ghost use Rattle.writer.specs.State as State;
ghost use Rattle.lower.specs.Lower as Lower;
ghost use Rattle.region.specs.Region.{capacity};
ghost use Rattle.base.specs.Table.{last_table};

use crate::{may_append_parts, may_begin, may_end_parts};
use base::table::LAST_TABLE;
use header::{SOURCES, SOURCES_32};
use record::{Block, NO_BLOCK, Source};
use refusal::Refusal;
use writer::{
    Beginning, NO_TABLE, Parts, PartsStep, Step, Tables, Writer, is_done, parts_did, parts_of,
    parts_stay, step_with,
};

fn with_table(p: Parts, table: u32) -> Parts
    requires { (table ≤ last_table) × (State.position p.contents ≤ capacity) }
    ensures { (b : Beginning) (ss : List Source) (tail : List ℕ) → whole_of b result ss tail ≡ Lower.with_table (whole_of b p ss tail) table }
{
    let x = p.tables;
    let t = p.contents;
    let tables = Tables {
        count: x.count,
        table,
        start: t.written + t.fill,
        crc: 0,
        begun: x.begun | (1 << table),
    };
    Parts { tables, ..p }
}

// Begins a table of the last source.
pub fn table_parts(b: Beginning, p: Parts, table: u32) -> PartsStep
    ensures { (ss : List Source) (tail : List ℕ) → step_with b result ss tail ≡ Lower.table_step (whole_of b p ss tail) table }
{
    if LAST_TABLE < table {
        return parts_stay(p, Refusal::Argument);
    }
    if !may_append_parts(b, p) | !may_begin(p.tables, table) {
        return parts_stay(p, Refusal::Turn);
    }
    let q = with_table(p, table);
    parts_did(q)
}

// Begins a table of the last source.
pub fn table(w: Writer, table: u32) -> Step
    ensures { result ≡ Lower.table_step w table }
{
    let b = w.beginning;
    let p = parts_of(w);
    let s = table_parts(b, p, table);
    step_with(b, s, w.sources, w.tail)
}

fn with_block(s: Source, table: u32, b: Block) -> Source
    requires { table ≤ last_table }
    ensures { result ≡ Lower.with_block s table b }
{
    let mut tables = s.tables;
    tables[table as usize] = b;
    Source { tables, ..s }
}

// The block of the open table, as its end fixes it.
fn block_of(p: Parts) -> Block
    requires { (p.tables.start ≤ State.position p.contents) × (State.position p.contents ≤ capacity) }
    ensures { result ≡ Sources.block_in p }
{
    let t = p.contents;
    let x = p.tables;
    Block {
        offset: x.start,
        length: t.written + t.fill - x.start,
        crc: x.crc,
    }
}

// The answer of a table's end, the parts after it, and the table's block, zeros on a refusal.
#[derive(Clone, Copy)]
pub struct EndStep {
    pub step: PartsStep,
    pub block: Block,
}

// Ends the open table. Its block is for the last source: `sources_ended` stores it.
pub fn end_parts(b: Beginning, p: Parts) -> EndStep
    ensures { ((ss : List Source) (tail : List ℕ) → step_with b result.step (Sources.sources_ended (is_done result.step.answer) ss p.tables result.block) tail ≡ Lower.end_step (whole_of b p ss tail)) × (result.block ≡ pick (is_done result.step.answer) (Sources.block_in p) no_block) }
{
    if !may_end_parts(b, p) {
        let step = parts_stay(p, Refusal::Turn);
        return EndStep {
            step,
            block: NO_BLOCK,
        };
    }
    let block = block_of(p);
    let x = p.tables;
    let tables = Tables {
        table: NO_TABLE,
        ..x
    };
    let q = Parts { tables, ..p };
    let step = parts_did(q);
    EndStep { step, block }
}

// Whether there are a last source and an open table.
fn has_source_and_table(x: Tables) -> bool
    ensures { result ≡ Sources.has_source_and_table x }
{
    (1 <= x.count) & ((x.count <= SOURCES_32) & (x.table <= LAST_TABLE))
}

// The sources after a table's end: if it is done, the last of them has the block.
pub fn sources_ended(
    done: bool,
    sources: [Source; SOURCES],
    x: Tables,
    block: Block,
) -> [Source; SOURCES]
    ensures { result ≡ Sources.sources_ended done sources x block }
{
    let mut ss = sources;
    if done & has_source_and_table(x) {
        let i = (x.count - 1) as usize;
        let s = ss[i];
        let e = with_block(s, x.table, block);
        ss[i] = e;
    }
    ss
}

// Ends the open table.
pub fn end(w: Writer) -> Step
    ensures { result ≡ Lower.end_step w }
{
    let b = w.beginning;
    let p = parts_of(w);
    let e = end_parts(b, p);
    let s = e.step;
    let sources = sources_ended(is_done(s.answer), w.sources, p.tables, e.block);
    step_with(b, s, sources, w.tail)
}
