// The upper layer's call that appends a row.
ghost use Rattle.std.specs.Prelude.{◌≡◌, true, ◌≤◌, List, ◌++◌, length, take};
ghost use Rattle.record.specs.declared.Source.{Source};
ghost use Rattle.writer.specs.Parts.{whole_of, step_with};
ghost use Rattle.run.specs.Appends as Appends;
ghost use Rattle.run.specs.PartsRun as PartsRun;
ghost use Rattle.upper.specs.Upper as Upper;
ghost use Rattle.region.specs.Region.{region_size};
ghost use Rattle.base.specs.Table.{last_table};

use crate::{SHORT_ROW, fits};
use lower::{is_open, may_append_parts};
use refusal::Refusal;
use region::REGION_SIZE;
use rfc4180::MAX_ROW;
use run::append_line_parts;
use writer::{
    Beginning, Parts, PartsStep, Step, TAIL_SIZE, Writer, parts_did, parts_of, parts_stay,
    step_with,
};

// The run of a row, which is the first n bytes.
fn run_row(
    b: Beginning,
    p: Parts,
    tail: &mut [u8; TAIL_SIZE],
    region: &mut [u8],
    bytes: &[u8],
    n: usize,
) -> Parts
    requires { n ≤ length bytes.now }
    ensures { PartsRun.Ran region.old b p tail.old (Appends.dues ++ (Appends.dues ++ Appends.appends (take n bytes.now))) result tail.new region.new }
{
    let line = &bytes[0..n];
    append_line_parts(b, p, tail, region, line)
}

// Appends a row of the open table, if it is one and fits; its buffer is for 8,192 bytes.
fn long_row(
    b: Beginning,
    p: Parts,
    tail: &mut [u8; TAIL_SIZE],
    region: &mut [u8],
    texts: &[u8],
    lengths: &[u32],
) -> PartsStep
    requires { (length region.old ≡ region_size) × ((ss : List Source) → Upper.order_ok (whole_of b p ss tail.old) (Upper.row texts.now lengths.now) ≡ true) × (p.tables.table ≤ last_table) }
    ensures { (ss : List Source) → (step_with b result ss tail.new ≡ Upper.upper_step region.old (whole_of b p ss tail.old) (Upper.row texts.now lengths.now)) × (region.new ≡ Upper.upper_region region.old (whole_of b p ss tail.old) (Upper.row texts.now lengths.now)) }
{
    let x = p.tables;
    let mut out = [0u8; MAX_ROW];
    let a = row::row(x.table, texts, lengths, &mut out);
    let Ok(n) = a else {
        return parts_stay(p, Refusal::Row);
    };
    if !fits(p.contents, n) {
        return parts_stay(p, Refusal::Full);
    }
    let v = run_row(b, p, tail, region, &out, n);
    parts_did(v)
}

// The same, with a buffer of 512 bytes, which is faster; a row that isn't written there is left to `long_row`.
fn row_in(
    b: Beginning,
    p: Parts,
    tail: &mut [u8; TAIL_SIZE],
    region: &mut [u8],
    texts: &[u8],
    lengths: &[u32],
) -> PartsStep
    requires { (length region.old ≡ region_size) × ((ss : List Source) → Upper.order_ok (whole_of b p ss tail.old) (Upper.row texts.now lengths.now) ≡ true) × (p.tables.table ≤ last_table) }
    ensures { (ss : List Source) → (step_with b result ss tail.new ≡ Upper.upper_step region.old (whole_of b p ss tail.old) (Upper.row texts.now lengths.now)) × (region.new ≡ Upper.upper_region region.old (whole_of b p ss tail.old) (Upper.row texts.now lengths.now)) }
{
    let x = p.tables;
    let mut out = [0u8; SHORT_ROW];
    let a = row::row(x.table, texts, lengths, &mut out);
    let Ok(n) = a else {
        return long_row(b, p, tail, region, texts, lengths);
    };
    if !fits(p.contents, n) {
        return parts_stay(p, Refusal::Full);
    }
    let q = run_row(b, p, tail, region, &out, n);
    parts_did(q)
}

// Appends a row of the open table: its values joined, and their lengths. The sources stay unchanged.
pub fn row_parts(
    b: Beginning,
    p: Parts,
    tail: &mut [u8; TAIL_SIZE],
    region: &mut [u8],
    texts: &[u8],
    lengths: &[u32],
) -> PartsStep
    ensures { (ss : List Source) → (step_with b result ss tail.new ≡ Upper.upper_step region.old (whole_of b p ss tail.old) (Upper.row texts.now lengths.now)) × (region.new ≡ Upper.upper_region region.old (whole_of b p ss tail.old) (Upper.row texts.now lengths.now)) }
{
    if region.len() != REGION_SIZE {
        return parts_stay(p, Refusal::Region);
    }
    if !may_append_parts(b, p) | !is_open(p.tables) {
        return parts_stay(p, Refusal::Turn);
    }
    row_in(b, p, tail, region, texts, lengths)
}

// Appends a row of the open table.
pub fn row(w: Writer, region: &mut [u8], texts: &[u8], lengths: &[u32]) -> Step
    ensures { (result ≡ Upper.upper_step region.old w (Upper.row texts.now lengths.now)) × (region.new ≡ Upper.upper_region region.old w (Upper.row texts.now lengths.now)) }
{
    let b = w.beginning;
    let p = parts_of(w);
    let mut tail = w.tail;
    let s = row_parts(b, p, &mut tail, region, texts, lengths);
    let sources = w.sources;
    step_with(b, s, sources, tail)
}
