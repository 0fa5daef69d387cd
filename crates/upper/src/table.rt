// The upper layer's calls that begin a table, which appends its names line, and end it.
ghost use Rattle.std.specs.Prelude.{◌≡◌, ◌++◌, ◌≤◌, ◌∷◌, length, take};
ghost use Rattle.run.specs.Run.{ran_writer, ran_region};
ghost use Rattle.upper.specs.Upper as Upper;
ghost use Rattle.row.specs.Columns.{names_line};
ghost use Rattle.run.specs.Run as Run;
ghost use Rattle.run.specs.Appends as Appends;
ghost use Rattle.base.specs.Table.{last_table};
ghost use Rattle.upper.specs.Sizes.{names_size};

use crate::{NAMES_SIZE, fits};
use base::table::LAST_TABLE;
use lower::{may_append, may_begin, may_end};
use refusal::Refusal;
use region::REGION_SIZE;
use run::{flush, flush_append};
use writer::{Step, Writer, did, stays};

// The run of a table's end.
fn run_end(w: Writer, region: &mut [u8]) -> Writer
    ensures { (result ≡ ran_writer region.old w (Upper.run_of Upper.table_end)) × (region.new ≡ ran_region region.old w (Upper.run_of Upper.table_end)) }
{
    let v = flush(w, region);
    let e = lower::table::end(v);
    flush(e.writer, region)
}

// Ends the open table.
pub fn end(w: Writer, region: &mut [u8]) -> Step
    ensures { (result ≡ Upper.upper_step region.old w Upper.table_end) × (region.new ≡ Upper.upper_region region.old w Upper.table_end) }
{
    if region.len() != REGION_SIZE {
        return stays(w, Refusal::Region);
    }
    if !may_end(w) {
        return stays(w, Refusal::Turn);
    }
    let v = run_end(w, region);
    did(v)
}

// A table's names line is in the first n bytes.
#[derive(Clone, Copy)]
struct Line {
    n: usize,
    bytes: [u8; NAMES_SIZE],
}

fn names(table: u32) -> Line
    requires { table ≤ last_table }
    ensures { (result.n ≤ names_size) × (result.n ≡ length (names_line table)) × (take result.n result.bytes ≡ names_line table) }
{
    let mut bytes = [0u8; NAMES_SIZE];
    let a = row::names_line(table, &mut bytes);
    match a {
        Ok(n) => Line { n, bytes },
        Err(_) => Line { n: 0, bytes },
    }
}

// The run of a table's beginning; its names line is the first n bytes.
fn run_table(w: Writer, region: &mut [u8], table: u32, names: [u8; NAMES_SIZE], n: usize) -> Writer
    requires { n ≤ names_size }
    ensures { (result ≡ ran_writer region.old w (Appends.dues ++ (Run.table table ∷ (Appends.dues ++ Appends.appends (take n names))))) × (region.new ≡ ran_region region.old w (Appends.dues ++ (Run.table table ∷ (Appends.dues ++ Appends.appends (take n names))))) }
{
    let line = &names[0..n];
    let v = flush(w, region);
    let t = lower::table::table(v, table);
    flush_append(t.writer, region, line)
}

// Begins a table, and appends its names line.
pub fn table(w: Writer, region: &mut [u8], table: u32) -> Step
    ensures { (result ≡ Upper.upper_step region.old w (Upper.table_with_names table)) × (region.new ≡ Upper.upper_region region.old w (Upper.table_with_names table)) }
{
    if region.len() != REGION_SIZE {
        return stays(w, Refusal::Region);
    }
    if LAST_TABLE < table {
        return stays(w, Refusal::Argument);
    }
    if !may_append(w) | !may_begin(w.tables, table) {
        return stays(w, Refusal::Turn);
    }
    let l = names(table);
    let n = l.n;
    let bytes = l.bytes;
    if !fits(w.contents, n) {
        return stays(w, Refusal::Full);
    }
    let v = run_table(w, region, table, bytes, n);
    did(v)
}
