// The upper layer's call that begins a source and appends its dates.
ghost use Rattle.std.specs.Prelude.{◌≡◌, ◌++◌};
ghost use Rattle.leaf.specs.Bytes.{le32};
ghost use Rattle.run.specs.Run.{ran_writer, ran_region};
ghost use Rattle.upper.specs.Upper as Upper;

use crate::fits;
use header::SOURCES_32;
use leaf::bytes::put;
use lower::{is_open, may_append};
use record::{DATE_SIZE, DATES_SIZE, Source};
use refusal::Refusal;
use region::REGION_SIZE;
use run::{flush, flush_append};
use writer::{Step, Writer, did, stays};

// A source's dates as they are appended.
fn dates(s: Source) -> [u8; DATES_SIZE]
    ensures { result ≡ le32 s.start ++ le32 s.end }
{
    let mut d = [0u8; DATES_SIZE];
    put(&mut d, 0, s.start);
    put(&mut d, DATE_SIZE, s.end);
    d
}

// The run of a source's beginning.
fn run_source(w: Writer, region: &mut [u8], s: Source) -> Writer
    ensures { (result ≡ ran_writer region.old w (Upper.run_of (Upper.source_with_dates s))) × (region.new ≡ ran_region region.old w (Upper.run_of (Upper.source_with_dates s))) }
{
    let d = dates(s);
    let v = flush(w, region);
    let t = lower::source::source(v, s);
    flush_append(t.writer, region, &d)
}

// Begins a source, and appends its dates.
pub fn source(w: Writer, region: &mut [u8], s: Source) -> Step
    ensures { (result ≡ Upper.upper_step region.old w (Upper.source_with_dates s)) × (region.new ≡ Upper.upper_region region.old w (Upper.source_with_dates s)) }
{
    let x = w.tables;
    if region.len() != REGION_SIZE {
        return stays(w, Refusal::Region);
    }
    if !may_append(w) | is_open(x) {
        return stays(w, Refusal::Turn);
    }
    if (SOURCES_32 <= x.count) | !fits(w.contents, DATES_SIZE) {
        return stays(w, Refusal::Full);
    }
    let v = run_source(w, region, s);
    did(v)
}
