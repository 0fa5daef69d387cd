// The sources of a loaded bank.
ghost use Rattle.std.specs.Prelude.{◌≡◌, ◌++◌, ◌+◌, ◌*◌, ◌-◌, ◌≤◌};
ghost use Rattle.header.specs.Header.{records_of, max_sources};
ghost use Rattle.record.specs.Record.{no_source};
ghost use Rattle.base.specs.Lists.{fill};
ghost use Rattle.snapshot.specs.Source as Sources;

use bank::header;
use header::{Bank, RECORDS_OFFSET, SOURCES, record_at};
use record::{Source, no_source, source_size};
use refusal::Refusal;
use region::bank_of;

fn source_in(region: &[u8], b: Bank, i: u32) -> Source
    ensures { result ≡ Sources.source_in region.now b i }
{
    let l = bank_of(region, b.number);
    let at = RECORDS_OFFSET + i as usize * source_size(b.version);
    record_at(l, b.version, at)
}

// The source at an index.
pub fn source(region: &[u8], number: u32, i: u32) -> Result<Source, Refusal>
    ensures { result ≡ Sources.source_answer region.now number i }
{
    let b = header(region, number)?;
    if i < b.count {
        return Ok(source_in(region, b, i));
    }
    Err(Refusal::Source)
}

// A bank's first n records, and zeros after them.
fn records_at(l: &[u8], version: u32, n: usize) -> [Source; SOURCES]
    requires { n ≤ max_sources }
    ensures { result ≡ records_of version l.now n ++ fill no_source (max_sources - n) }
{
    let size = source_size(version);
    let mut t = [no_source(); SOURCES];
    for i in 0..n {
        t[i] = record_at(l, version, RECORDS_OFFSET + i * size);
    }
    t
}

// All sources of a bank: those below its count, and zeros after them.
pub fn sources(region: &[u8], number: u32) -> Result<[Source; SOURCES], Refusal>
    ensures { result ≡ Sources.sources_answer region.now number }
{
    let bank = header(region, number)?;
    let l = bank_of(region, bank.number);
    Ok(records_at(l, bank.version, bank.count as usize))
}
