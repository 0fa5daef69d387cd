// Rows of a loaded bank.
ghost use Rattle.snapshot.specs.Claims.{Claims};
ghost use Rattle.std.specs.Prelude.{◌≡◌, ◌≤◌, length, get_or};
ghost use Rattle.record.specs.Record.{no_block};
ghost use Rattle.rowread.specs.Stored.{joined, ends_of, after};
ghost use Rattle.snapshot.specs.Rows.{bytes_of, block_answer, values_in, bank_row_answer};
ghost use Rattle.base.specs.Table.{last_table};

use base::slice::part;
use base::table::LAST_TABLE;
use record::{Block, Source};
use refusal::Refusal;
use region::{REGION_SIZE, SECTOR_SIZE, bank_of};
use row::column_count;
use rowread::{Span, read_row};

// The block of a table.
fn block_of(s: Source, table: u32) -> Block
    requires { table ≤ last_table }
    ensures { result ≡ get_or s.tables table no_block }
{
    let t = table as usize;
    s.tables[t]
}

// The bytes of a block of a bank.
pub fn bytes_of(region: &[u8], number: u32, b: Block) -> &[u8]
    ensures { result.now ≡ bytes_of region.now number b }
{
    let l = bank_of(region, number);
    let at = SECTOR_SIZE + b.offset as usize;
    part(l, at, b.length as usize)
}

// The block of a table of a bank's source.
pub fn table_block(region: &[u8], number: u32, source: u32, table: u32) -> Result<Block, Refusal>
    ensures { result ≡ block_answer region.now number source table }
{
    if LAST_TABLE < table {
        if region.len() != REGION_SIZE {
            return Err(Refusal::Region);
        }
        return Err(Refusal::Argument);
    }
    let s = crate::source::source(region, number, source)?;
    Ok(block_of(s, table))
}

// Reads the row at an offset of a table of a bank's source: its values, joined, to out, and where each ends to ends.
pub fn bank_row(
    region: &[u8],
    number: u32,
    source: u32,
    table: u32,
    offset: usize,
    out: &mut [u8],
    ends: &mut [usize],
) -> Result<Option<Span>, Refusal>
    ensures { (result ≡ bank_row_answer region.now number source table offset (length out.old) (length ends.old)) × (out.new ≡ after result (joined (values_in region.now number source table offset)) out.old) × (ends.new ≡ after result (ends_of 0 (values_in region.now number source table offset)) ends.old) }
{
    let b = table_block(region, number, source, table)?;
    let stored = bytes_of(region, number, b);
    let width = column_count(table);
    read_row(stored, width, offset, out, ends)
}

// What holds of the rows of a bank. The function does nothing: its contract is what is proved of the definitions
// (specs/Claims.antt).
pub fn bank_rows_hold()
    ensures { Claims }
{}
