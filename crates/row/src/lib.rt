// The lines of a table as they are written: its column names, and a row. Every public function accepts any input.
#![tactic(auto)]

mod copy;
mod quoted;
mod size;
mod special;
mod write;

ghost use Rattle.row.specs.Claims.{Claims};
ghost use Rattle.std.specs.Prelude.{◌≡◌, ◌+◌, ◌<◌, length};
ghost use Rattle.rfc4180.specs.Write.{row_of};
ghost use Rattle.row.specs.Columns.{column_count, names_line};
ghost use Rattle.row.specs.Write.{passed_values, within, after, names_answer, row_answer};
ghost use Rattle.row.specs.Steps.{all_lines};
ghost use Rattle.base.specs.Table.{max_tables};

use crate::copy::copy;
use crate::size::{longest_fits, row_size};
use crate::special::any_special;
use crate::write::put_row;
use base::table::{LAST_TABLE, TABLES};
use refusal::Refusal;
use rfc4180::MAX_ROW;

// How many bytes are copied or tested at once: a block, a word, half a word.
const BLOCK: usize = 16;

const WORD: usize = 8;

const HALF_WORD: usize = 4;

// The middle of 1, 2 or 3 bytes is at half their number.
const HALVES: usize = 2;

// The offset of each table's names line among all of them, and their end.
const LINE_OFFSETS: usize = TABLES + 1;

static STARTS: [usize; LINE_OFFSETS] = [0, 37, 65, 120, 218, 306, 337, 367, 473];

// How many columns a table has, 0 above table 7.
pub fn column_count(table: u32) -> usize
    ensures { result ≡ column_count table }
{
    match table {
        0 => 3,
        1 => 3,
        2 => 5,
        3 => 8,
        4 => 10,
        5 => 3,
        6 => 2,
        7 => 8,
        _ => 0,
    }
}

// Copies a table's names line to out, if it fits; `all` has the names lines of all tables.
fn put_line(all: &[u8], table: usize, out: &mut [u8]) -> Result<usize, Refusal>
    requires { (all.now ≡ all_lines) × (table < max_tables) }
    ensures { (result ≡ within (length out.old) (names_line table)) × (out.new ≡ after result (names_line table) out.old) }
{
    let names = &all[STARTS[table]..STARTS[table + 1]];
    if out.len() < names.len() {
        return Err(Refusal::Small);
    }
    copy(names, out, 0);
    Ok(names.len())
}

// Writes the names line of a table to out.
pub fn names_line(table: u32, out: &mut [u8]) -> Result<usize, Refusal>
    ensures { (result ≡ names_answer table (length out.old)) × (out.new ≡ after result (names_line table) out.old) }
{
    if LAST_TABLE < table {
        return Err(Refusal::Argument);
    }
    let all =
        b"route_id,route_short_name,route_type\nstop_id,stop_code,stop_name\nroute_id,service_id,trip_id,trip_headsign,direction_id\ntrip_id,stop_id,stop_sequence,arrival_time,departure_time,pickup_type,drop_off_type,stop_headsign\nservice_id,monday,tuesday,wednesday,thursday,friday,saturday,sunday,start_date,end_date\nservice_id,date,exception_type\nfeed_start_date,feed_end_date\nfrom_stop_id,to_stop_id,transfer_type,min_transfer_time,from_route_id,to_route_id,from_trip_id,to_trip_id\n";
    put_line(all, table as usize, out)
}

// Writes the row of a table's values to out. The values are passed as joined texts and their lengths.
pub fn row(table: u32, texts: &[u8], lengths: &[u32], out: &mut [u8]) -> Result<usize, Refusal>
    ensures { (result ≡ row_answer table texts.now lengths.now (length out.old)) × (out.new ≡ after result (row_of (passed_values texts.now lengths.now)) out.old) }
{
    if LAST_TABLE < table {
        return Err(Refusal::Argument);
    }
    if lengths.len() != column_count(table) {
        return Err(Refusal::Row);
    }
    if longest_fits(texts.len(), lengths.len(), out.len()) {
        return Ok(put_row(texts, lengths, any_special(texts), out));
    }
    let size = row_size(texts, lengths);
    if MAX_ROW < size {
        return Err(Refusal::Row);
    }
    if out.len() < size {
        return Err(Refusal::Small);
    }
    Ok(put_row(texts, lengths, true, out))
}

// What holds of the column names. The function does nothing: its contract is what is proved of the definitions
// (specs/Claims.antt).
pub fn names_hold()
    ensures { Claims }
{}
