// An update's upper calls: each does all its flash operations before it returns, and leaves none due. Several texts are passed joined, with their lengths.
ghost use Rattle.std.specs.Prelude.{◌≡◌};
ghost use Rattle.record.specs.Record.{decoded, current_version};
ghost use Rattle.upper.specs.Upper as Upper;
ghost use Rattle.cstate.specs.State.{writer_of};
ghost use Rattle.cstate.specs.Answers as Answers;

use cstate::{State, UpdateStep, after, after_parts};
use record::{VERSION, decode};
use upper::rows::row_parts;
use writer::{Beginning, Parts, Writer};

// Begins an update and appends the key of an identity and picks. Refused, it gives back the state that it was passed.
//   region: the region, TT_REGION_SIZE bytes
//   comparing: as for tt_update_begin
//   at: as for tt_update_begin
//   identity: as for tt_key
//   texts: as for tt_key
//   lengths: as for tt_key
//   state: the last update's, or TT_STATE_INIT
//   refusals: 1, 2, 8
#[unsafe(no_mangle)]
pub extern "C" fn tt_upper_begin(
    region: &mut [u8],
    comparing: bool,
    at: i64,
    identity: &[u8],
    texts: &[u8],
    lengths: &[u32],
    state: State,
) -> UpdateStep
    ensures value { result ≡ Answers.after (Upper.begin_step region.old comparing at identity.now texts.now lengths.now) state }
    ensures region_after { region.new ≡ Upper.begin_region region.old comparing at identity.now texts.now lengths.now }
{
    let s = upper::begin::begin(region, comparing, at, identity, texts, lengths);
    after(s, state)
}

// Begins a source and appends its dates.
//   region: the region, TT_REGION_SIZE bytes
//   state: the update's
//   bytes: its record, as for tt_update_source
//   refusals: 1, 11, 10
#[unsafe(no_mangle)]
pub extern "C" fn tt_upper_source(region: &mut [u8], state: State, bytes: &[u8]) -> UpdateStep
    ensures value { result ≡ Answers.after (Upper.upper_step region.old (writer_of state) (Upper.source_with_dates (decoded current_version bytes.now))) state }
    ensures region_after { region.new ≡ Upper.upper_region region.old (writer_of state) (Upper.source_with_dates (decoded current_version bytes.now)) }
{
    let r = decode(bytes, VERSION);
    let s = upper::source::source(Writer::from(state), region, r);
    after(s, state)
}

// Begins a table of the last source and appends its names line.
//   region: the region, TT_REGION_SIZE bytes
//   state: the update's
//   table: TT_TABLE_ROUTES to TT_TABLE_TRANSFERS
//   refusals: 1, 2, 11, 10
#[unsafe(no_mangle)]
pub extern "C" fn tt_upper_table(region: &mut [u8], state: State, table: u32) -> UpdateStep
    ensures value { result ≡ Answers.after (Upper.upper_step region.old (writer_of state) (Upper.table_with_names table)) state }
    ensures region_after { region.new ≡ Upper.upper_region region.old (writer_of state) (Upper.table_with_names table) }
{
    let s = upper::table::table(Writer::from(state), region, table);
    after(s, state)
}

// Appends a row of the open table.
//   region: the region, TT_REGION_SIZE bytes
//   state: the update's
//   texts: the values, joined (Joined texts, above)
//   lengths: the length of each value, as many as the table has columns
//   refusals: 1, 11, 14, 10
#[unsafe(no_mangle)]
pub extern "C" fn tt_upper_row(
    region: &mut [u8],
    state: State,
    texts: &[u8],
    lengths: &[u32],
) -> UpdateStep
    ensures value { result ≡ Answers.after (Upper.upper_step region.old (writer_of state) (Upper.row texts.now lengths.now)) state }
    ensures region_after { region.new ≡ Upper.upper_region region.old (writer_of state) (Upper.row texts.now lengths.now) }
{
    let b = Beginning::from(state);
    let p = Parts::from(state);
    let mut tail = state.tail;
    let s = row_parts(b, p, &mut tail, region, texts, lengths);
    let sources = state.sources;
    after_parts(b, s, sources, tail, state)
}

// Ends the open table.
//   region: the region, TT_REGION_SIZE bytes
//   state: the update's
//   refusals: 1, 11
#[unsafe(no_mangle)]
pub extern "C" fn tt_upper_end(region: &mut [u8], state: State) -> UpdateStep
    ensures value { result ≡ Answers.after (Upper.upper_step region.old (writer_of state) Upper.table_end) state }
    ensures region_after { region.new ≡ Upper.upper_region region.old (writer_of state) Upper.table_end }
{
    let s = upper::table::end(Writer::from(state), region);
    after(s, state)
}

// Closes the update: the bytes in the tail are written, or compared in comparing mode.
//   region: the region, TT_REGION_SIZE bytes
//   state: the update's
//   refusals: 1, 11
#[unsafe(no_mangle)]
pub extern "C" fn tt_upper_close(region: &mut [u8], state: State) -> UpdateStep
    ensures value { result ≡ Answers.after (Upper.upper_step region.old (writer_of state) Upper.closing) state }
    ensures region_after { region.new ≡ Upper.upper_region region.old (writer_of state) Upper.closing }
{
    let s = upper::begin::close(Writer::from(state), region);
    after(s, state)
}
