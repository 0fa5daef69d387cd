// Keys, and banks: load and the calls on a loaded bank.
ghost use Rattle.std.specs.Prelude.{◌≡◌, leb, length};
ghost use Rattle.base.specs.Number.{pick};
ghost use Rattle.key.specs.Layout as Keys;
ghost use Rattle.key.specs.Picks as Picks;
ghost use Rattle.bank.specs.Bank as Banks;
ghost use Rattle.bank.specs.Turns as Turns;
ghost use Rattle.snapshot.specs.Source as Sources;
ghost use Rattle.snapshot.specs.Freshness as Fresh;
ghost use Rattle.snapshot.specs.KeyMatch as Matches;
ghost use Rattle.rowread.specs.Stored as StoredRows;
ghost use Rattle.snapshot.specs.Rows as Rows;
ghost use Rattle.bankcore.specs.BankAnswers as Answers;
ghost use Rattle.record.specs.Record.{record_size};
ghost use Rattle.refusal.specs.Refusal.{number_of};
ghost use Rattle.refusal.specs.declared.Refusal.TheVariants.{Small};

use crate::row_calls::{ReadNumbers, tt_read_row};
use bank::turns::{Checking, Progress, Turn};
use header::Bank;
use record::RECORD_SIZE;
use refusal::{Refusal, number_u32};
use row::column_count;
use snapshot::freshness::{Day, Days, Freshness};
use snapshot::rows::{bytes_of, table_block};

// A bank, if found is 1: its number, format version and generation, the data's length and CRC, how many sources it has, the key's length,
// and when it was checked.
#[repr(C)]
#[derive(Clone, Copy)]
pub struct BankNumbers {
    pub refusal: u32,
    pub found: u32,
    pub number: u32,
    pub version: u32,
    pub generation: u32,
    pub length: u32,
    pub crc: u32,
    pub count: u32,
    pub key: u32,
    pub checked: i64,
}

// When a bank was checked, and when its sources were updated.
#[repr(C)]
#[derive(Clone, Copy)]
pub struct FreshNumbers {
    pub refusal: u32,
    pub checked: i64,
    pub updated: i64,
}

// A written key's length.
#[repr(C)]
#[derive(Clone, Copy)]
pub struct KeyNumbers {
    pub refusal: u32,
    pub length: usize,
}

// Whether a key is the same: 1 or 0.
#[repr(C)]
#[derive(Clone, Copy)]
pub struct MatchNumbers {
    pub refusal: u32,
    pub same: u32,
}

// A turn: verdict is 1 if all data were hashed and their CRC is the header's, else count is how many bytes were hashed. The state for the
// next turn is bank, position and CRC.
#[repr(C)]
#[derive(Clone, Copy)]
pub struct TurnNumbers {
    pub refusal: u32,
    pub verdict: u32,
    pub count: u32,
    pub bank: u32,
    pub position: u32,
    pub crc: u32,
}

// A row of a bank: found is 1 if there is one; next is the offset of the row after it, size how many bytes its values have, joined.
#[repr(C)]
#[derive(Clone, Copy)]
pub struct BankRowNumbers {
    pub refusal: u32,
    pub found: u32,
    pub next: usize,
    pub size: usize,
}

fn no_bank(r: u32) -> BankNumbers
    ensures { result ≡ Answers.no_bank r }
{
    BankNumbers {
        refusal: r,
        found: 0,
        number: 0,
        version: 0,
        generation: 0,
        length: 0,
        crc: 0,
        count: 0,
        key: 0,
        checked: 0,
    }
}

impl From<Bank> for BankNumbers {
    ghost from_gives = { λ b x. x ≡ Answers.of_bank b };

    fn from(b: Bank) -> BankNumbers {
        BankNumbers {
            refusal: 0,
            found: 1,
            number: b.number,
            version: b.version,
            generation: b.generation,
            length: b.length,
            crc: b.crc,
            count: b.count,
            key: b.key,
            checked: b.checked,
        }
    }
}

impl From<Result<Bank, Refusal>> for BankNumbers {
    ghost from_gives = { λ v x. x ≡ Answers.of_validated v };

    fn from(v: Result<Bank, Refusal>) -> BankNumbers {
        match v {
            Ok(b) => BankNumbers::from(b),
            Err(r) => no_bank(number_u32(r)),
        }
    }
}

impl From<Result<Option<Bank>, Refusal>> for BankNumbers {
    ghost from_gives = { λ l x. x ≡ Answers.of_loaded l };

    fn from(l: Result<Option<Bank>, Refusal>) -> BankNumbers {
        match l {
            Ok(Some(b)) => BankNumbers::from(b),
            Ok(None) => no_bank(0),
            Err(r) => no_bank(number_u32(r)),
        }
    }
}

impl From<Result<Freshness, Refusal>> for FreshNumbers {
    ghost from_gives = { λ f x. x ≡ Answers.of_fresh f };

    fn from(f: Result<Freshness, Refusal>) -> FreshNumbers {
        match f {
            Ok(f) => FreshNumbers {
                refusal: 0,
                checked: f.checked,
                updated: f.updated,
            },
            Err(r) => FreshNumbers {
                refusal: number_u32(r),
                checked: i64::MIN,
                updated: i64::MIN,
            },
        }
    }
}

impl From<Result<usize, Refusal>> for KeyNumbers {
    ghost from_gives = { λ k x. x ≡ Answers.of_key k };

    fn from(k: Result<usize, Refusal>) -> KeyNumbers {
        match k {
            Ok(n) => KeyNumbers {
                refusal: 0,
                length: n,
            },
            Err(r) => KeyNumbers {
                refusal: number_u32(r),
                length: 0,
            },
        }
    }
}

impl From<Result<bool, Refusal>> for MatchNumbers {
    ghost from_gives = { λ m x. x ≡ Answers.of_match m };

    fn from(m: Result<bool, Refusal>) -> MatchNumbers {
        match m {
            Ok(true) => MatchNumbers {
                refusal: 0,
                same: 1,
            },
            Ok(false) => MatchNumbers {
                refusal: 0,
                same: 0,
            },
            Err(r) => MatchNumbers {
                refusal: number_u32(r),
                same: 0,
            },
        }
    }
}

fn turn_of(s: Checking, refusal: u32, verdict: u32, count: u32) -> TurnNumbers
    ensures { result ≡ record { refusal = refusal; verdict = verdict; count = count; bank = s.bank; position = s.position; crc = s.crc } }
{
    TurnNumbers {
        refusal,
        verdict,
        count,
        bank: s.bank,
        position: s.position,
        crc: s.crc,
    }
}

impl From<Turn> for TurnNumbers {
    ghost from_gives = { λ t x. x ≡ Answers.of_turn t };

    fn from(t: Turn) -> TurnNumbers {
        let p = t.progress;
        match p {
            Ok(Progress::Hashed(n)) => turn_of(t.next, 0, 0, n),
            Ok(Progress::Yes) => turn_of(t.next, 0, 1, 0),
            Err(r) => turn_of(t.next, number_u32(r), 0, 0),
        }
    }
}

// No row: a refusal.
fn no_bank_row(r: u32) -> BankRowNumbers
    ensures { result ≡ Answers.no_bank_row r }
{
    BankRowNumbers {
        refusal: r,
        found: 0,
        next: 0,
        size: 0,
    }
}

impl From<ReadNumbers> for BankRowNumbers {
    ghost from_gives = { λ x y. y ≡ Answers.as_bank_row x };

    fn from(x: ReadNumbers) -> BankRowNumbers {
        BankRowNumbers {
            refusal: x.refusal,
            found: x.found,
            next: x.next,
            size: x.size,
        }
    }
}

// Tests a bank except for its data's CRC, and gives its numbers.
//   region: the region, TT_REGION_SIZE bytes
//   bank: 0 or 1
//   refusals: 1, 2, 3, 4, 5, 6
#[unsafe(no_mangle)]
pub extern "C" fn tt_header(region: &[u8], bank: u32) -> BankNumbers
    ensures { result ≡ Answers.of_validated (Banks.named region.now bank) }
{
    BankNumbers::from(bank::header(region, bank))
}

// Tests a bank, its data's CRC too, and gives its numbers.
//   region: the region, TT_REGION_SIZE bytes
//   bank: 0 or 1
//   refusals: 1, 2, 3, 4, 5, 6, 7
#[unsafe(no_mangle)]
pub extern "C" fn tt_validate(region: &[u8], bank: u32) -> BankNumbers
    ensures { result ≡ Answers.of_validated (Banks.validated region.now bank) }
{
    BankNumbers::from(bank::validate(region, bank))
}

// The bank in use: the first to pass all tests, the newer one tried first. If none passes, found is 0, and that is no refusal.
//   region: the region, TT_REGION_SIZE bytes
//   refusals: 1
#[unsafe(no_mangle)]
pub extern "C" fn tt_load(region: &[u8]) -> BankNumbers
    ensures { result ≡ Answers.of_loaded (Banks.loaded region.now) }
{
    BankNumbers::from(bank::load(region))
}

// Begins checking a bank's data in turns: the state for the first one. A refused beginning gives a state of bank TT_NO_BANK.
//   region: the region, TT_REGION_SIZE bytes
//   bank: 0 or 1
//   refusals: 1, 2, 3, 4, 5, 6
#[unsafe(no_mangle)]
pub extern "C" fn tt_check_start(region: &[u8], bank: u32) -> TurnNumbers
    ensures { result ≡ Answers.of_turn (Turns.started region.now bank) }
{
    TurnNumbers::from(bank::turns::check_start(region, bank))
}

// One turn: hashes the next bytes of the data and gives their count; with none left it gives the verdict, 1 or refusal 7, and so does a
// further turn.
//   region: the region, TT_REGION_SIZE bytes
//   bank: the state's bank, as the last turn gave it
//   position: the state's position: the bytes hashed before
//   crc: the state's CRC
//   n: the most bytes to hash in this turn
//   refusals: 1, 11 by the state, 3, 4, 5, 6, 11 by a position past the data, 7
#[unsafe(no_mangle)]
pub extern "C" fn tt_check_turn(
    region: &[u8],
    bank: u32,
    position: u32,
    crc: u32,
    n: u32,
) -> TurnNumbers
    ensures { result ≡ Answers.of_turn (Turns.turned region.now (record { bank = bank; position = position; crc = crc }) n) }
{
    TurnNumbers::from(bank::turns::check_turn(
        region,
        Checking {
            bank,
            position,
            crc,
        },
        n,
    ))
}

// Writes the key of an identity and picks to the first bytes of out, and gives its length.
//   identity: at most TT_MAX_IDENTITY bytes; it may be empty
//   texts: the fields of all picks, joined (Joined texts, above)
//   lengths: TT_PICK_FIELDS lengths to a pick, of line, route, stop code, stop and stop name, at most TT_MAX_PICKS picks; a length that is
//     missing in the last pick is 0
//   out: a buffer; TT_MAX_KEY bytes are enough for any key
//   refusals: 2, 8, 9
#[unsafe(no_mangle)]
pub extern "C" fn tt_key(
    identity: &[u8],
    texts: &[u8],
    lengths: &[u32],
    out: &mut [u8],
) -> KeyNumbers
    ensures value { result ≡ Answers.of_key (Keys.key_answer identity.now texts.now lengths.now (length out.old)) }
    ensures out_after { out.new ≡ Keys.after (Keys.key_answer identity.now texts.now lengths.now (length out.old)) (Keys.key_of identity.now (Picks.passed_picks texts.now lengths.now)) out.old }
{
    KeyNumbers::from(key::key(identity, texts, lengths, out))
}

// Whether a bank's key is that of an identity and picks: same is 1 or 0.
//   region: the region, TT_REGION_SIZE bytes
//   bank: 0 or 1
//   identity: as for tt_key
//   texts: as for tt_key
//   lengths: as for tt_key
//   refusals: 1, 2, 3, 4, 5, 6, 8
#[unsafe(no_mangle)]
pub extern "C" fn tt_same_key(
    region: &[u8],
    bank: u32,
    identity: &[u8],
    texts: &[u8],
    lengths: &[u32],
) -> MatchNumbers
    ensures { result ≡ Answers.of_match (Matches.key_match_answer region.now bank identity.now texts.now lengths.now) }
{
    MatchNumbers::from(snapshot::keymatch::same_key(region, bank, identity, texts, lengths))
}

fn day(date: u32, wanted: bool) -> Day
    ensures { result ≡ record { date = date; wanted = wanted } }
{
    Day { date, wanted }
}

// When a bank was checked, and when the sources that give the wanted days were updated, the oldest time; TT_UNKNOWN_TIME if it is not
// known.
//   region: the region, TT_REGION_SIZE bytes
//   bank: 0 or 1
//   day0: a date
//   day1: a date
//   day2: a date
//   wanted0: whether the first date counts; it must be one in any case
//   wanted1: the same of the second
//   wanted2: the same of the third
//   at: the time now: an updated time after it is unknown
//   refusals: 1, 2, 3, 4, 5, 6
#[unsafe(no_mangle)]
pub extern "C" fn tt_fresh(
    region: &[u8],
    bank: u32,
    day0: u32,
    day1: u32,
    day2: u32,
    wanted0: bool,
    wanted1: bool,
    wanted2: bool,
    at: i64,
) -> FreshNumbers
    ensures { result ≡ Answers.of_fresh (Fresh.fresh_answer region.now bank (record { first = record { date = day0; wanted = wanted0 }; second = record { date = day1; wanted = wanted1 }; third = record { date = day2; wanted = wanted2 } }) at) }
{
    let days = Days {
        first: day(day0, wanted0),
        second: day(day1, wanted1),
        third: day(day2, wanted2),
    };
    FreshNumbers::from(snapshot::freshness::fresh(region, bank, days, at))
}

fn refusal_of_capacity(capacity: usize) -> u32
    ensures { result ≡ pick (leb record_size capacity) 0 (number_of Small) }
{
    if capacity < RECORD_SIZE {
        return number_u32(Refusal::Small);
    }
    0
}

// Writes a source's record to the first TT_RECORD_SIZE bytes of out, in version 3's form. Gives 0 or the refusal.
//   region: the region, TT_REGION_SIZE bytes
//   bank: 0 or 1
//   index: the source's, below the bank's count
//   out: a buffer of at least TT_RECORD_SIZE bytes
//   refusals: 1, 2, 3, 4, 5, 6, 6 by the index, 9
#[unsafe(no_mangle)]
pub extern "C" fn tt_source(region: &[u8], bank: u32, index: u32, out: &mut [u8]) -> u32
    ensures value { result ≡ Answers.refusal_of (length out.old) (Sources.source_answer region.now bank index) }
    ensures out_after { out.new ≡ Answers.output_of out.old (Sources.source_answer region.now bank index) }
{
    let small = refusal_of_capacity(out.len());
    match snapshot::source::source(region, bank, index) {
        Ok(s) => {
            record::encode(s, out, 0);
            small
        }
        Err(r) => number_u32(r),
    }
}

// Reads the row at an offset of a source's table: its values, joined, to the first bytes of out, and to ends the offset in out where each
// ends. A row ends in LF or CRLF; a CR outside quotes that no LF follows meets 14. Offset 0 is the table's names line. At the table's end found is
// 0, and that is no refusal.
//   region: the region, TT_REGION_SIZE bytes
//   bank: 0 or 1
//   source: its index, below the bank's count
//   table: TT_TABLE_ROUTES to TT_TABLE_TRANSFERS
//   place: the row's offset in the table: 0, or the next that the row before gave
//   out: a buffer; TT_MAX_ROW bytes are enough for any row
//   ends: at least as many elements as the table has columns; TT_MAX_COLUMNS are enough for any table
//   refusals: 1, 2, 3, 4, 5, 6, 6 by the source, 14, 9
#[unsafe(no_mangle)]
pub extern "C" fn tt_bank_row(
    region: &[u8],
    bank: u32,
    source: u32,
    table: u32,
    place: usize,
    out: &mut [u8],
    ends: &mut [usize],
) -> BankRowNumbers
    ensures value { result ≡ Answers.of_bank_row (Rows.bank_row_answer region.now bank source table place (length out.old) (length ends.old)) }
    ensures out_after { out.new ≡ StoredRows.after (Rows.bank_row_answer region.now bank source table place (length out.old) (length ends.old)) (StoredRows.joined (Rows.values_in region.now bank source table place)) out.old }
    ensures ends_after { ends.new ≡ StoredRows.after (Rows.bank_row_answer region.now bank source table place (length out.old) (length ends.old)) (StoredRows.ends_of 0 (Rows.values_in region.now bank source table place)) ends.old }
{
    let a = table_block(region, bank, source, table);
    match a {
        Ok(b) => {
            let stored = bytes_of(region, bank, b);
            let width = column_count(table);
            // called here, and not `read_row`, so that the reader has one caller and is inlined there
            BankRowNumbers::from(tt_read_row(stored, width, place, out, ends))
        }
        Err(r) => no_bank_row(number_u32(r)),
    }
}
