// When a loaded bank was checked, and when the sources of the wanted days were updated.
ghost use Rattle.std.specs.Prelude.{◌≡◌, not, ◌&&◌, leb, pos, ◌≤◌};
ghost use Rattle.std.specs.Int.Signed.{le_z};
ghost use Rattle.header.specs.Header.{records_of, max_sources};
ghost use Rattle.base.specs.Number.{pick};
ghost use Rattle.base.specs.Lists.{each};
ghost use Rattle.snapshot.specs.Freshness as Fresh;
ghost use Rattle.snapshot.specs.Steps as Steps;

use crate::header_if;
use header::{Bank, RECORDS_OFFSET, record_at};
use leaf::date::valid_date;
use record::{Source, source_size};
use refusal::Refusal;
use region::bank_of;

// A day to be shown, and whether it is wanted.
#[derive(Clone, Copy)]
pub struct Day {
    pub date: u32,
    pub wanted: bool,
}

#[derive(Clone, Copy)]
pub struct Days {
    pub first: Day,
    pub second: Day,
    pub third: Day,
}

// When the bank was checked, and when its oldest used source was updated; the lowest value means unknown.
#[derive(Clone, Copy)]
pub struct Freshness {
    pub checked: i64,
    pub updated: i64,
}

// Of the sources used so far: whether each has a known time, and the oldest time.
#[derive(Clone, Copy)]
struct SourceTimes {
    complete: bool,
    oldest: Option<i64>,
}

fn has_day(start: u32, end: u32, date: u32) -> bool
    ensures { result ≡ (leb start date && leb date end) }
{
    (start <= date) & (date <= end)
}

// The day, no longer wanted if a source with these dates has it.
fn wanted_after(start: u32, end: u32, d: Day) -> Day
    ensures { result ≡ record { date = d.date; wanted = d.wanted && not (leb start d.date && leb d.date end) } }
{
    Day {
        date: d.date,
        wanted: d.wanted & !has_day(start, end, d.date),
    }
}

// Whether a source gives any of the days.
fn gives_any(s: Source, d: Days) -> bool
    ensures { result ≡ Fresh.gives_any s (Fresh.days_of d) }
{
    (d.first.wanted & has_day(s.start, s.end, d.first.date))
        | ((d.second.wanted & has_day(s.start, s.end, d.second.date))
            | (d.third.wanted & has_day(s.start, s.end, d.third.date)))
}

fn three_wanted_after(s: Source, d: Days) -> Days
    ensures { result ≡ Steps.three_wanted_after s d }
{
    Days {
        first: wanted_after(s.start, s.end, d.first),
        second: wanted_after(s.start, s.end, d.second),
        third: wanted_after(s.start, s.end, d.third),
    }
}

fn known(now: i64, u: i64) -> bool
    ensures { result ≡ (le_z (pos 0) u && le_z u now) }
{
    (0 <= u) & (u <= now)
}

fn observed(now: i64, t: SourceTimes, s: Source) -> SourceTimes
    ensures { result ≡ Steps.observed now t s }
{
    let u = s.updated;
    let oldest = match t.oldest {
        Some(o) => o.min(u),
        None => u,
    };
    SourceTimes {
        complete: t.complete & known(now, u),
        oldest: Some(oldest),
    }
}

fn updated_of(t: SourceTimes) -> i64
    ensures { result ≡ Steps.updated_of t }
{
    match t.oldest {
        Some(oldest) if t.complete => oldest,
        _ => i64::MIN,
    }
}

// The state between two sources.
#[derive(Clone, Copy)]
struct Seen {
    times: SourceTimes,
    days: Days,
}

// The state after one more source.
fn after_source(at: i64, x: Seen, s: Source) -> Seen
    ensures { result ≡ Steps.after_source at x s }
{
    if gives_any(s, x.days) {
        return Seen {
            times: observed(at, x.times, s),
            days: three_wanted_after(s, x.days),
        };
    }
    x
}

// The oldest updated time of the sources used among a bank's first n.
fn updated_in(l: &[u8], version: u32, n: usize, days: Days, at: i64) -> i64
    requires { n ≤ max_sources }
    ensures { result ≡ Fresh.updated_at at (Fresh.used (Fresh.days_of days) (records_of version l.now n)) }
{
    let size = source_size(version);
    let mut x = Seen {
        times: SourceTimes {
            complete: true,
            oldest: None,
        },
        days,
    };
    for i in 0..n {
        x = after_source(at, x, record_at(l, version, RECORDS_OFFSET + i * size));
    }
    updated_of(x.times)
}

fn checked_at(now: i64, checked: i64) -> i64
    ensures { result ≡ pick (le_z checked now) checked Fresh.unknown }
{
    if checked <= now { checked } else { i64::MIN }
}

fn fresh_in(region: &[u8], b: Bank, days: Days, at: i64) -> Freshness
    requires { b.count ≤ max_sources }
    ensures { result ≡ Fresh.freshness region.now b days at }
{
    let l = bank_of(region, b.number);
    let updated = updated_in(l, b.version, b.count as usize, days, at);
    let checked = checked_at(at, b.checked);
    Freshness { checked, updated }
}

fn are_days(d: Days) -> bool
    ensures { result ≡ each Fresh.is_day (Fresh.days_of d) }
{
    valid_date(d.first.date) & (valid_date(d.second.date) & valid_date(d.third.date))
}

// How fresh a bank is at time `at`, for three days.
pub fn fresh(region: &[u8], number: u32, days: Days, at: i64) -> Result<Freshness, Refusal>
    ensures { result ≡ Fresh.fresh_answer region.now number days at }
{
    let fits = are_days(days);
    let b = header_if(fits, region, number)?;
    let f = fresh_in(region, b, days, at);
    Ok(f)
}
