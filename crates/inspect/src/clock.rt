// Times and days as dates.
use leaf::date::valid_date;
use std::fmt;
use std::num::{wrapping_add_u64, wrapping_sub_u64};

// Seconds from 1970 to the end of the year 9999.
const SECONDS_LIMIT: u64 = 253402300800;

const DAY_SECONDS: u64 = 86400;

const HOUR_SECONDS: u64 = 3600;

const DAY_HOURS: u64 = DAY_SECONDS / HOUR_SECONDS;

const MINUTE_SECONDS: u64 = 60;

// From the first of March of the year 0 to 1970. Years are counted from March, so that a leap day is a year's last.
const DAYS_BEFORE_1970: u64 = 719468;

// The Gregorian calendar repeats after 400 years.
const ERA_DAYS: u64 = 146097;

const ERA_YEARS: u64 = 400;
// The days after which a leap day was, or wasn't, added.
const FOUR_YEARS: u64 = 1460;

const CENTURY: u64 = 36524;

const LAST_ERA_DAY: u64 = 146096;

const YEAR_DAYS: u64 = 365;

const LEAP_YEARS: u64 = 4;

const YEARS_LIMIT: u64 = 10000;

// Five months from March on, and from August on, have 153 days.
const FIVE_MONTHS: u64 = 153;

const FIVE: u64 = 5;

const HALF_OF_FIVE: u64 = 2;

const MONTHS_LIMIT: u64 = 12;

// March is month 3, and the tenth month from it is January.
const MARCH: u64 = 3;

const JANUARY_AFTER: u64 = 10;

const HUNDRED: u64 = 100;

const YEAR_UNIT: u64 = 10000;

// A day of the calendar.
#[derive(Clone, Copy)]
struct Day {
    year: u64,
    month: u64,
    day: u64,
}

impl fmt::Display for Day {
    fn fmt<W: fmt::Write>(&self, f: &mut fmt::Formatter<W>) -> fmt::Result {
        write!(
            f,
            "{:04}-{:02}-{:02}",
            self.year % YEARS_LIMIT,
            self.month % HUNDRED,
            self.day % HUNDRED
        )
    }
}

// A time of a day.
#[derive(Clone, Copy)]
pub struct Time {
    day: Day,
    second: u64,
}

impl fmt::Display for Time {
    fn fmt<W: fmt::Write>(&self, f: &mut fmt::Formatter<W>) -> fmt::Result {
        let day = self.day;
        let n = self.second;
        write!(
            f,
            "{day} {:02}:{:02}:{:02}",
            n / HOUR_SECONDS % DAY_HOURS,
            n / MINUTE_SECONDS % MINUTE_SECONDS,
            n % MINUTE_SECONDS
        )
    }
}

// The year of an era that a day of it is in.
fn year_of_era(day: u64) -> u64 {
    let less = wrapping_sub_u64(day, day / FOUR_YEARS);
    let more = wrapping_add_u64(less, day / CENTURY);
    wrapping_sub_u64(more, day / LAST_ERA_DAY) / YEAR_DAYS
}

// The days of an era before one of its years.
fn days_before(year: u64) -> u64 {
    let y = year % ERA_YEARS;
    wrapping_sub_u64(wrapping_add_u64(y * YEAR_DAYS, y / LEAP_YEARS), y / HUNDRED)
}

// The days of a year before one of its months, both from March.
fn days_before_month(month: u64) -> u64 {
    ((month % MONTHS_LIMIT) * FIVE_MONTHS + HALF_OF_FIVE) / FIVE
}

// The month from March on that a day of a year is in.
fn month_of(day: u64) -> u64 {
    ((day % ERA_DAYS) * FIVE + HALF_OF_FIVE) / FIVE_MONTHS
}

// A day by how many are before it, from 1970 on.
fn day_at(n: u64) -> Day {
    let z = wrapping_add_u64(n, DAYS_BEFORE_1970);
    let of_era = z % ERA_DAYS;
    let y = year_of_era(of_era);
    let of_year = wrapping_sub_u64(of_era, days_before(y));
    let m = month_of(of_year);
    let day = wrapping_add_u64(wrapping_sub_u64(of_year, days_before_month(m)), 1);
    let year = wrapping_add_u64((z / ERA_DAYS) % YEARS_LIMIT * ERA_YEARS, y);
    if m < JANUARY_AFTER {
        return Day {
            year,
            month: wrapping_add_u64(m, MARCH),
            day,
        };
    }
    Day {
        year: wrapping_add_u64(year, 1),
        month: wrapping_sub_u64(m, JANUARY_AFTER - 1),
        day,
    }
}

// The time of a number of seconds, if it is printed as a date: from 1970 to 9999.
pub fn time_of(z: i64) -> Option<Time> {
    let n = u64::try_from(z).ok()?;
    if SECONDS_LIMIT <= n {
        return None;
    }
    Some(Time {
        day: day_at(n / DAY_SECONDS),
        second: n % DAY_SECONDS,
    })
}

// A time in seconds, with its date if it has one.
#[derive(Clone, Copy)]
pub struct Dated(pub i64);

impl fmt::Display for Dated {
    fn fmt<W: fmt::Write>(&self, f: &mut fmt::Formatter<W>) -> fmt::Result {
        let z = self.0;
        match time_of(z) {
            Some(time) => write!(f, "{z} ({time} UTC)"),
            None => write!(f, "{z}"),
        }
    }
}

// A time that may be unknown: the lowest is.
#[derive(Clone, Copy)]
pub struct Known(pub i64);

impl fmt::Display for Known {
    fn fmt<W: fmt::Write>(&self, f: &mut fmt::Formatter<W>) -> fmt::Result {
        let dated = Dated(self.0);
        if self.0 == i64::MIN {
            write!(f, "unknown")
        } else {
            write!(f, "{dated}")
        }
    }
}

// A day as 2026-01-01, or its number if it is no date.
#[derive(Clone, Copy)]
pub struct Date(pub u32);

impl fmt::Display for Date {
    fn fmt<W: fmt::Write>(&self, f: &mut fmt::Formatter<W>) -> fmt::Result {
        let d = self.0;
        if !valid_date(d) {
            return write!(f, "{d}");
        }
        let n = u64::from(d);
        let day = Day {
            year: n / YEAR_UNIT,
            month: n / HUNDRED,
            day: n,
        };
        write!(f, "{day}")
    }
}
