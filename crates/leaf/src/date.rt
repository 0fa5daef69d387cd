// Calendar dates.
ghost use Rattle.leaf.specs.Claims.{Dates};
ghost use Rattle.std.specs.Prelude.{◌≡◌, ◌∷◌, slice_index};
ghost use Rattle.leaf.specs.Date.{leap, month_days, new_date, valid_date};

// A date's number: year × 10000 + month × 100 + day.
#[derive(Clone, Copy)]
pub struct Date(pub u32);

// What a year and a month count in a date's number, and the last of each.
const YEAR_WEIGHT: u32 = 10000;

const MONTH_WEIGHT: u32 = 100;

const LAST_YEAR: u16 = 9999;

const LAST_YEAR_32: u32 = LAST_YEAR as u32;

const LAST_MONTH: u8 = 12;

// Whether a year is a leap year.
fn is_leap(year: u16) -> bool
    ensures { result ≡ leap year }
{
    (year % 4 == 0) & ((year % 100 != 0) | (year % 400 == 0))
}

// The days of each month of a common year; index 0 is no month.
static DAYS: [u8; 13] = [0, 31, 28, 31, 30, 31, 30, 31, 31, 30, 31, 30, 31];

// The days of a month, 0 if there is no such month.
#[tactic(auto, using(crate::proofs::Steps::no_month))]
fn month_days(year: u16, month: u8) -> u8
    ensures { result ≡ slice_index (0 ∷ month_days year) month }
{
    if LAST_MONTH < month {
        return 0;
    }
    let leap = is_leap(year);
    if (month == 2) & leap {
        return 29;
    }
    DAYS[month as usize]
}

impl Date {
    // The date of a year, a month and a day, if there is one.
    pub fn new(year: u16, month: u8, day: u8) -> Option<Date>
        ensures { result ≡ new_date year month day }
    {
        let days = month_days(year, month);
        if (1 <= year) & (year <= LAST_YEAR) & (1 <= day) & (day <= days) {
            Some(Date((year as u32) * YEAR_WEIGHT + (month as u32) * MONTH_WEIGHT + (day as u32)))
        } else {
            None
        }
    }
}

// Whether a number is a date's number.
#[tactic(auto, using(crate::proofs::Steps::late), unfolding(crate::specs::Date::valid_date))]
pub fn valid_date(d: u32) -> bool
    ensures { result ≡ valid_date d }
{
    let year = d / YEAR_WEIGHT;
    if LAST_YEAR_32 < year {
        return false;
    }
    let made = Date::new(
        year as u16,
        (d / MONTH_WEIGHT % MONTH_WEIGHT) as u8,
        (d % MONTH_WEIGHT) as u8,
    );
    match made {
        Some(_) => true,
        None => false,
    }
}

// What holds of dates. The function does nothing: its contract is what is proved of the definitions
// (specs/Claims.antt).
pub fn dates_hold()
    ensures { Dates }
{}
