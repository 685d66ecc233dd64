//! Moments.

ghost use Rattle.std.specs.Prelude.{◌≡◌, ◌<◌, ◌≤◌, true};
ghost use Rattle.aatry_words.specs.Moments.{is_moment, moment_of, month_in, most_months, most_years, seconds_to, year_in};

use crate::calendar::{days_before_month, days_before_year, days_in_month, days_in_year};

// How many years there are from 1970 on, and how many months of a year.
const MOST_YEARS: u64 = 8_030;

const MOST_MONTHS: u64 = 12;

// A day of the calendar, and a time of the day.
#[derive(Clone, Copy)]
pub struct Moment {
    pub year: u64,
    // From 1.
    pub month: u64,
    // From 1.
    pub day: u64,
    pub hour: u64,
    pub minute: u64,
    pub second: u64,
}

// The year of a day, by how many days it is after the start of 1970, and how many days it is after the start of that year.
fn year_in(days: u64) -> (u64, u64)
    ensures value { result ≡ year_in most_years 1970 days }
    ensures few { result.1 ≤ days }
{
    let mut year = 1970;
    let mut left = days;
    for _count in 0..MOST_YEARS {
        let size = days_in_year(year);
        if left < size {
            return (year, left);
        }
        left -= size;
        year += 1;
    }
    (year, left)
}

// The month of a day of a year, by how many days it is after the start of the year, and how many days it is after the start of that month.
fn month_in(year: u64, days: u64) -> (u64, u64)
    ensures value { result ≡ month_in most_months year 1 days }
    ensures few { result.1 ≤ days }
{
    let mut month = 1;
    let mut left = days;
    for _count in 0..MOST_MONTHS {
        let size = days_in_month(year, month);
        if left < size {
            return (month, left);
        }
        left -= size;
        month += 1;
    }
    (month, left)
}

/// The moment so many seconds after the start of 1970.
pub fn moment_of(seconds: u64) -> Moment
    ensures { result ≡ moment_of seconds }
{
    let of_day = seconds % 86_400;
    let (year, days) = year_in(seconds / 86_400);
    let (month, past) = month_in(year, days);
    Moment {
        year,
        month,
        day: past + 1,
        hour: of_day / 3600,
        minute: of_day % 3600 / 60,
        second: of_day % 60,
    }
}

impl Moment {
    // Whether the calendar has its day, from 1970 to 9999, and the clock its time.
    pub fn is_moment(&self) -> bool
        ensures { result ≡ is_moment self.now }
    {
        1970 <= self.year
            && self.year <= 9999
            && 1 <= self.month
            && self.month <= 12
            && 1 <= self.day
            && self.day <= days_in_month(self.year, self.month)
            && self.hour < 24
            && self.minute < 60
            && self.second < 60
    }

    // The seconds from the start of 1970 to it.
    pub fn seconds_to(&self) -> u64
        requires { is_moment self.now ≡ true }
        ensures { result ≡ seconds_to self.now }
    {
        let days = days_before_year(self.year) + days_before_month(self.year, self.month);
        let of_day = self.hour * 3600 + self.minute * 60 + self.second;
        (days + (self.day - 1)) * 86_400 + of_day
    }
}
