//! The calendar.

ghost use Rattle.std.specs.Prelude.{◌≡◌, ◌+◌, ◌-◌, ◌*◌, ◌≤◌};
ghost use Rattle.httpdate.specs.Calendar.{days_in_month, days_in_year, days_of_months, days_of_years, is_leap_year};

// Whether a year has one more day.
fn is_leap_year(year: u64) -> bool
    ensures { result ≡ is_leap_year year }
{
    year % 4 == 0 && (year % 100 != 0 || year % 400 == 0)
}

/// How many days a year has.
pub fn days_in_year(year: u64) -> u64
    ensures value { result ≡ days_in_year year }
    ensures few { result ≤ 366 }
{
    if is_leap_year(year) { 366 } else { 365 }
}

/// How many days a month of a year has. It is counted from 1.
pub fn days_in_month(year: u64, month: u64) -> u64
    ensures value { result ≡ days_in_month year month }
    ensures few { result ≤ 31 }
{
    match month {
        2 => { if is_leap_year(year) { 29 } else { 28 } }
        4 | 6 | 9 | 11 => 30,
        _ => 31,
    }
}

/// How many days the years from 1970 up to a year have, without that year.
pub fn days_before_year(year: u64) -> u64
    requires first { 1970 ≤ year }
    requires last { year ≤ 9999 }
    ensures value { result ≡ days_of_years (year - 1970) }
    ensures few { result ≤ 366 * 8029 }
{
    let mut days = 0;
    for before in 1970..year {
        days += days_in_year(before);
    }
    days
}

/// How many days the months of a year before a month have.
pub fn days_before_month(year: u64, month: u64) -> u64
    requires first { 1 ≤ month }
    requires last { month ≤ 12 }
    ensures value { result ≡ days_of_months year (month - 1) }
    ensures few { result ≤ 31 * 11 }
{
    let mut days = 0;
    for before in 1..month {
        days += days_in_month(year, before);
    }
    days
}
