// The Gregorian month: which years are leap years, how many days a month has, which days there are.
//
// Twelve months have 365 days. The earth needs nearly a quarter of a day more for its way round the sun, so every
// fourth year has one day more, 29 February: 2020, 2024, 2028. That is a little too much, three days in 400 years.
// So of the years that 100 divides only those are leap years that 400 divides too: 2000 is one, 1700, 1800 and 1900
// are not, though 4 divides them. Here the rule holds for all years from 0000, also for those before it was made.
//
// specs/Month.antt defines the same rule. Crate times, specs/MonthRule.antt, shows that in every month DATE accepts exactly the days
// from 1 to the length that is given here.
#![tactic(auto, unfolding(octets::specs::Computing::octets_compute, crate::specs::Month::is_leap_year, crate::specs::Month::has_thirty_days, crate::specs::Month::days_in_month, crate::specs::Month::is_day))]

ghost use Rattle.std.specs.Prelude.{◌≡◌};
ghost use Rattle.octets.specs.Pick.{within};
ghost use Rattle.gregorian.specs.Month.{is_leap_year, days_in_month, is_day};

const FEBRUARY: u8 = 2;

const APRIL: u8 = 4;

const JUNE: u8 = 6;

const SEPTEMBER: u8 = 9;

const NOVEMBER: u8 = 11;

// Whether the year has a 29 February.
fn is_leap_year(year: u16) -> bool
    ensures { result ≡ is_leap_year year }
{
    if year % 100 == 0 {
        return year % 400 == 0;
    }
    year % 4 == 0
}

// The length of a month: February has 28 days, in a leap year 29; four months have 30; all others have 31.
fn days_in_month(year: u16, month: u8) -> u8
    ensures { result ≡ days_in_month year month }
{
    match month {
        FEBRUARY if is_leap_year(year) => 29,
        FEBRUARY => 28,
        APRIL | JUNE | SEPTEMBER | NOVEMBER => 30,
        _ => 31,
    }
}

fn is_within(lo: u8, hi: u8, x: u8) -> bool
    ensures { result ≡ within lo hi x }
{
    lo <= x && x <= hi
}

// Whether there is such a day: the month is from 1 to 12, and the day from 1 to the month's length.
pub fn is_day(year: u16, month: u8, day: u8) -> bool
    ensures { result ≡ is_day year month day }
{
    is_within(1, 12, month) && is_within(1, days_in_month(year, month), day)
}
