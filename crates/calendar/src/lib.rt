// The clock: seconds since 2000-01-01 00:00:00, and the date-times of the years 2000 to 2099.
#![tactic(auto)]

ghost use Rattle.std.specs.Prelude.{◌≡◌, ℕ, ◌+◌, ◌*◌, ◌/◌, ◌%◌, ◌<◌, ◌≤◌, IfSome, if◌then◌else◌, MatchBool};
ghost use Rattle.std.specs.Prelude.{nat_lt};
ghost use Rattle.std.specs.List.{find, range_with_len};
ghost use Rattle.std.specs.Option.{SomeIff};
ghost use Rattle.calendar.specs.Calendar.{seconds_in_all, weekday_of, leap_year, month_length, before_month, before_year, day_of, second_of, RealDay, Real, is_real, second_if_real, Names, DateOf, date_of, date_if_in_range, bytes_of, of_bytes};
ghost use Rattle.calendar.specs.Laws.{Laws, SecondBack, DateBack};

const SECONDS_IN_DAY: u32 = 86_400;

const DAYS_IN_ALL: u32 = 36_525;

// A date and a time of day. The year is counted from 2000; months and days are counted from 1.
#[derive(Clone, Copy, PartialEq, Eq, Debug)]
pub struct DateTime {
    pub year: u8,
    pub month: u8,
    pub day: u8,
    pub hour: u8,
    pub minute: u8,
    pub second: u8,
}

// How many seconds the calendar has.
#[tactic(auto, using(crate::proofs::Whole::laws))]
pub fn seconds() -> u32
    ensures value { result ≡ seconds_in_all }
    ensures laws { Laws }
{
    DAYS_IN_ALL * SECONDS_IN_DAY
}

// The day number of a second, and the second of that day.
pub fn split(second: u32) -> (u32, u32)
    ensures { result ≡ (second / 86400, second % 86400) }
{
    (second / SECONDS_IN_DAY, second % SECONDS_IN_DAY)
}

// The day of the week of a day number, Sunday as 0. Day 0 was a Saturday.
pub fn weekday(day: u32) -> u8
    ensures { result ≡ weekday_of day }
{
    ((day % 7 + 6) % 7) as u8
}

// The day of the week on which a second falls.
pub fn weekday_at(second: u32) -> u8
    ensures { result ≡ weekday_of (second / 86400) }
{
    let (day, _) = split(second);
    weekday(day)
}

fn is_leap_year(year: u8) -> bool
    ensures { result ≡ leap_year year }
{
    year % 4 == 0
}

fn month_length(leap: bool, month: u8) -> u8
    requires { (1 ≤ month) × (month ≤ 12) }
    ensures value { result ≡ month_length leap month }
    ensures bound { result ≤ 31 }
{
    match month {
        2 => if leap { 29 } else { 28 },
        4 | 6 | 9 | 11 => 30,
        _ => 31,
    }
}

// The days of a year before a month of it.
fn before_month(leap: bool, month: u8) -> u32
    requires { (1 ≤ month) × (month ≤ 12) }
    ensures value { result ≡ before_month leap month }
    ensures bound { result + month_length leap month ≤ 365 + (if leap then 1 else 0) }
{
    let february = if leap { 29 } else { 28 };
    match month {
        1 => 0,
        2 => 31,
        3 => 31 + february,
        4 => 62 + february,
        5 => 92 + february,
        6 => 123 + february,
        7 => 153 + february,
        8 => 184 + february,
        9 => 215 + february,
        10 => 245 + february,
        11 => 276 + february,
        _ => 306 + february,
    }
}

// The days before a year: four years have 1461, and the first of the four is the leap year.
#[tactic(auto, using(crate::proofs::Count::before_year_lem))]
fn before_year(year: u8) -> u32
    requires { year < 100 }
    ensures value { result ≡ before_year year }
    ensures closed { result ≡ (year * 1461 + 3) / 4 }
{
    (u32::from(year) * 1461 + 3) / 4
}

// The month that has a day of a year, counted from 0; none if it is the last.
fn month_but_last(leap: bool, day: u32) -> Option<u8>
    ensures { result ≡ find (λ m. nat_lt day (before_month leap (m + 1))) (range_with_len 1 11) }
{
    (1..12).find(|&month| day < before_month(leap, month + 1))
}

// The same for every month.
fn month_of(leap: bool, day: u32) -> u8
    requires { day < 365 + (if leap then 1 else 0) }
    ensures month { (1 ≤ result) × (result ≤ 12) }
    ensures first { before_month leap result ≤ day }
    ensures last { day < before_month leap result + month_length leap result }
{
    month_but_last(leap, day).unwrap_or(12)
}

// The year, month and day of a day number.
fn date_of_day(days: u32) -> (u8, u8, u8)
    requires { days < 36525 }
    ensures real { RealDay result.0 result.1 result.2 }
    ensures counts { day_of result.0 result.1 result.2 ≡ days }
{
    let year = (days * 4 / 1461) as u8;
    let leap = is_leap_year(year);
    let in_year = days - before_year(year);
    let month = month_of(leap, in_year);
    let in_month = in_year - before_month(leap, month);
    (year, month, (in_month + 1) as u8)
}

fn date_time(second: u32) -> DateTime
    requires { second < seconds_in_all }
    ensures names { Names second result }
    ensures equation { result ≡ date_of second }
{
    let (days, rest) = split(second);
    let (year, month, day) = date_of_day(days);
    DateTime {
        year,
        month,
        day,
        hour: (rest / 3600) as u8,
        minute: (rest / 60 % 60) as u8,
        second: (rest % 60) as u8,
    }
}

// The date-time of a second; none from the first second of 2100 on.
pub fn from_second(second: u32) -> Option<DateTime>
    ensures meaning { DateOf second result }
    ensures equation { result ≡ date_if_in_range second }
{
    if second < seconds() {
        Some(date_time(second))
    } else {
        None
    }
}

// Year, month, day, hour, minute and second, a byte each. The bytes may name no real date-time.
impl From<[u8; 6]> for DateTime {
    ghost from_gives = { λ bytes date. date ≡ of_bytes bytes };

    fn from(bytes: [u8; 6]) -> DateTime {
        let [year, month, day, hour, minute, second] = bytes;
        DateTime {
            year,
            month,
            day,
            hour,
            minute,
            second,
        }
    }
}

impl From<DateTime> for [u8; 6] {
    ghost from_gives = { λ date bytes. bytes ≡ bytes_of date };

    fn from(date: DateTime) -> [u8; 6] {
        [
            date.year,
            date.month,
            date.day,
            date.hour,
            date.minute,
            date.second,
        ]
    }
}

impl DateTime {
    // Whether the calendar has this date, and the day this time.
    pub fn is_real(&self) -> bool
        ensures meaning { MatchBool result (Real self.now) (Real self.now → ⊥) }
        ensures test { result ≡ is_real self.now }
    {
        self.year < 100
            && (1..=12).contains(&self.month)
            && (1..=month_length(is_leap_year(self.year), self.month)).contains(&self.day)
            && self.hour < 24
            && self.minute < 60
            && self.second < 60
    }

    // The second of a date-time; none if it is not real.
    pub fn to_second(&self) -> Option<u32>
        ensures meaning { SomeIff result (Real self.now) (second_of self.now) }
        ensures equation { result ≡ second_if_real self.now }
        ensures range { IfSome result (λ s. s < seconds_in_all) }
    {
        if !self.is_real() {
            return None;
        }
        let leap = is_leap_year(self.year);
        let day = before_year(self.year)
            + before_month(leap, self.month)
            + (u32::from(self.day) - 1);
        Some(
            ((day * 24 + u32::from(self.hour)) * 60 + u32::from(self.minute)) * 60
                + u32::from(self.second),
        )
    }
}

// A second, made a date-time and a second again.
pub fn second_and_back(second: u32) -> Option<u32>
    ensures { SecondBack second result }
{
    let date = from_second(second)?;
    let back = date.to_second()?;
    Some(back)
}

// A date-time, made a second and a date-time again.
pub fn date_and_back(date: DateTime) -> Option<DateTime>
    ensures { DateBack date result }
{
    let second = date.to_second()?;
    let back = from_second(second)?;
    Some(back)
}
