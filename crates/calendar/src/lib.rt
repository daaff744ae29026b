// Gregorian dates as eight digit bytes, YYYYMMDD, of the years 1900 to 2199 (SPEC.md, "Dates").
#![tactic(auto)]

ghost use Rattle.std.specs.Prelude.{true, ◌≡◌, ◌+◌, ◌/◌, ◌%◌, ◌≤◌, length, take, drop};
ghost use Rattle.decimal.specs.Bytes.{is_of, all};
ghost use Rattle.decimal.specs.Numbers.{number_of};
ghost use Rattle.calendar.specs.Dates.{is_leap, days_in, is_date, date_of, is_found};
ghost use Rattle.calendar.specs.AnyYear.{DateInAnyYear};

use decimal::Class;

// Three numbers, of which `is_date` says whether they are a date.
#[repr(C)]
#[derive(Clone, Copy, Debug, Default, PartialEq, Eq)]
pub struct Date {
    pub year: u64,
    pub month: u64,
    pub day: u64,
}

// Every fourth year, but of the years that end a century only every fourth.
fn is_leap(year: u64) -> bool
    ensures { result ≡ is_leap year }
{
    if year % 4 != 0 {
        return false;
    }
    if year % 100 != 0 {
        return true;
    }
    year % 400 == 0
}

// The days of any month but February: odd months have 31 up to July, even ones from August on.
fn month_end(month: u64) -> u64
    requires { month ≤ 12 }
    ensures { result ≡ 30 + (month + month / 8) % 2 }
{
    30 + (month + month / 8) % 2
}

// The days of a month; 0 where there is no such month.
fn days_in(year: u64, month: u64) -> u64
    ensures { result ≡ days_in year month }
{
    if month == 2 {
        if is_leap(year) {
            return 29;
        }
        return 28;
    }
    if month == 0 {
        return 0;
    }
    if 12 < month {
        return 0;
    }
    month_end(month)
}

// Whether it is a date of the years 1900 to 2199.
pub fn is_date(date: Date) -> bool
    ensures { result ≡ is_date date }
{
    if date.year < 1900 {
        return false;
    }
    if 2199 < date.year {
        return false;
    }
    if date.day < 1 {
        return false;
    }
    date.day <= days_in(date.year, date.month)
}

// The number of the two digits from an index on.
fn pair(bytes: &[u8], at: usize) -> u64
    requires { (at + 2 ≤ length bytes.now) × (all (is_of Class.Digit) bytes.now ≡ true) }
    ensures value { result ≡ number_of (take 2 (drop at bytes.now)) }
    ensures small { result ≤ 99 }
{
    (bytes[at] as u64 - 48) * 10 + (bytes[at + 1] as u64 - 48)
}

// The date that eight digits spell; none where there are not eight bytes, one is no digit, or they are no date.
#[tactic(auto, using(crate::proofs::Dates::no_eight, crate::proofs::Dates::no_digits))]
pub fn read_date(bytes: &[u8]) -> Option<Date>
    ensures { result ≡ date_of bytes.now }
{
    if bytes.len() != 8 {
        return None;
    }
    if !decimal::all_of(Class::Digit, bytes) {
        return None;
    }
    let date = Date {
        year: 100 * pair(bytes, 0) + pair(bytes, 2),
        month: pair(bytes, 4),
        day: pair(bytes, 6),
    };
    is_date(date).then_some(date)
}

// The fast path of `is_date_text`: true only for a day that is a date in every year of its century, so that the year
// need not be read; false decides nothing. It repeats the limits of `is_date` (the years 1900 to 2199 are the centuries
// 19 to 21) and the months of `days_in`, without the 29th of February, and must change with them. proofs/AnyYear.antt
// ties them.
fn is_date_in_any_year(century: u64, month: u64, day: u64) -> bool
    ensures { result ≡ true → DateInAnyYear century month day }
{
    if century < 19 {
        return false;
    }
    if 21 < century {
        return false;
    }
    if month < 1 {
        return false;
    }
    if 12 < month {
        return false;
    }
    if day < 1 {
        return false;
    }
    if day <= 28 {
        return true;
    }
    if month == 2 {
        return false;
    }
    day <= month_end(month)
}

// Whether the bytes are eight digits that spell a date: `read_date` finds one. False for any other number of bytes.
#[tactic(auto, using(crate::proofs::Dates::no_eight, crate::proofs::Dates::no_digits, crate::proofs::AnyYear::any_year_date))]
pub fn is_date_text(bytes: &[u8]) -> bool
    ensures { result ≡ is_found (date_of bytes.now) }
{
    if bytes.len() != 8 {
        return false;
    }
    if !decimal::all_of(Class::Digit, bytes) {
        return false;
    }
    if is_date_in_any_year(pair(bytes, 0), pair(bytes, 4), pair(bytes, 6)) {
        return true;
    }
    read_date(bytes).is_some()
}
