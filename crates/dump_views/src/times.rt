//! The text of a time.

ghost use Rattle.std.specs.Prelude.{◌≡◌, ◌<◌, ◌≤◌, ◌+◌, ◌/◌, ◌++◌, ℕ, List, IfSome, is_some, length, nat_le};
ghost use Rattle.dump_views.specs.Texts.{clock_text, date_text, day_of, day_since, two_digits, utc_column, utc_text};
ghost use Rattle.dump_views.specs.Texts.{year_text};

use jiff_core::civil::Date;
use script_lines::{MAX_TEXT, Text};

/// The seconds of a day.
const DAY: u64 = 86_400;

/// The column of a time where none is known.
const NO_UTC: &[u8; 20] = b"-                   ";

/// Adds the column of a time by UTC, 20 bytes: as `2026-11-30T12:00:00Z`, and `-` where no time is known, or one behind
/// the year 9999.
pub fn push_utc(text: &mut Text, seconds: Option<u64>)
    requires { length text.old + 20 ≤ MAX_TEXT }
    ensures value { text.new ≡ text.old ++ utc_column seconds }
    ensures fits { length text.new ≡ length text.old + 20 }
{
    match seconds {
        Some(seconds) => push_utc_moment(text, seconds),
        None => text.push(NO_UTC),
    }
}

/// Adds the text of a time by UTC, 20 bytes.
fn push_utc_moment(text: &mut Text, seconds: u64)
    requires { length text.old + 20 ≤ MAX_TEXT }
    ensures value { text.new ≡ text.old ++ utc_text seconds }
    ensures fits { length text.new ≡ length text.old + 20 }
{
    match day_at(seconds) {
        Some(date) => {
            push_date(text, date);
            text.push(b"T");
            push_clock(text, (seconds % DAY) as u32);
            text.push(b"Z");
        }
        None => text.push(NO_UTC),
    }
}

/// The day by UTC of so many seconds since 1970, if it is not behind the year 9999.
fn day_at(seconds: u64) -> Option<Date>
    ensures day { IfSome result (λ date. day_of date ≡ day_since (seconds / DAY)) }
    ensures told { is_some result ≡ nat_le (day_since (seconds / DAY)).year 9999 }
{
    match Date::from_unix_epoch_day((seconds / DAY) as i64) {
        Ok(date) => Some(date),
        Err(_) => None,
    }
}

/// Adds a date, 10 bytes.
fn push_date(text: &mut Text, date: Date)
    requires { length text.old + 10 ≤ MAX_TEXT }
    ensures { text.new ≡ text.old ++ date_text (day_of date) }
{
    push_year(text, date.year.unsigned_abs());
    text.push(b"-");
    text.push(&two_digits(u16::from(date.month)));
    text.push(b"-");
    text.push(&two_digits(u16::from(date.day)));
}

/// Adds the last four digits of a year.
fn push_year(text: &mut Text, year: u16)
    requires { length text.old + 4 ≤ MAX_TEXT }
    ensures { text.new ≡ text.old ++ year_text year }
{
    text.push(&two_digits(year / 100));
    text.push(&two_digits(year));
}

/// Adds a time of day, 8 bytes.
fn push_clock(text: &mut Text, seconds: u32)
    requires day { seconds < DAY }
    requires room { length text.old + 8 ≤ MAX_TEXT }
    ensures { text.new ≡ text.old ++ clock_text seconds }
{
    text.push(&two_digits((seconds / 3600) as u16));
    text.push(b":");
    text.push(&two_digits((seconds / 60 % 60) as u16));
    text.push(b":");
    text.push(&two_digits((seconds % 60) as u16));
}

/// The last two digits of a number.
fn two_digits(number: u16) -> [u8; 2]
    ensures { result ≡ two_digits number }
{
    [b'0' + (number / 10 % 10) as u8, b'0' + (number % 10) as u8]
}
