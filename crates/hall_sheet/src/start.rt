//! The civil time or moment that the text of a start names.
ghost use Rattle.std.specs.Prelude.{◌≡◌, ◌≤◌, ◌<◌, ◌^◌, ◌-◌, length, true, option_map, pos, IfOk, IfSome};
ghost use Rattle.std.specs.List.{list_all};
ghost use Rattle.std.specs.Prelude.{slice_range};
ghost use Rattle.std.specs.Char.{is_ascii_digit};
ghost use Rattle.std.specs.Str.Parse.{digits_value};
ghost use Rattle.jiff_core.specs.Calendar.{days_from_civil, IsDate};
ghost use Rattle.jiff_core.specs.Date.{epoch_day};
ghost use Rattle.jiff_core.specs.Time.{time_seconds};
ghost use Rattle.hall_policy.specs.Reading.{or_fault};
ghost use Rattle.hall_sheet.specs.Civil.{civil_seen};
ghost use Rattle.hall_sheet.specs.Given.{Gives};
ghost use Rattle.hall_sheet.specs.Start.{fits_mark, has_form, number_at, day_in, clock_in, civil_in, distance_in};
ghost use Rattle.hall_sheet.specs.Start.{offset_in, start_in};
ghost use Rattle.hall_sheet.specs.declared.fault.Refusal.TheVariants.{Start};

use crate::fault::{Field, Refusal, SheetFault};
use crate::table::in_range;
use hall_policy::Moment;
use jiff::civil::{Date, DateTime, Time};
use jiff_core::civil::Time as PlainTime;

/// How many bytes a civil time has; the offset follows.
const CIVIL: usize = 19;

const NO_START: SheetFault = SheetFault::Refused(Refusal::Start);

/// Whether the byte fits the mark: 0 stands for any digit, another mark for itself.
fn fits_mark(mark: u8, byte: u8) -> bool
    ensures { result ≡ fits_mark mark byte }
{
    if mark == b'0' {
        byte.is_ascii_digit()
    } else {
        byte == mark
    }
}

/// Whether the text has a byte for each mark of the form, and no more.
fn has_form(text: &[u8], form: &[u8]) -> bool
    ensures { result ≡ has_form form.now text.now }
{
    text.len() == form.len()
        && form
            .iter()
            .zip(text)
            .all(|(mark, byte)| fits_mark(*mark, *byte))
}

/// The number that up to four digits write.
fn number(digits: &[u8]) -> u32
    requires few { length digits.now ≤ 4 }
    requires digits { list_all is_ascii_digit digits.now ≡ true }
    ensures { result ≡ digits_value 10 digits.now }
{
    let mut value = 0;
    for digit in digits {
        value = value * 10 + u32::from(*digit - b'0');
    }
    value
}

/// The date of a year, a month and a day, where the calendar has it in the years 0 to 9999.
fn date_of(year: u32, month: u32, day: u32) -> Option<Date>
    ensures day { option_map epoch_day result ≡ day_in year month day }
    ensures year { IfSome result (λ date. date.year ≡ pos year) }
{
    let year = i16::try_from(year).ok()?;
    let month = i8::try_from(month).ok()?;
    let day = i8::try_from(day).ok()?;
    Date::new(year, month, day).ok()
}

/// The seconds of hours, minutes and seconds that a clock shows.
fn clock_seconds(hours: u32, minutes: u32, seconds: u32) -> Option<u32>
    ensures value { result ≡ clock_in hours minutes seconds }
    ensures day { IfSome result (λ second. second < 86_400) }
{
    if hours > 23 || minutes > 59 || seconds > 59 {
        return None;
    }
    Some(3600 * hours + 60 * minutes + seconds)
}

/// The time of day that a clock shows as hours, minutes and seconds.
fn time_of(hours: u32, minutes: u32, seconds: u32) -> Option<Time>
    ensures clock { option_map time_seconds result ≡ clock_in hours minutes seconds }
    ensures whole { IfSome result (λ time. time.subsec_nanosecond ≡ 0) }
{
    let second = clock_seconds(hours, minutes, seconds)?;
    Some(Time::from_plain(PlainTime::from_second(second, 0)))
}

/// The civil time, in whole seconds, where the text is one that exists.
#[tactic(auto, using(crate::proofs::Forms::civil_digits))]
fn civil_time(text: &[u8]) -> Option<DateTime>
    ensures value { option_map civil_seen result ≡ civil_in text.now }
    ensures whole { IfSome result (λ civil. civil.time.subsec_nanosecond ≡ 0) }
{
    if !has_form(text, b"0000-00-00T00:00:00") {
        return None;
    }
    let date = date_of(
        number(&text[0..4]),
        number(&text[5..7]),
        number(&text[8..10]),
    )?;
    let time = time_of(
        number(&text[11..13]),
        number(&text[14..16]),
        number(&text[17..19]),
    )?;
    Some(DateTime::from_parts(date, time))
}

/// The civil time, in whole seconds, that a text names.
pub(crate) fn read_civil(text: &[u8]) -> Result<DateTime, SheetFault>
    ensures value { Gives civil_seen result (or_fault Start (civil_in text.now)) }
    ensures whole { IfOk result (λ civil. civil.time.subsec_nanosecond ≡ 0) }
{
    civil_time(text).ok_or(NO_START)
}

/// The seconds of the hours and minutes that follow a sign.
fn distance(text: &[u8]) -> Option<i32>
    requires whole { length text.now ≡ 6 }
    requires hours { list_all is_ascii_digit (slice_range text.now 1 3) ≡ true }
    requires minutes { list_all is_ascii_digit (slice_range text.now 4 6) ≡ true }
    ensures value { result ≡ option_map (λ n. pos n) (distance_in text.now) }
{
    let seconds = clock_seconds(number(&text[1..3]), number(&text[4..6]), 0)?;
    Some(seconds as i32)
}

/// How many seconds east of UTC a clock stands.
#[tactic(auto, using(crate::proofs::Forms::east_digits, crate::proofs::Forms::west_digits))]
fn offset_seconds(text: &[u8]) -> Option<i32>
    ensures { result ≡ offset_in text.now }
{
    if text == b"Z".as_slice() {
        return Some(0);
    }
    if has_form(text, b"+00:00") {
        return distance(text);
    }
    if has_form(text, b"-00:00") {
        let west = distance(text)?;
        return Some(-west);
    }
    None
}

/// The moment that a text names by a civil time and an offset.
pub(crate) fn read_moment(text: &[u8]) -> Result<Moment, SheetFault>
    ensures { Gives (λ n. n) result (start_in text.now) }
{
    let Some((civil, offset)) = text.split_at_checked(CIVIL) else {
        return Err(NO_START);
    };
    let civil = read_civil(civil)?;
    let Some(offset) = offset_seconds(offset) else {
        return Err(NO_START);
    };
    in_range(
        civil.to_plain().to_second() - i64::from(offset),
        Field::Start,
    )
}
