//! The moment at which the clocks of a zone show a civil time.
ghost use Rattle.std.specs.Prelude.{◌≡◌, None, MatchOption};
ghost use Rattle.jiff.specs.Placed.{IsPosixZone};
ghost use Rattle.jiff.specs.ZoneView.{plain_zone};
ghost use Rattle.jiff_tz.specs.Ambiguous.{IsInstantAt, compatible_offset};
ghost use Rattle.jiff_tz.specs.PosixReader.{read_whole};
ghost use Rattle.jiff_tz.specs.Zone.{ambiguous_at};
ghost use Rattle.hall_sheet.specs.Civil.{civil_seen};
ghost use Rattle.hall_sheet.specs.Given.{Gives};
ghost use Rattle.hall_sheet.specs.Zone.{moment_in};

use crate::fault::{Field, Refusal, SheetFault};
use crate::table::in_range;
use hall_policy::{Moment, TextKind};
use jiff::civil::DateTime;
use jiff::tz::TimeZone;
use jiff::{Error, Timestamp};

/// The kind of a zone's text: 1 to 64 bytes of printable ASCII.
pub(crate) struct ZoneText {}

impl TextKind for ZoneText {
    ghost use Rattle.hall_grid.specs.Printable.{is_printable};

    ghost allows = { is_printable };

    ghost LEAST = { 1 };

    ghost MOST = { 64 };

    const LEAST: usize = 1;

    const MOST: usize = 64;

    fn allows(byte: u8) -> bool {
        32 <= byte && byte <= 126
    }
}

/// The zone that a text names.
fn zone_of(text: &str) -> Option<TimeZone<'static>>
    ensures { MatchOption result (read_whole text.now ≡ None) (λ zone. IsPosixZone text.now (plain_zone zone)) }
{
    TimeZone::posix(text).ok()
}

/// The instant at which the clocks of the zone show the civil time: where they never do, or do so twice, by the offset
/// before the change.
fn instant_of(zone: TimeZone<'static>, civil: DateTime) -> Result<Timestamp, Error>
    ensures { IsInstantAt civil (compatible_offset (ambiguous_at (plain_zone zone.entry) civil)) result }
{
    zone.to_timestamp(civil)
}

/// The moment at which the clocks of the zone that a text names show the civil time.
pub(crate) fn moment_in(text: &str, civil: DateTime) -> Result<Moment, SheetFault>
    requires whole { civil.time.subsec_nanosecond ≡ 0 }
    ensures { Gives (λ n. n) result (moment_in text.now (civil_seen civil)) }
{
    let Some(zone) = zone_of(text) else {
        return Err(SheetFault::Refused(Refusal::Zone));
    };
    match instant_of(zone, civil) {
        Ok(instant) => in_range(instant.as_second(), Field::Start),
        Err(_) => Err(SheetFault::Refused(Refusal::Range(Field::Start))),
    }
}
