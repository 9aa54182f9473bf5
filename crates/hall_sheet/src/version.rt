//! Versions of the round sheet.
ghost use Rattle.std.specs.Prelude.{◌≡◌, IfOk};
ghost use Rattle.toml.specs.View.{table_view};
ghost use Rattle.hall_sheet.specs.Given.{Gives};
ghost use Rattle.hall_sheet.specs.Table.{has_only};
ghost use Rattle.hall_sheet.specs.Version.{version_in, version_or_first, sheet_fields};

use crate::fault::{Field, SheetFault};
use crate::table::{has_only, read_number};
use hall_policy::Within;
use std::alloc::AllocError;
use toml::Table;

/// A version of the round sheet.
#[derive(Clone, Copy)]
pub(crate) enum Version {
    /// The start has its offset.
    First,
    /// The start is a civil time in the zone that a field of its own names.
    Second,
    /// The start is a civil time in a zone, as in the second, and the sheet names who tests the round.
    Third,
}

const FIRST_FIELDS: [Field; 9] = [
    Field::Version,
    Field::Title,
    Field::Start,
    Field::Minutes,
    Field::ProtestMinutes,
    Field::Mode,
    Field::Penalty,
    Field::Bonus,
    Field::Puzzle,
];

const SECOND_FIELDS: [Field; 10] = [
    Field::Version,
    Field::Title,
    Field::Start,
    Field::Zone,
    Field::Minutes,
    Field::ProtestMinutes,
    Field::Mode,
    Field::Penalty,
    Field::Bonus,
    Field::Puzzle,
];

const THIRD_FIELDS: [Field; 11] = [
    Field::Version,
    Field::Title,
    Field::Start,
    Field::Zone,
    Field::Minutes,
    Field::ProtestMinutes,
    Field::Mode,
    Field::Penalty,
    Field::Bonus,
    Field::Testers,
    Field::Puzzle,
];

impl Version {
    /// Whether each key of the document is the name of one of the version's fields.
    pub(crate) fn has_keys(self, document: &Table) -> bool
        ensures { result ≡ has_only (sheet_fields self) (table_view document.now) }
    {
        match self {
            Version::First => has_only(document, &FIRST_FIELDS),
            Version::Second => has_only(document, &SECOND_FIELDS),
            Version::Third => has_only(document, &THIRD_FIELDS),
        }
    }
}

/// The version that the sheet is of.
pub(crate) fn read_version(document: &Table) -> Result<Version, SheetFault>
    ensures { Gives (λ v. v) result (version_in (table_view document.now)) }
{
    let number: Within<1, 3> = read_number(document, Field::Version)?;
    match number.get() {
        1 => Ok(Version::First),
        2 => Ok(Version::Second),
        _ => Ok(Version::Third),
    }
}

/// The version that the sheet is of, or the first one where it says none.
pub(crate) fn version_or_first(document: &Table) -> Result<Version, AllocError>
    ensures { IfOk result (λ version. version ≡ version_or_first (table_view document.now)) }
{
    match read_version(document) {
        Ok(version) => Ok(version),
        Err(SheetFault::Memory) => Err(AllocError),
        Err(SheetFault::Refused(_)) => Ok(Version::First),
    }
}
