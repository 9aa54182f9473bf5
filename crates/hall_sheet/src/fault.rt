//! Why bytes are no entry list or round sheet.
ghost use Rattle.std.specs.Prelude.{◌≡◌};
ghost use Rattle.hall_sheet.specs.Fault.{field_name};

use std::alloc::AllocError;
use std::fmt;

/// What a refusal names: a column of an entry list, a field of a round sheet, or the list as a whole.
#[derive(Clone, Copy, Debug, PartialEq, Eq)]
pub enum Field {
    /// The list as a whole.
    List,
    Name,
    Key,
    Roles,
    Version,
    Title,
    Start,
    Zone,
    Minutes,
    ProtestMinutes,
    Mode,
    Penalty,
    Bonus,
    Testers,
    Puzzle,
    Author,
    Label,
    Points,
}

impl Field {
    /// Its name, as lists, sheets and refusals write it.
    pub fn name(self) -> &'static str
        ensures { result.now ≡ field_name self }
    {
        match self {
            Field::List => "list",
            Field::Name => "name",
            Field::Key => "key",
            Field::Roles => "roles",
            Field::Version => "version",
            Field::Title => "title",
            Field::Start => "start",
            Field::Zone => "zone",
            Field::Minutes => "minutes",
            Field::ProtestMinutes => "protest_minutes",
            Field::Mode => "mode",
            Field::Penalty => "penalty",
            Field::Bonus => "bonus",
            Field::Testers => "testers",
            Field::Puzzle => "puzzle",
            Field::Author => "author",
            Field::Label => "label",
            Field::Points => "points",
        }
    }
}

/// The first thing that keeps bytes from being an entry list or a round sheet.
#[derive(Clone, Copy, Debug, PartialEq, Eq)]
pub enum Refusal {
    /// The bytes are no CSV or TOML of the form: F1.
    Syntax,
    /// A field is missing (in a list: empty) or of the wrong type: F2.
    Missing(Field),
    /// A value is out of its range or has a strange byte: F3.
    Range(Field),
    /// A name or key twice in a list, or a puzzle or a tester twice in a sheet: F4.
    Repeated,
    /// The start is a text, but not of the form that the version wants: F5.
    Start,
    /// The zone is a text, but no zone's: F8.
    Zone,
}

/// The code `F1` to `F5` or `F8`, and after a space the field where the refusal has one.
impl fmt::Display for Refusal {
    ghost use Rattle.std.specs.Prelude.{Some};
    ghost use Rattle.hall_sheet.specs.Fault.{refusal_text};

    ghost output = { λ e. Some (refusal_text e) };

    fn fmt<W: fmt::Write>(&self, f: &mut fmt::Formatter<W>) -> fmt::Result {
        match self {
            Refusal::Syntax => write!(f, "F1"),
            Refusal::Missing(field) => write!(f, "F2 {}", field.name()),
            Refusal::Range(field) => write!(f, "F3 {}", field.name()),
            Refusal::Repeated => write!(f, "F4"),
            Refusal::Start => write!(f, "F5"),
            Refusal::Zone => write!(f, "F8 zone"),
        }
    }
}

/// Why bytes were not read.
#[derive(Clone, Copy, Debug, PartialEq, Eq)]
pub enum SheetFault {
    /// Out of memory.
    Memory,
    /// The bytes are no list or sheet.
    Refused(Refusal),
}

impl From<AllocError> for SheetFault {
    ghost use Rattle.std.specs.Prelude.{◌≡◌};
    ghost use Rattle.hall_sheet.specs.declared.fault.SheetFault.TheVariants.{Memory};

    ghost from_gives = { λ _ e. e ≡ Memory };

    fn from(_e: AllocError) -> SheetFault {
        SheetFault::Memory
    }
}
