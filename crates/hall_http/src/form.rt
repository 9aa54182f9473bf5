//! Why bytes are no request.
ghost use Rattle.std.specs.Prelude.{◌≡◌};
ghost use Rattle.hall_http.specs.declared.form.RequestFault.TheVariants.{Memory};
ghost use Rattle.hall_http.specs.Request.{puzzle_fault, unread_sheet};

use hall_grid::TextFault;
use hall_sheet::{Refusal, SheetFault};
use std::alloc::AllocError;

/// A member of a body that a fault names.
#[derive(Clone, Copy, Debug, PartialEq, Eq)]
pub(crate) enum Field {
    Answer,
    Text,
    Budget,
    Number,
    Points,
    Upheld,
}

/// The first thing that keeps a text from being a puzzle. A place is an offset in the body of the text.
#[derive(Clone, Copy, Debug, PartialEq, Eq)]
pub(crate) enum PuzzleFault {
    Kind,
    SizeField,
    SizeLimit,
    Strange(usize),
    Cut(usize),
    Range(usize),
    After(usize),
}

/// What is wrong with the text; nothing where memory ran out.
pub(crate) fn puzzle_fault(fault: TextFault) -> Option<PuzzleFault>
    ensures { result ≡ puzzle_fault fault }
{
    match fault {
        TextFault::Memory => None,
        TextFault::Kind => Some(PuzzleFault::Kind),
        TextFault::SizeField => Some(PuzzleFault::SizeField),
        TextFault::SizeLimit => Some(PuzzleFault::SizeLimit),
        TextFault::Strange(place) => Some(PuzzleFault::Strange(place)),
        TextFault::Cut(place) => Some(PuzzleFault::Cut(place)),
        TextFault::Range(place) => Some(PuzzleFault::Range(place)),
        TextFault::After(place) => Some(PuzzleFault::After(place)),
    }
}

/// The first thing that keeps bytes from being a request.
#[derive(Clone, Copy, Debug, PartialEq, Eq)]
pub(crate) enum FormFault {
    /// The body is no JSON object of the listed members.
    Syntax,
    /// A member is missing or of the wrong type.
    Missing(Field),
    /// A member is out of its limits or has a strange byte.
    Range(Field),
    /// The text is no puzzle.
    Puzzle(PuzzleFault),
    /// The body is no entry list, or no round sheet.
    Sheet(Refusal),
    /// Nothing is served at the method and path.
    NoRoute,
    /// The bytes aren't one whole request in the limits.
    NotWhole,
}

/// Why bytes were not read as a request.
#[derive(Clone, Copy, Debug, PartialEq, Eq)]
pub(crate) enum RequestFault {
    /// Out of memory.
    Memory,
    /// The bytes are no request.
    Form(FormFault),
}

impl From<AllocError> for RequestFault {
    ghost from_gives = { λ _ e. e ≡ Memory };

    fn from(_e: AllocError) -> RequestFault {
        RequestFault::Memory
    }
}

impl From<SheetFault> for RequestFault {
    ghost from_gives = { λ fault told. told ≡ unread_sheet fault };

    fn from(fault: SheetFault) -> RequestFault {
        match fault {
            SheetFault::Memory => RequestFault::Memory,
            SheetFault::Refused(refusal) => RequestFault::Form(FormFault::Sheet(refusal)),
        }
    }
}
