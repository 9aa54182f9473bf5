//! The body of a puzzle text.
ghost use Rattle.std.specs.Prelude.{◌≡◌, ◌<◌, ◌-◌, ◌*◌, ◌⊎◌, ◌↔◌, ◌++◌, IsTrue, IfOk, IfErr, OnOk, length, replicate};
ghost use Rattle.std.specs.Prelude.{All};
ghost use Rattle.hall_grid.specs.Board.{cells, HasSize, IsClue};
ghost use Rattle.hall_grid.specs.Body.{Spells, FaultAt, IsWrong, HasPlace, fitted};
ghost use Rattle.hall_grid.specs.FormReading.{TakesForm, given_clues};

use crate::board::{Clue, Kind, MOST_NUMBER, Size};
use crate::fault::TextFault;
use crate::form::{FormFault, Given, form_of};
use std::alloc::{AllocError, Global};

/// Whether the kind and the size have this clue.
fn fits(kind: Kind, size: Size, clue: Clue) -> bool
    ensures { IsTrue result ↔ IsClue kind size clue }
{
    match (kind, clue) {
        (_, Clue::Blank) => true,
        (kind, Clue::Unknown) => kind != Kind::Sudoku,
        (Kind::Sudoku, Clue::Number(n)) => n >= 1 && usize::from(n) <= size.cols,
        (Kind::Slither, Clue::Number(n)) => n <= 4,
        (Kind::Nurikabe, Clue::Number(n)) => n >= 1 && n <= MOST_NUMBER,
    }
}

/// Puts blanks at the end.
fn push_blanks(clues: &mut Vec<Clue>, count: usize) -> Result<(), AllocError>
    ensures { OnOk result (clues.new.items ≡ clues.old.items ++ replicate count Clue.Blank) }
{
    for _ in 0..count {
        clues.push(Clue::Blank)?;
    }
    Ok(())
}

/// Puts the clues of a form at the end.
fn give(clues: &mut Vec<Clue>, given: Given) -> Result<(), AllocError>
    ensures { OnOk result (clues.new.items ≡ clues.old.items ++ given_clues given) }
{
    if let Some(clue) = given.clue {
        clues.push(clue)?;
    }
    push_blanks(clues, given.blanks)
}

/// Whether the number of a form is in range.
fn is_in_range(kind: Kind, size: Size, given: Given) -> bool
    ensures { IsTrue result ↔ All (IsClue kind size) (given_clues given) }
{
    match given.clue {
        None => true,
        Some(clue) => fits(kind, size, clue),
    }
}

/// Reads the form at the front, and puts its clues at the end.
fn read_form<'a>(
    kind: Kind,
    size: Size,
    place: usize,
    bytes: &'a [u8],
    clues: &mut Vec<Clue>,
) -> Result<&'a [u8], TextFault>
    requires some { 0 < length bytes.now }
    requires room { length clues.old.items < cells size }
    ensures ok { IfOk result
        (λ after. TakesForm kind size bytes.now clues.old.items clues.new.items after.now) }
    ensures err { IfErr result
        (λ e.
        (e ≡ TextFault.Memory)
        ⊎ (HasPlace e place × IsWrong kind size (length clues.old.items) bytes.now e)) }
{
    match form_of(kind, bytes) {
        Err(FormFault::Strange) => Err(TextFault::Strange(place)),
        Err(FormFault::Cut) => Err(TextFault::Cut(place)),
        Ok((given, after)) => {
            if !is_in_range(kind, size, given) {
                return Err(TextFault::Range(place));
            }
            give(clues, given)?;
            Ok(after)
        }
    }
}

/// Cuts the clues to n, or fills them up to n.
fn fit(clues: &mut Vec<Clue>, n: usize) -> Result<(), AllocError>
    ensures { OnOk result (clues.new.items ≡ fitted n clues.old.items) }
{
    clues.resize(n, Clue::Blank)
}

/// The clues that the body spells, or its leftmost fault.
pub fn parse_body(
    alloc: Global,
    kind: Kind,
    size: Size,
    body: &[u8],
) -> Result<Vec<Clue>, TextFault>
    requires size { HasSize kind size }
    ensures ok { IfOk result (λ clues. Spells kind size body.now clues.items) }
    ensures err { IfErr result (λ e. (e ≡ TextFault.Memory) ⊎ FaultAt kind size body.now e) }
{
    let cells = size.cells();
    let mut clues = Vec::new(alloc);
    let mut rest = body;
    while !rest.is_empty() {
        let place = body.len() - rest.len();
        if clues.len() >= cells {
            return Err(TextFault::After(place));
        }
        rest = read_form(kind, size, place, rest, &mut clues)?;
    }
    fit(&mut clues, cells)?;
    Ok(clues)
}
