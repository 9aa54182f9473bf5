//! Answer texts: fillings as they are written.
ghost use Rattle.std.specs.Prelude.{◌≡◌, ◌<◌, ◌≤◌, ◌≢◌, ◌++◌, ℕ, List, All, IfOk, OnOk, MatchOption, length};
ghost use Rattle.std.specs.Prelude.{string_bytes, map};
ghost use Rattle.hall_grid.specs.Board.{HasSize};
ghost use Rattle.hall_grid.specs.Slither.{flat_sides, all_sides};
ghost use Rattle.hall_grid.specs.Answer.{places_of, values_of, value_byte, sudoku_byte, slither_byte, nurikabe_byte};
ghost use Rattle.hall_grid.specs.Answer.{text_of, IsFilling, AnswerText, SaysNothing};
ghost use Rattle.hall_grid.specs.Printable.{IsPrintableText};
ghost use Rattle.hall_grid.specs.Values.{SpellsValues, HasCellText};

use crate::board::{Kind, Size};
use crate::filling::Filling;
use crate::puzzle::Puzzle;
use std::alloc::{AllocError, Global};

/// The value that a byte stands for.
fn value_of(kind: Kind, size: Size, byte: u8) -> Option<u8>
    requires { HasSize kind size }
    ensures { MatchOption result
        ((v : ℕ) → v < values_of kind size → byte ≢ value_byte kind v)
        (λ v. (v < values_of kind size) × (byte ≡ value_byte kind v)) }
{
    match kind {
        Kind::Sudoku => number_value(size.cols, byte),
        Kind::Slither => line_value(byte),
        Kind::Nurikabe => wall_value(byte),
    }
}

/// A number less 1, of a Sudoku with this side.
fn number_value(side: usize, byte: u8) -> Option<u8>
    requires { side ≤ 25 }
    ensures { MatchOption result
        ((v : ℕ) → v < side → byte ≢ sudoku_byte v)
        (λ v. (v < side) × (byte ≡ sudoku_byte v)) }
{
    let value = match byte {
        b'1'..=b'9' => byte - b'1',
        b'a'..=b'z' => byte - b'a' + 9,
        _ => return None,
    };
    if usize::from(value) < side {
        Some(value)
    } else {
        None
    }
}

/// A line or none.
fn line_value(byte: u8) -> Option<u8>
    ensures { MatchOption result
        ((v : ℕ) → v < 2 → byte ≢ slither_byte v)
        (λ v. (v < 2) × (byte ≡ slither_byte v)) }
{
    match byte {
        b'0' => Some(0),
        b'1' => Some(1),
        _ => None,
    }
}

/// Wall or white.
fn wall_value(byte: u8) -> Option<u8>
    ensures { MatchOption result
        ((v : ℕ) → v < 2 → byte ≢ nurikabe_byte v)
        (λ v. (v < 2) × (byte ≡ nurikabe_byte v)) }
{
    match byte {
        b'.' => Some(0),
        b'#' => Some(1),
        _ => None,
    }
}

/// The values that the bytes stand for, one each.
fn parse_values(
    alloc: Global,
    kind: Kind,
    size: Size,
    bytes: &[u8],
) -> Result<Option<Vec<u8>>, AllocError>
    requires { HasSize kind size }
    ensures { IfOk result (λ found. MatchOption found
        ((vs : List ℕ) → SpellsValues kind size bytes.now vs → ⊥)
        (λ values. SpellsValues kind size bytes.now values.items)) }
{
    let mut values = Vec::new(alloc);
    for byte in bytes {
        match value_of(kind, size, *byte) {
            Some(value) => values.push(value)?,
            None => return Ok(None),
        }
    }
    Ok(Some(values))
}

/// The filling of a text with one byte for each cell.
fn parse_cells(alloc: Global, puzzle: &Puzzle, text: &[u8]) -> Result<Option<Filling>, AllocError>
    requires { HasCellText puzzle.now.kind }
    ensures { IfOk result
        (λ found. MatchOption found (SaysNothing puzzle.now text.now) (AnswerText puzzle.now text.now)) }
{
    if text.len() != puzzle.cells() {
        return Ok(None);
    }
    let found = parse_values(alloc, puzzle.kind(), puzzle.size(), text)?;
    match found {
        Some(values) => Ok(Some(Filling::new(values))),
        None => Ok(None),
    }
}

/// The filling of a text of Slitherlink.
fn parse_sides(alloc: Global, puzzle: &Puzzle, text: &[u8]) -> Result<Option<Filling>, AllocError>
    requires { puzzle.now.kind ≡ Kind.Slither }
    ensures { IfOk result
        (λ found. MatchOption found (SaysNothing puzzle.now text.now) (AnswerText puzzle.now text.now)) }
{
    let size = puzzle.size();
    let flat = size.flat_sides();
    if text.len() != size.all_sides() + 1 || text[flat] != b'/' {
        return Ok(None);
    }
    let Some(mut values) = parse_values(alloc, Kind::Slither, size, &text[..flat])? else {
        return Ok(None);
    };
    let Some(upright) = parse_values(alloc, Kind::Slither, size, &text[flat + 1..])? else {
        return Ok(None);
    };
    values.extend_from_slice(&upright)?;
    Ok(Some(Filling::new(values)))
}

/// The filling that the text says, or none where no filling of the puzzle has this text.
pub fn parse_answer(
    alloc: Global,
    puzzle: &Puzzle,
    text: &[u8],
) -> Result<Option<Filling>, AllocError>
    ensures { IfOk result
        (λ found. MatchOption found (SaysNothing puzzle.now text.now) (AnswerText puzzle.now text.now)) }
{
    match puzzle.kind() {
        Kind::Slither => parse_sides(alloc, puzzle, text),
        Kind::Sudoku | Kind::Nurikabe => parse_cells(alloc, puzzle, text),
    }
}

/// How a number less 1 is written.
fn number_byte(value: u8) -> u8
    requires { value < 35 }
    ensures { result ≡ sudoku_byte value }
{
    if value < 9 {
        b'1' + value
    } else {
        b'a' + (value - 9)
    }
}

/// How wall or white is written.
fn wall_byte(value: u8) -> u8
    ensures { result ≡ nurikabe_byte value }
{
    if value == 1 { b'#' } else { b'.' }
}

/// How a value is written.
fn byte_of(kind: Kind, value: u8) -> u8
    requires { value < 35 }
    ensures { result ≡ value_byte kind value }
{
    match kind {
        Kind::Sudoku => number_byte(value),
        Kind::Slither => b'0' + value,
        Kind::Nurikabe => wall_byte(value),
    }
}

/// Puts the values at the end of the text.
fn push_values(text: &mut String, kind: Kind, values: &[u8]) -> Result<(), AllocError>
    requires { All (λ v. v < 35) values.now }
    ensures { OnOk result (string_bytes text.new ≡ string_bytes text.old ++ map (value_byte kind) values.now) }
{
    for value in values {
        text.push(char::from(byte_of(kind, *value)))?;
    }
    Ok(())
}

/// Puts the text of a filling at the end of the text.
fn push_filling(text: &mut String, kind: Kind, size: Size, values: &[u8]) -> Result<(), AllocError>
    requires size { HasSize kind size }
    requires exact { length values.now ≡ places_of kind size }
    requires ranges { All (λ v. v < values_of kind size) values.now }
    ensures { OnOk result (string_bytes text.new ≡ string_bytes text.old ++ text_of kind size values.now) }
{
    match kind {
        Kind::Slither => {
            let (flat, upright) = values.split_at(size.flat_sides());
            push_values(text, kind, flat)?;
            text.push('/')?;
            push_values(text, kind, upright)
        }
        Kind::Sudoku | Kind::Nurikabe => push_values(text, kind, values),
    }
}

/// The text of the filling, in at most 2,101 bytes of printable ASCII.
pub fn write_answer(alloc: Global, puzzle: &Puzzle, filling: &Filling) -> Result<String, AllocError>
    requires { IsFilling puzzle.now filling.now }
    ensures says { IfOk result (λ text. AnswerText puzzle.now (string_bytes text) filling.now) }
    ensures printable { IfOk result (λ text. IsPrintableText 0 2101 (string_bytes text)) }
{
    let mut text = String::new(alloc);
    push_filling(&mut text, puzzle.kind(), puzzle.size(), filling.as_slice())?;
    Ok(text)
}
