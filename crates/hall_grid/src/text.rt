//! Whole puzzle texts.
ghost use Rattle.std.specs.Prelude.{◌≡◌, ◌<◌, ◌⊎◌, ◌↔◌, [], ◌==◌, position, IsTrue, IfOk, IfErr, MatchOption};
ghost use Rattle.std.specs.Prelude.{MatchResult, option_copied};
ghost use Rattle.std.specs.List.{before_first, after_first};
ghost use Rattle.hall_grid.specs.Board.{Board, HasSize};
ghost use Rattle.hall_grid.specs.Head.{HasHead};
ghost use Rattle.hall_grid.specs.Text.{bare, has_address, is_slash, word_of, IsSide, IsNoSide, without_final_slash};
ghost use Rattle.hall_grid.specs.Text.{SpellsText, FaultOf};

use crate::board::{Kind, MOST_CELLS, MOST_SIDE, Size};
use crate::body::parse_body;
use crate::fault::TextFault;
use crate::puzzle::Puzzle;
use std::alloc::Global;

/// Where the byte stands first.
fn position_of(text: &[u8], byte: u8) -> Option<usize>
    ensures { result ≡ position (λ b. b == byte) text.now }
{
    text.iter().position(|b| *b == byte)
}

/// What stands before the first slash, and what stands after it.
fn split_field(text: &[u8]) -> (&[u8], &[u8])
    ensures field { result.0.now ≡ before_first is_slash text.now }
    ensures rest { result.1.now ≡ after_first is_slash text.now }
{
    match position_of(text, b'/') {
        Some(at) => (&text[..at], &text[at + 1..]),
        None => (text, &[]),
    }
}

/// Whether the text begins as an address.
fn is_address(text: &[u8]) -> bool
    ensures { result ≡ has_address text.now }
{
    text.starts_with(b"http://") || text.starts_with(b"https://")
}

/// The text without its address; none where an address has no question mark.
fn without_address(text: &[u8]) -> Option<&[u8]>
    ensures { option_copied result ≡ bare text.now }
{
    if !is_address(text) {
        return Some(text);
    }
    match position_of(text, b'?') {
        Some(at) => Some(&text[at + 1..]),
        None => None,
    }
}

fn kind_of(word: &[u8]) -> Option<Kind>
    ensures { MatchOption result
        ((kind : Kind) → word.now ≡ word_of kind → ⊥)
        (λ kind. word.now ≡ word_of kind) }
{
    if word == b"sudoku".as_slice() {
        Some(Kind::Sudoku)
    } else if word == b"slither".as_slice() {
        Some(Kind::Slither)
    } else if word == b"nurikabe".as_slice() {
        Some(Kind::Nurikabe)
    } else {
        None
    }
}

/// The number in one or two digits.
fn side_of(field: &[u8]) -> Option<usize>
    ensures { MatchOption result (IsNoSide field.now) (IsSide field.now) }
{
    match field {
        [a @ b'0'..=b'9'] => Some(usize::from(*a - b'0')),
        [a @ b'0'..=b'9', b @ b'0'..=b'9'] => Some(
            10 * usize::from(*a - b'0') + usize::from(*b - b'0'),
        ),
        _ => None,
    }
}

fn size_of(cols: &[u8], rows: &[u8]) -> Option<Size>
    ensures { MatchOption result
        (IsNoSide cols.now ⊎ IsNoSide rows.now)
        (λ size. IsSide cols.now size.cols × IsSide rows.now size.rows) }
{
    let cols = side_of(cols)?;
    let rows = side_of(rows)?;
    Some(Size { cols, rows })
}

/// The bytes without the one slash that they may end in.
fn without_slash(bytes: &[u8]) -> &[u8]
    ensures { result.now ≡ without_final_slash bytes.now }
{
    bytes.strip_suffix(b"/").unwrap_or(bytes)
}

/// Whether the size is in the limits of the kind.
fn has_size(kind: Kind, size: Size) -> bool
    ensures { IsTrue result ↔ HasSize kind size }
{
    match kind {
        Kind::Sudoku => size.cols == size.rows && matches!(size.cols, 4 | 6 | 9 | 16 | 25),
        _ => {
            size.cols >= 1
                && size.cols <= MOST_SIDE
                && size.rows >= 1
                && size.rows <= MOST_SIDE
                && size.cols * size.rows <= MOST_CELLS
        }
    }
}

/// What stands before the clues, and their body.
#[derive(Clone, Copy)]
struct Head<'a> {
    kind: Kind,
    size: Size,
    body: &'a [u8],
}

/// The kind and the size, each in its limits, and the body that follows them.
fn parse_head(text: &[u8]) -> Result<Head<'_>, TextFault>
    ensures ok { IfOk result (λ head. HasHead text.now head.kind head.size head.body.now) }
    ensures err { IfErr result (FaultOf text.now) }
{
    let start = without_address(text).ok_or(TextFault::Kind)?;
    let (word, sides) = split_field(start);
    let kind = kind_of(word).ok_or(TextFault::Kind)?;
    let (cols, rest) = split_field(sides);
    let (rows, rest) = split_field(rest);
    let size = size_of(cols, rows).ok_or(TextFault::SizeField)?;
    if !has_size(kind, size) {
        return Err(TextFault::SizeLimit);
    }
    let body = without_slash(rest);
    Ok(Head { kind, size, body })
}

/// The puzzle that the text spells, or the first fault of the text. Out of memory may come in place of either.
pub fn parse_puzzle(alloc: Global, text: &[u8]) -> Result<Puzzle, TextFault>
    ensures ok { IfOk result (SpellsText text.now) }
    ensures err { IfErr result (λ e. (e ≡ TextFault.Memory) ⊎ FaultOf text.now e) }
    ensures only { (board : Board)
        → SpellsText text.now board
        → MatchResult result (λ p. p ≡ board) (λ e. e ≡ TextFault.Memory) }
{
    let head = parse_head(text)?;
    let clues = parse_body(alloc, head.kind, head.size, head.body)?;
    Ok(Puzzle::new(head.kind, head.size, clues))
}
