//! The forms of a body.
ghost use Rattle.std.specs.Prelude.{◌≡◌, Ok, Err, MatchResult, option_map};
ghost use Rattle.hall_grid.specs.FormReading.{hex_value, run_value, two_at, three_at, number16_form, short_form};
ghost use Rattle.hall_grid.specs.FormReading.{cell4_form, cell4_value, cell4_short, form_at, given_clues};

use crate::board::{Clue, Kind};

/// The clues of a form: a number or none, and then empty cells.
#[derive(Clone, Copy)]
pub struct Given {
    pub clue: Option<Clue>,
    pub blanks: usize,
}

/// Why no form stands here.
#[derive(Clone, Copy)]
pub enum FormFault {
    Strange,
    Cut,
}

fn hex_digit(byte: u8) -> Option<u16>
    ensures { result ≡ hex_value byte }
{
    match byte {
        b'0'..=b'9' => Some(u16::from(byte - b'0')),
        b'a'..=b'f' => Some(u16::from(byte - b'a') + 10),
        _ => None,
    }
}

fn run_length(byte: u8) -> Option<usize>
    ensures { result ≡ run_value byte }
{
    match byte {
        b'g'..=b'z' => Some(usize::from(byte - b'f')),
        _ => None,
    }
}

fn number(n: u16) -> Given
    ensures { given_clues result ≡ given_clues (record { clue = Some (Clue.Number n); blanks = 0 }) }
{
    Given {
        clue: Some(Clue::Number(n)),
        blanks: 0,
    }
}

fn blanks(blanks: usize) -> Given
    ensures { given_clues result ≡ given_clues (record { clue = None; blanks = blanks }) }
{
    Given { clue: None, blanks }
}

/// The number of two digits.
fn two_digits(bytes: &[u8]) -> Option<(u16, &[u8])>
    ensures { option_map (λ r. (r.0, r.1.now)) result ≡ two_at bytes.now }
{
    let [a, b, rest @ ..] = bytes else {
        return None;
    };
    let m = hex_digit(*a)?;
    let n = hex_digit(*b)?;
    Some((16 * m + n, rest))
}

fn three_digits(bytes: &[u8]) -> Option<(u16, &[u8])>
    ensures { option_map (λ r. (r.0, r.1.now)) result ≡ three_at bytes.now }
{
    let [a, b, c, rest @ ..] = bytes else {
        return None;
    };
    let l = hex_digit(*a)?;
    let m = hex_digit(*b)?;
    let n = hex_digit(*c)?;
    Some((256 * l + 16 * m + n, rest))
}

/// The form at the front of the bytes, in the scheme Number16.
#[tactic(auto, unfolding(crate::specs::FormReading::number16_form))]
fn number16_at(kind: Kind, bytes: &[u8]) -> Result<(Given, &[u8]), FormFault>
    ensures { MatchResult result
        (λ r. number16_form kind bytes.now ≡ Ok (given_clues r.0, r.1.now))
        (λ e. number16_form kind bytes.now ≡ Err e) }
{
    match bytes {
        [] => Err(FormFault::Strange),
        [b'-', rest @ ..] => match two_digits(rest) {
            Some((n, rest)) => Ok((number(n), rest)),
            None => Err(FormFault::Cut),
        },
        [b'+', rest @ ..] => match three_digits(rest) {
            Some((n, rest)) => Ok((number(n), rest)),
            None => Err(FormFault::Cut),
        },
        [b'.', rest @ ..] if kind == Kind::Nurikabe => {
            let clue = Some(Clue::Unknown);
            Ok((Given { clue, blanks: 0 }, rest))
        }
        [byte, rest @ ..] => short_at(*byte, rest),
    }
}

/// A digit or a run, which is one byte.
fn short_at(byte: u8, rest: &[u8]) -> Result<(Given, &[u8]), FormFault>
    ensures { MatchResult result
        (λ r. short_form (hex_value byte) (run_value byte) rest.now ≡ Ok (given_clues r.0, r.1.now))
        (λ e. short_form (hex_value byte) (run_value byte) rest.now ≡ Err e) }
{
    if let Some(n) = hex_digit(byte) {
        Ok((number(n), rest))
    } else if let Some(count) = run_length(byte) {
        Ok((blanks(count), rest))
    } else {
        Err(FormFault::Strange)
    }
}

/// The number of a byte in the scheme 4Cell, and how many empty cells follow it.
fn cell4_number(byte: u8) -> Option<(u16, usize)>
    ensures { result ≡ cell4_value byte }
{
    match byte {
        b'0'..=b'4' => Some((u16::from(byte - b'0'), 0)),
        b'5'..=b'9' => Some((u16::from(byte - b'5'), 1)),
        b'a'..=b'e' => Some((u16::from(byte - b'a'), 2)),
        _ => None,
    }
}

/// The form at the front of the bytes, in the scheme 4Cell.
#[tactic(auto, unfolding(crate::specs::FormReading::cell4_form))]
fn cell4_at(bytes: &[u8]) -> Result<(Given, &[u8]), FormFault>
    ensures { MatchResult result
        (λ r. cell4_form bytes.now ≡ Ok (given_clues r.0, r.1.now))
        (λ e. cell4_form bytes.now ≡ Err e) }
{
    match bytes {
        [] => Err(FormFault::Strange),
        [b'.', rest @ ..] => {
            let clue = Some(Clue::Unknown);
            Ok((Given { clue, blanks: 0 }, rest))
        }
        [byte, rest @ ..] => cell4_short_at(*byte, rest),
    }
}

/// A number or a run, which is one byte.
fn cell4_short_at(byte: u8, rest: &[u8]) -> Result<(Given, &[u8]), FormFault>
    ensures { MatchResult result
        (λ r. cell4_short (cell4_value byte) (run_value byte) rest.now ≡ Ok (given_clues r.0, r.1.now))
        (λ e. cell4_short (cell4_value byte) (run_value byte) rest.now ≡ Err e) }
{
    if let Some((n, blanks)) = cell4_number(byte) {
        let clue = Some(Clue::Number(n));
        Ok((Given { clue, blanks }, rest))
    } else if let Some(count) = run_length(byte) {
        Ok((blanks(count), rest))
    } else {
        Err(FormFault::Strange)
    }
}

/// The form at the front of the bytes, in the scheme of the kind.
pub fn form_of(kind: Kind, bytes: &[u8]) -> Result<(Given, &[u8]), FormFault>
    ensures { MatchResult result
        (λ r. form_at kind bytes.now ≡ Ok (given_clues r.0, r.1.now))
        (λ e. form_at kind bytes.now ≡ Err e) }
{
    match kind {
        Kind::Slither => cell4_at(bytes),
        Kind::Sudoku | Kind::Nurikabe => number16_at(kind, bytes),
    }
}
