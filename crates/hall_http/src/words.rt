//! Texts of bytes, cut and checked, and numbers in decimal.
ghost use Rattle.std.specs.Prelude.{◌≡◌, ◌<◌, ◌==◌, ℕ, IsTrue, Ok, option_map};
ghost use Rattle.std.specs.List.{list_all, position};
ghost use Rattle.std.specs.Char.{is_ascii_digit};
ghost use Rattle.hall_policy.specs.Reading.{of_kind};
ghost use Rattle.hall_http.specs.Given.{GivesForm};
ghost use Rattle.hall_http.specs.Words.{cut, after_front, is_decimal, decimal_in};

use crate::form::{FormFault, RequestFault};
use hall_policy::{Checked, TextKind};
use std::alloc::Global;

/// Where the first such byte stands.
pub(crate) fn place_of(text: &[u8], mark: u8) -> Option<usize>
    ensures { result ≡ position (λ byte. byte == mark) text.now }
{
    text.iter().position(|byte| *byte == mark)
}

/// What stands before the first such byte, and what after it.
pub(crate) fn cut(text: &[u8], mark: u8) -> Option<(&[u8], &[u8])>
    ensures { option_map (λ parts. (parts.0.now, parts.1.now)) result ≡ cut mark text.now }
{
    match place_of(text, mark) {
        Some(place) => Some((&text[..place], &text[place + 1..])),
        None => None,
    }
}

/// What follows this front.
pub(crate) fn after_front<'a>(text: &'a [u8], front: &[u8]) -> Option<&'a [u8]>
    ensures { option_map (λ rest. rest.now) result ≡ after_front front.now text.now }
{
    if text.starts_with(front) {
        Some(&text[front.len()..])
    } else {
        None
    }
}

/// Whether each byte is a digit.
fn are_digits(text: &[u8]) -> bool
    ensures { result ≡ list_all is_ascii_digit text.now }
{
    text.iter().all(|byte| byte.is_ascii_digit())
}

/// Whether these are digits, with no 0 before another one.
fn is_decimal(text: &[u8]) -> bool
    ensures { result ≡ is_decimal text.now }
{
    !text.is_empty() && are_digits(text) && (text.len() == 1 || text[0] != b'0')
}

/// The number that the text writes in decimal, without leading zeros.
pub(crate) fn read_decimal(text: &[u8]) -> Option<u64>
    ensures { result ≡ decimal_in text.now }
{
    if !is_decimal(text) {
        return None;
    }
    match str::from_utf8(text) {
        Ok(digits) => match digits.parse() {
            Ok(number) => Some(number),
            Err(_) => None,
        },
        Err(_) => None,
    }
}

/// The text, or the fault where it isn't of the kind.
pub(crate) fn checked<K: TextKind>(
    alloc: Global,
    text: &[u8],
    fault: FormFault,
) -> Result<Checked<K>, RequestFault>
    requires { (byte : ℕ) → IsTrue (K.allows byte) → byte < 128 }
    ensures { GivesForm (λ t. t) result (of_kind fault K.LEAST K.MOST K.allows text.now) }
{
    let Ok(text) = str::from_utf8(text) else {
        return Err(RequestFault::Form(fault));
    };
    let owned = String::from_str(alloc, text)?;
    match Checked::new(owned) {
        Some(checked) => Ok(checked),
        None => Err(RequestFault::Form(fault)),
    }
}
