//! The words and fields of a row.
use hall_grid::TextFault;
use hall_policy::{Checked, SinkFault, TextKind, Within};
use hall_sheet::SheetFault;
use hall_store::StoreFault;
use std::alloc::{AllocError, Global};

/// Why a row isn't answered.
#[derive(Clone, Copy, Debug)]
pub(crate) enum Fault {
    Memory,
    /// The row is none.
    Row,
}

impl From<AllocError> for Fault {
    fn from(_: AllocError) -> Fault {
        Fault::Memory
    }
}

impl From<StoreFault> for Fault {
    fn from(fault: StoreFault) -> Fault {
        match fault {
            StoreFault::Memory => Fault::Memory,
            StoreFault::Failed => Fault::Row,
        }
    }
}

impl From<SinkFault> for Fault {
    fn from(fault: SinkFault) -> Fault {
        match fault {
            SinkFault::Memory => Fault::Memory,
            SinkFault::Refused => Fault::Row,
        }
    }
}

impl From<TextFault> for Fault {
    fn from(fault: TextFault) -> Fault {
        match fault {
            TextFault::Memory => Fault::Memory,
            _ => Fault::Row,
        }
    }
}

impl From<SheetFault> for Fault {
    fn from(fault: SheetFault) -> Fault {
        match fault {
            SheetFault::Memory => Fault::Memory,
            SheetFault::Refused(_) => Fault::Row,
        }
    }
}

/// The words of the text, parted by blanks.
pub(crate) fn words_of(alloc: Global, text: &str) -> Result<Vec<&str>, AllocError> {
    text.split_whitespace().collect(alloc)
}

/// The fields of the text, parted by ` | `.
pub(crate) fn fields_of(alloc: Global, text: &str) -> Result<Vec<&str>, AllocError> {
    text.split(" | ").collect(alloc)
}

/// What bears the name that the word is.
pub(crate) fn named<T: Copy>(names: &[(&str, T)], word: &str) -> Result<T, Fault> {
    for (name, value) in names {
        if *name == word {
            return Ok(*value);
        }
    }
    Err(Fault::Row)
}

pub(crate) fn number_of(word: &str) -> Result<u64, Fault> {
    match word.parse::<u64>() {
        Ok(number) => Ok(number),
        Err(_) => Err(Fault::Row),
    }
}

pub(crate) fn signed_of(word: &str) -> Result<i64, Fault> {
    match word.parse::<i64>() {
        Ok(number) => Ok(number),
        Err(_) => Err(Fault::Row),
    }
}

/// The number of the type.
pub(crate) fn within<const LEAST: u64, const MOST: u64>(
    number: u64,
) -> Result<Within<LEAST, MOST>, Fault> {
    Within::new(number).ok_or(Fault::Row)
}

/// The text of the type.
pub(crate) fn checked<K: TextKind>(alloc: Global, word: &str) -> Result<Checked<K>, Fault> {
    let text = String::from_str(alloc, word)?;
    Checked::new(text).ok_or(Fault::Row)
}

/// The text with a line's end in the place of each `\n`.
pub(crate) fn with_lines(alloc: Global, text: &str) -> Result<String, AllocError> {
    let mut whole = String::new(alloc);
    push_lines(&mut whole, text)?;
    Ok(whole)
}

fn push_lines(whole: &mut String, text: &str) -> Result<(), AllocError> {
    for (place, part) in text.split("\\n").enumerate() {
        if place > 0 {
            whole.push_str("\n")?;
        }
        whole.push_str(part)?;
    }
    Ok(())
}

/// Adds a word to those that are there.
pub(crate) fn push_word(words: &mut String, word: &str) -> Result<(), AllocError> {
    if !words.is_empty() {
        words.push_str(" ")?;
    }
    words.push_str(word)
}

/// What is written of a value that a type takes or refuses.
pub(crate) fn taken(is_taken: bool) -> &'static str {
    if is_taken { "taken" } else { "refused" }
}
