//! What a command writes and how it ends.
ghost use Rattle.std.specs.Prelude.{◌≡◌, ◌≤◌, ◌+◌, ◌++◌, IfOk, [], length, string_bytes, codes, decimal};
ghost use Rattle.std.specs.String.{string_capacity, string_len};
ghost use Rattle.hall_grid.specs.Fault.{fault_text};
ghost use Rattle.hall_tool.specs.JudgeText.{on_own_line, refusal_of};

use hall_grid::TextFault;
use itoa::Buffer;
use std::alloc::{AllocError, Global};

/// A line to be written, and the exit status that goes with it.
#[derive(Drop)]
pub struct Ending {
    pub line: String,
    pub status: u8,
}

/// Room for a word, a number of at most 20 digits and the line's end.
pub(crate) const ROOM: usize = 64;

/// Appends a text for which there is room.
pub(crate) fn push(line: &mut String, text: &str)
    requires { string_len line.old + length text.now ≤ string_capacity line.old }
    ensures bytes { string_bytes line.new ≡ string_bytes line.old ++ text.now }
    ensures len { string_len line.new ≡ string_len line.old + length text.now }
    ensures capacity { string_capacity line.old ≤ string_capacity line.new }
{
    if line.push_str(text).is_err() {
        unreachable!();
    }
}

/// A word and the number of what was done, on the empty line that has room for it.
pub(crate) fn counted(mut line: String, word: &str, count: u64) -> Ending
    requires empty { string_bytes line ≡ [] }
    requires begins { string_len line ≡ 0 }
    requires room { 64 ≤ string_capacity line }
    requires short { length word.now ≤ 32 }
    ensures line { string_bytes result.line ≡ word.now ++ on_own_line (decimal count) }
    ensures status { result.status ≡ 0 }
{
    push(&mut line, word);
    push(&mut line, Buffer::new().format(count));
    push(&mut line, "\n");
    Ending { line, status: 0 }
}

/// A text is refused for its first fault.
pub fn refused(alloc: Global, fault: TextFault) -> Result<Ending, AllocError>
    ensures { IfOk result (λ a. (string_bytes a.line ≡ refusal_of (fault_text fault)) × (a.status ≡ 2)) }
{
    let line = format!(in alloc; "refused {fault}\n")?;
    Ok(Ending { line, status: 2 })
}

/// An input is refused for its number of lines or bytes.
pub fn refused_input(alloc: Global) -> Result<Ending, AllocError>
    ensures { IfOk result (λ a. (string_bytes a.line ≡ refusal_of (codes "input")) × (a.status ≡ 2)) }
{
    let line = String::from_str(alloc, "refused input\n")?;
    Ok(Ending { line, status: 2 })
}
