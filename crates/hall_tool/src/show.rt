//! Texts that are shown as they are: the pages of help, the version, and lines that say no more than themselves.
ghost use Rattle.hall_tool.specs.Shown.{IsShown, IsShownBy};

use crate::fault::ToolFault;
use hall_grid::Counted;
use hall_http::write_all;
use std::io::Write;

/// Writes the text. The result is the exit status, 0.
pub fn show_run<W: Write>(text: &str, writer: &mut Counted<W>) -> Result<u8, ToolFault>
    ensures { IsShown W.contents text.now writer.old writer.new result }
{
    show(text, 0, writer)
}

/// Writes the text, with which this exit status goes.
pub(crate) fn show<W: Write>(
    text: &str,
    status: u8,
    writer: &mut Counted<W>,
) -> Result<u8, ToolFault>
    ensures { IsShownBy status W.contents text.now writer.old writer.new result }
{
    match write_all(writer, text.as_bytes()) {
        Ok(()) => Ok(status),
        Err(_) => Err(ToolFault::Device),
    }
}
