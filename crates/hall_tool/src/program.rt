//! The program: its words are read, the command that they spell is run, and its end is told.
ghost use Rattle.std.specs.Prelude.{◌≡◌, ◌⊎◌, map, string_bytes};
ghost use Rattle.std.specs.IoError.{error_kind};
ghost use Rattle.hall_tool.specs.CommandRun.{IsCommandRun, UnlessRead};
ghost use Rattle.hall_tool.specs.Machine.{all_files, files_of, host_of, machine, streams};
ghost use Rattle.hall_tool.specs.Status.{status_of};
ghost use Rattle.hall_tool.specs.WordsRun.{AreNoWords, AreWordsRun, IsEndTold, AreWordsRefused, IsTextTold, IsWanting};

use crate::advice::fault_lines;
use crate::fault::{CommandFault, ToolFault};
use crate::machine::{Machine, Parts};
use crate::run::run_command;
use crate::words::{WordsFault, read_words};
use clap::error::Error;
use hall_grid::Counted;
use hall_http::write_all;
use std::alloc::Global;
use std::io;
use std::io::{ErrorKind, Write};

/// The status for a fault: of memory, of a device, of a file or of the store.
const FAULT: u8 = 3;

/// The status for words that spell no command.
const USAGE: u8 = 64;

const NO_TEXT: &str = "error: a word is no text\n";

/// Runs the command that the words after the program's name spell, over the files, the host, the input and the output
/// of the machine, and gives the exit status. A database that is migrated is asked for among the files `sources`. Of a
/// fault it is told on `error`, on two lines, that there is one and what to do; words that spell no command are refused
/// there. Where `error` fails, the status is the same.
pub fn run_words<M: Machine>(alloc: Global, parts: &mut Parts<M>, words: &[String]) -> u8
    ensures { AreWordsRun (λ command ended. UnlessRead command (parts.new.sources ≡ parts.old.sources)
        × IsCommandRun (all_files (files_of M.Old.Store M.Sources.PathFiles) (files_of M.Kept.Store M.Files.PathFiles))
        (host_of M.Host.Host M.Host.Sockets.Sockets M.Host.Sockets.Peer.Peer M.Host.Clock.Clock)
        (streams M.Input.remaining M.Output.contents) command
        (machine parts.old.sources parts.old.host parts.old.files parts.old.input parts.old.output)
        (machine parts.new.sources parts.new.host parts.new.files parts.new.input parts.new.output) ended)
        ((parts.new.sources ≡ parts.old.sources) × (parts.new.files ≡ parts.old.files)
        × (parts.new.host ≡ parts.old.host) × (parts.new.input ≡ parts.old.input)
        × (parts.new.output ≡ parts.old.output))
        M.Error.contents (map string_bytes words.now) parts.old.error parts.new.error result }
{
    match read_words(alloc, words) {
        Ok(command) => {
            let ended = run_command(
                alloc,
                &mut parts.sources,
                &mut parts.files,
                &mut parts.host,
                &command,
                &mut parts.input,
                &mut parts.output,
            );
            end(ended, &mut parts.error)
        }
        Err(fault) => match fault {
            WordsFault::Line(refusal) => refuse(alloc, &refusal, &mut parts.error),
            WordsFault::Memory => want(&mut parts.error),
        },
    }
}

/// Refuses words that can't be had: memory was wanting for them, or one is no text. The result is the exit status.
pub fn refuse_words<E: Write>(fault: &io::Error, error: &mut Counted<E>) -> u8
    ensures { AreNoWords E.contents (error_kind fault.now) error.old error.new result }
{
    match fault.kind() {
        ErrorKind::OutOfMemory => want(error),
        _ => {
            tell(NO_TEXT, error);
            USAGE
        }
    }
}

/// Tells of a command's end, and gives its status.
fn end<E: Write>(ended: Result<u8, CommandFault>, error: &mut Counted<E>) -> u8
    ensures told { IsEndTold E.contents ended error.old error.new }
    ensures status { result ≡ status_of ended }
{
    match ended {
        Ok(status) => status,
        Err(fault) => {
            tell(fault_lines(&fault), error);
            FAULT
        }
    }
}

/// Ends as out of memory.
fn want<E: Write>(error: &mut Counted<E>) -> u8
    ensures { IsWanting E.contents error.old error.new result }
{
    end(Err(CommandFault::Tool(ToolFault::Memory)), error)
}

/// Refuses words that spell no command, by clap's text.
fn refuse<E: Write>(alloc: Global, refusal: &Error, error: &mut Counted<E>) -> u8
    ensures { AreWordsRefused E.contents error.old error.new result ⊎ IsWanting E.contents error.old error.new result }
{
    match refusal.to_string(alloc) {
        Ok(text) => {
            tell(text.as_str(), error);
            USAGE
        }
        Err(_) => want(error),
    }
}

/// Writes the text, or as much of it as is taken.
fn tell<E: Write>(text: &str, error: &mut Counted<E>)
    ensures { IsTextTold E.contents text.now error.old error.new }
{
    let _ = write_all(error, text.as_bytes());
}
