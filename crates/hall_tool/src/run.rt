//! One command, run over files, an input and an output.
ghost use Rattle.std.specs.Prelude.{◌≡◌};
ghost use Rattle.hall_tool.specs.CommandRun.{IsCommandRun, UnlessRead};
ghost use Rattle.hall_tool.specs.Machine.{all_files, files_of, host_of, machine, streams};

use crate::check::check_at;
use crate::commands::{init_at, replay_in_memory, task_at};
use crate::fault::CommandFault;
use crate::help::help_text;
use crate::judge::judge_run;
use crate::migrate::migrate_at;
use crate::pages::VERSION;
use crate::show::show_run;
use crate::solve::solve_run;
use crate::task::{Serve, Table, command_end};
use crate::words::Command;
use hall_grid::Counted;
use hall_http::Host;
use hall_sql::PathFiles;
use sqlite::Alter;
use std::alloc::Global;
use std::io::{Read, Write};

/// Runs the command over the files, the host, the input and the output. A database that is only read, to be migrated or
/// checked, is asked for among the files `sources`, which no other command asks for anything. The result is the exit
/// status: as the command's own function gives it, and 0 for a page of help and the version.
pub fn run_command<
    O: Alter + Drop,
    E: PathFiles<O>,
    S: Alter + Drop,
    F: PathFiles<S>,
    H: Host,
    R: Read,
    W: Write,
>(
    alloc: Global,
    sources: &mut E,
    files: &mut F,
    host: &mut H,
    command: &Command,
    input: &mut Counted<R>,
    output: &mut Counted<W>,
) -> Result<u8, CommandFault>
    ensures run { IsCommandRun (all_files (files_of O.Store E.PathFiles) (files_of S.Store F.PathFiles))
        (host_of H.Host H.Sockets.Sockets H.Sockets.Peer.Peer H.Clock.Clock) (streams R.remaining W.contents)
        command.now
        (machine sources.old host.old files.old input.old output.old)
        (machine sources.new host.new files.new input.new output.new) result }
    ensures sources { UnlessRead command.now (sources.new ≡ sources.old) }
{
    match command {
        Command::Judge => command_end(judge_run(alloc, input, output)),
        Command::Solve { budget } => command_end(solve_run(alloc, input, output, *budget)),
        Command::Init { db, people } => {
            let (db, people) = (db.as_str(), people.as_str());
            init_at(alloc, files, host, db, people, input, output)
        }
        Command::Serve {
            db,
            port,
            connections,
        } => {
            let task = Serve {
                path: db.as_str(),
                port: *port,
                connections: *connections,
            };
            task_at(alloc, files, host, db.as_str(), &task, input, output)
        }
        Command::Replay { people } => {
            let people = people.as_str();
            replay_in_memory(alloc, files, host, people, input, output)
        }
        Command::Table { db, round } => {
            let task = Table {
                round: round.as_str().as_bytes(),
            };
            task_at(alloc, files, host, db.as_str(), &task, input, output)
        }
        Command::Migrate { from, to } => {
            migrate_at(alloc, sources, files, from.as_str(), to.as_str(), output)
        }
        Command::Check { db, budget } => check_at(alloc, sources, db.as_str(), *budget, output),
        Command::Help(page) => command_end(show_run(help_text(*page), output)),
        Command::Version => command_end(show_run(VERSION, output)),
    }
}
