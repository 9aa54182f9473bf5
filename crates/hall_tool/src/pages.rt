//! The command lines of the program, as clap reads them.
ghost use Rattle.std.specs.Prelude.{◌≡◌, IfOk, false};
ghost use Rattle.clap.specs.Words.{app_of, new_app, rule_of};
ghost use Rattle.hall_tool.specs.Pages.{command_line_of, option_named, with_options};

use clap::{Arg, ArgAction, Command};
use std::alloc::{AllocError, Global};

/// The program's name and version, on a line.
pub(crate) const VERSION: &str = "hall 0.2.0\n";

/// An option of a command, which takes one value: its name, and the sign of the value.
#[derive(Clone, Copy)]
pub(crate) struct ValueOption {
    pub(crate) name: &'static str,
    pub(crate) value: &'static str,
}

/// The option of this name, of whose value this is the sign.
macro_rules! valued {
    ($name:literal, $value:literal) => {
        ValueOption {
            name: $name,
            value: $value,
        }
    };
}

pub(crate) const BUDGET: ValueOption = valued!("budget", "N");

pub(crate) const PEOPLE: ValueOption = valued!("people", "L");

pub(crate) const DB: ValueOption = valued!("db", "F");

pub(crate) const PORT: ValueOption = valued!("port", "N");

pub(crate) const CONNECTIONS: ValueOption = valued!("connections", "N");

pub(crate) const ROUND: ValueOption = valued!("round", "R");

pub(crate) const FROM: ValueOption = valued!("from", "F");

pub(crate) const TO: ValueOption = valued!("to", "G");

/// A page of help: the program's own, or that of a command.
#[derive(Clone, Copy, Debug, PartialEq, Eq)]
pub enum Page {
    Hall,
    Judge,
    Solve,
    Init,
    Serve,
    Replay,
    Table,
    Migrate,
    Check,
}

/// The command line that the page is of.
pub(crate) fn command_line<'a>(alloc: Global, page: Page) -> Result<Command<'a>, AllocError>
    ensures { IfOk result (λ line. app_of line ≡ command_line_of page) }
{
    match page {
        Page::Hall => Ok(hall_line(alloc)),
        Page::Judge => line(alloc, "judge", "hall judge < FILE", &[]),
        Page::Solve => line(alloc, "solve", "hall solve [--budget N] < FILE", &[BUDGET]),
        Page::Init => line(alloc, "init", "hall init --db F --people L", &[DB, PEOPLE]),
        Page::Serve => line(
            alloc,
            "serve",
            "hall serve --db F --port N [--connections N]",
            &[DB, PORT, CONNECTIONS],
        ),
        Page::Replay => line(alloc, "replay", "hall replay --people L < FILE", &[PEOPLE]),
        Page::Table => line(alloc, "table", "hall table --db F --round R", &[DB, ROUND]),
        Page::Migrate => line(
            alloc,
            "migrate",
            "hall migrate --from F --to G",
            &[FROM, TO],
        ),
        Page::Check => line(
            alloc,
            "check",
            "hall check --db F [--budget N]",
            &[DB, BUDGET],
        ),
    }
}

/// The command line of words that name no command.
fn hall_line<'a>(alloc: Global) -> Command<'a>
    ensures { app_of result ≡ command_line_of Page.Hall }
{
    Command::new(alloc, "hall")
        .no_binary_name(true)
        .version(VERSION)
        .override_usage("hall judge|solve|init|serve|table|replay|migrate|check [OPTIONS] < FILE")
}

/// The command line of the command of this name, which may go so, with these options.
fn line<'a>(
    alloc: Global,
    name: &'a str,
    usage: &'a str,
    options: &[ValueOption],
) -> Result<Command<'a>, AllocError>
    ensures { IfOk result (λ line. app_of line ≡ with_options (new_app name.now) options.now) }
{
    let mut line = Command::new(alloc, name).override_usage(usage);
    for named in options {
        line = line.arg(option(alloc, *named))?;
    }
    Ok(line)
}

fn option<'a>(alloc: Global, named: ValueOption) -> Arg<'a>
    ensures rule { rule_of result ≡ option_named named.name.now }
    ensures local { result.global ≡ false }
{
    Arg::new(alloc, named.name)
        .long(named.name)
        .value_name(named.value)
        .action(ArgAction::Set)
}
