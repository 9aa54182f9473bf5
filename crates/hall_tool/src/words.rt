//! The words of the command line.
ghost use Rattle.std.specs.Prelude.{◌≡◌, ◌≤◌, IfOk, IfErr, IfSome, MatchOption, None, Some, map, string_bytes};
ghost use Rattle.clap.specs.Words.{first_of, found_of, kind_of, rows_of};
ghost use Rattle.hall_tool.specs.Words.{IfLine, SpellsNone, IsNumber, IsNumberIfAny, IsNumberWithin, SpellsCommand};
ghost use Rattle.hall_tool.specs.Words.{page_of};
ghost use Rattle.hall_tool.specs.Words.{IsNoNumber, IsNoNumberIfAny, IsTakenFrom, AsksForPage, AsksNone};

use crate::pages::{
    BUDGET, CONNECTIONS, DB, FROM, PEOPLE, PORT, Page, ROUND, TO, ValueOption, command_line,
};
use crate::word::Word;
use clap::ArgMatches;
use clap::error::{Error, ErrorKind};
use std::alloc::{AllocError, Global};

const NO_COMMAND: &str = "a command is wanted";

/// The numbers that an option takes.
#[derive(Clone, Copy)]
pub(crate) struct Numbers {
    /// What is taken where none is named; with none such, one must be named.
    usual: Option<u64>,
    least: u64,
    most: u64,
}

const BUDGETS: Numbers = Numbers {
    usual: Some(200_000),
    least: 0,
    most: 1_000_000,
};

const PORTS: Numbers = Numbers {
    usual: None,
    least: 1,
    most: 65_535,
};

const CONNECTION_LIMITS: Numbers = Numbers {
    usual: Some(1_000_000),
    least: 1,
    most: 1_000_000,
};

/// What the program is asked to do.
#[derive(Debug, Drop)]
pub enum Command {
    /// Judge the answer on standard input.
    Judge,
    /// Search for the solutions of the puzzle on standard input, in at most so many visits: 0 to 1,000,000.
    Solve {
        budget: u64,
    },
    /// Import the people of the entry list at the path `people` into the database file at the path `db`.
    Init {
        db: Word,
        people: Word,
    },
    /// Serve the database file at the path `db` on this port of 127.0.0.1, 1 to 65,535, and so many connections, 1 to
    /// 1,000,000.
    Serve {
        db: Word,
        port: u64,
        connections: u64,
    },
    /// Answer the records on standard input, beginning with the people of the entry list at the path.
    Replay {
        people: Word,
    },
    /// Write the table of the round of this name, from the database file at the path `db`.
    Table {
        db: Word,
        round: Word,
    },
    /// Copy the rows of the database file at the path `from`, of the first version, into the one at the path `to`, made
    /// there where there is none.
    Migrate {
        from: Word,
        to: Word,
    },
    /// Check the database file at the path: whether it is a hall's, whole, and sane; with a budget, each puzzle is
    /// searched anew in at most so many visits, 0 to 1,000,000.
    Check {
        db: Word,
        budget: Option<u64>,
    },
    /// Show a page of help.
    Help(Page),
    /// Show the version.
    Version,
}

/// Why the words name no command.
#[derive(Debug, Drop)]
pub enum WordsFault {
    /// Out of memory.
    Memory,
    /// The words are not those of a command: the error names the first that is wrong, and how they may go.
    Line(Error),
}

impl From<AllocError> for WordsFault {
    ghost use Rattle.std.specs.Prelude.{◌≡◌};
    ghost use Rattle.hall_tool.specs.declared.words.WordsFault.TheVariants.{Memory};

    ghost from_gives = { λ _ e. e ≡ Memory };

    fn from(_e: AllocError) -> WordsFault {
        WordsFault::Memory
    }
}

/// A command line, as clap reads it.
type Line<'a> = clap::Command<'a>;

/// The command that words name, or why they name none.
type Taken = Result<Command, WordsFault>;

/// Reads the words after the program's name. The first one names the command, and the words after it are read by
/// the rules of that command.
pub fn read_words(alloc: Global, words: &[String]) -> Result<Command, WordsFault>
    ensures command { IfOk result (SpellsCommand (map string_bytes words.now)) }
    ensures fault { IfErr result (λ fault. IfLine fault (SpellsNone (map string_bytes words.now))) }
{
    let page = page_of(words);
    let mut line = command_line(alloc, page)?;
    match line.try_get_matches_from_mut(words) {
        Ok(matches) => taken(alloc, &mut line, page, &matches),
        Err(error) => asked(page, error),
    }
}

/// The page of the command that the first word names.
fn page_of(words: &[String]) -> Page
    ensures { result ≡ page_of (map string_bytes words.now) }
{
    let Some(name) = words.first() else {
        return Page::Hall;
    };
    match name.as_str() {
        "judge" => Page::Judge,
        "solve" => Page::Solve,
        "init" => Page::Init,
        "serve" => Page::Serve,
        "replay" => Page::Replay,
        "table" => Page::Table,
        "migrate" => Page::Migrate,
        "check" => Page::Check,
        _ => Page::Hall,
    }
}

/// The command of words that its line takes.
fn taken(alloc: Global, line: &mut Line<'_>, page: Page, matches: &ArgMatches<'_>) -> Taken
    ensures { IsTakenFrom page (rows_of (found_of matches.now)) result }
{
    match page {
        Page::Hall => Err(refusal(line, ErrorKind::MissingSubcommand, NO_COMMAND)),
        Page::Judge => Ok(Command::Judge),
        Page::Solve => solve_taken(alloc, line, matches),
        Page::Init => init_taken(alloc, line, matches),
        Page::Serve => serve_taken(alloc, line, matches),
        Page::Replay => replay_taken(alloc, line, matches),
        Page::Table => table_taken(alloc, line, matches),
        Page::Migrate => migrate_taken(alloc, line, matches),
        Page::Check => check_taken(alloc, line, matches),
    }
}

fn solve_taken(alloc: Global, line: &mut Line<'_>, matches: &ArgMatches<'_>) -> Taken
    ensures { IsTakenFrom Page.Solve (rows_of (found_of matches.now)) result }
{
    let budget = number(alloc, line, matches, BUDGET, BUDGETS)?;
    Ok(Command::Solve { budget })
}

fn init_taken(alloc: Global, line: &mut Line<'_>, matches: &ArgMatches<'_>) -> Taken
    ensures { IsTakenFrom Page.Init (rows_of (found_of matches.now)) result }
{
    let db = word(alloc, line, matches, DB)?;
    let people = word(alloc, line, matches, PEOPLE)?;
    Ok(Command::Init { db, people })
}

fn serve_taken(alloc: Global, line: &mut Line<'_>, matches: &ArgMatches<'_>) -> Taken
    ensures { IsTakenFrom Page.Serve (rows_of (found_of matches.now)) result }
{
    let db = word(alloc, line, matches, DB)?;
    let port = number(alloc, line, matches, PORT, PORTS)?;
    let connections = number(alloc, line, matches, CONNECTIONS, CONNECTION_LIMITS)?;
    Ok(Command::Serve {
        db,
        port,
        connections,
    })
}

fn replay_taken(alloc: Global, line: &mut Line<'_>, matches: &ArgMatches<'_>) -> Taken
    ensures { IsTakenFrom Page.Replay (rows_of (found_of matches.now)) result }
{
    let people = word(alloc, line, matches, PEOPLE)?;
    Ok(Command::Replay { people })
}

fn table_taken(alloc: Global, line: &mut Line<'_>, matches: &ArgMatches<'_>) -> Taken
    ensures { IsTakenFrom Page.Table (rows_of (found_of matches.now)) result }
{
    let db = word(alloc, line, matches, DB)?;
    let round = word(alloc, line, matches, ROUND)?;
    Ok(Command::Table { db, round })
}

fn migrate_taken(alloc: Global, line: &mut Line<'_>, matches: &ArgMatches<'_>) -> Taken
    ensures { IsTakenFrom Page.Migrate (rows_of (found_of matches.now)) result }
{
    let from = word(alloc, line, matches, FROM)?;
    let to = word(alloc, line, matches, TO)?;
    Ok(Command::Migrate { from, to })
}

fn check_taken(alloc: Global, line: &mut Line<'_>, matches: &ArgMatches<'_>) -> Taken
    ensures { IsTakenFrom Page.Check (rows_of (found_of matches.now)) result }
{
    let db = word(alloc, line, matches, DB)?;
    let budget = number_if_any(alloc, line, matches, BUDGET, BUDGETS)?;
    Ok(Command::Check { db, budget })
}

/// What words ask for that the line of the page doesn't take.
fn asked(page: Page, error: Error) -> Result<Command, WordsFault>
    ensures command { IfOk result (AsksForPage page (kind_of error)) }
    ensures fault { IfErr result (λ fault. IfLine fault (AsksNone (kind_of error))) }
{
    match error.kind() {
        ErrorKind::OutOfMemory => Err(WordsFault::Memory),
        ErrorKind::DisplayHelp => Ok(Command::Help(page)),
        ErrorKind::DisplayVersion => Ok(Command::Version),
        _ => Err(WordsFault::Line(error)),
    }
}

/// The value that the words give the option.
fn word(
    alloc: Global,
    line: &mut Line<'_>,
    matches: &ArgMatches<'_>,
    option: ValueOption,
) -> Result<Word, WordsFault>
    ensures word { IfOk result (λ word. first_of option.name.now (rows_of (found_of matches.now)) ≡ Some word) }
    ensures fault { IfErr result (λ fault. IfLine fault
        (first_of option.name.now (rows_of (found_of matches.now)) ≡ None)) }
{
    match matches.get_str(option.name) {
        Some(text) => Ok(Word::new(String::from_str(alloc, text)?)),
        None => Err(missing(alloc, line, option)),
    }
}

/// The number that the words give the option, or the usual one where they give none.
fn number(
    alloc: Global,
    line: &mut Line<'_>,
    matches: &ArgMatches<'_>,
    option: ValueOption,
    numbers: Numbers,
) -> Result<u64, WordsFault>
    ensures number { IfOk result
        (IsNumber numbers (first_of option.name.now (rows_of (found_of matches.now)))) }
    ensures fault { IfErr result (λ fault. IfLine fault
        (IsNoNumber (IsNumber numbers (first_of option.name.now (rows_of (found_of matches.now)))))) }
{
    match number_if_any(alloc, line, matches, option, numbers)?.or(numbers.usual) {
        Some(number) => Ok(number),
        None => Err(missing(alloc, line, option)),
    }
}

/// The number that the words give the option, if they give any.
fn number_if_any(
    alloc: Global,
    line: &mut Line<'_>,
    matches: &ArgMatches<'_>,
    option: ValueOption,
    numbers: Numbers,
) -> Result<Option<u64>, WordsFault>
    ensures number { IfOk result
        (IsNumberIfAny numbers (first_of option.name.now (rows_of (found_of matches.now)))) }
    ensures fault { IfErr result (λ fault. IfLine fault
        (IsNoNumberIfAny numbers (first_of option.name.now (rows_of (found_of matches.now))))) }
{
    match matches.get_str(option.name) {
        Some(text) => match number_within(text, numbers.least, numbers.most) {
            Some(number) => Ok(Some(number)),
            None => Err(no_number(alloc, line, option, numbers, text)),
        },
        None => Ok(None),
    }
}

/// The number between the two that the text is of.
fn number_within(text: &str, least: u64, most: u64) -> Option<u64>
    ensures { MatchOption result (IsNoNumber (IsNumberWithin least most text.now))
        (IsNumberWithin least most text.now) }
{
    match text.parse::<u64>() {
        Ok(number) if least <= number && number <= most => Some(number),
        _ => None,
    }
}

fn no_number(
    alloc: Global,
    line: &mut Line<'_>,
    option: ValueOption,
    numbers: Numbers,
    text: &str,
) -> WordsFault {
    let Ok(message) = format!(in alloc;
        "invalid value '{text}' for '--{} <{}>': a number from {} to {} is wanted",
        option.name, option.value, numbers.least, numbers.most
    ) else {
        return WordsFault::Memory;
    };
    refusal(line, ErrorKind::ValueValidation, message.as_str())
}

fn missing(alloc: Global, line: &mut Line<'_>, option: ValueOption) -> WordsFault {
    let Ok(message) = format!(in alloc;
        "the following required arguments were not provided:\n  --{} <{}>",
        option.name, option.value
    ) else {
        return WordsFault::Memory;
    };
    refusal(line, ErrorKind::MissingRequiredArgument, message.as_str())
}

/// An error of the line in the form of clap's own.
fn refusal(line: &mut Line<'_>, kind: ErrorKind, message: &str) -> WordsFault {
    match line.error(kind, message) {
        Ok(error) => WordsFault::Line(error),
        Err(AllocError) => WordsFault::Memory,
    }
}
