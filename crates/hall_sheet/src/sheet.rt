//! Round sheets.
ghost use Rattle.std.specs.Prelude.{◌≡◌, [], map, IfOk};
ghost use Rattle.std.specs.List.{list_any};
ghost use Rattle.toml.specs.View.{table_view};
ghost use Rattle.hall_sheet.specs.Given.{Gives};
ghost use Rattle.hall_sheet.specs.Sheet.{document_in, are_listed, zoned_start_in, starts_in, mode_in_sheet, entry_in};
ghost use Rattle.hall_sheet.specs.Sheet.{names_in, named_testers_in, testers_in_sheet, is_repeated, entries_in};
ghost use Rattle.hall_sheet.specs.Sheet.{list_in};
ghost use Rattle.hall_sheet.specs.Sheet.{fields_in, sheet_in};

use crate::fault::{Field, Refusal, SheetFault};
use crate::start::{read_civil, read_moment};
use crate::table::{has_only, push, read_number, read_tables, read_text, read_texts, text_at};
use crate::version::{Version, read_version, version_or_first};
use crate::words::checked;
use crate::zone::{ZoneText, moment_in};
use hall_policy::{
    Checked, Entries, Entry, MOST_ENTRIES, MOST_TESTERS, Mode, Moment, Name, PuzzleKey, Sheet,
    Testers,
};
use std::alloc::{AllocError, Global};
use toml::Table;

const SYNTAX: SheetFault = SheetFault::Refused(Refusal::Syntax);

const ENTRY_FIELDS: [Field; 3] = [Field::Author, Field::Label, Field::Points];

/// The table that the bytes write in TOML.
fn read_document(alloc: Global, bytes: &[u8]) -> Result<Table, SheetFault>
    ensures { Gives (λ t. table_view t) result (document_in bytes.now) }
{
    let Ok(text) = str::from_utf8(bytes) else {
        return Err(SYNTAX);
    };
    match toml::table_from_str(alloc, text) {
        Ok(table) => Ok(table),
        Err(error) if error.is_memory() => Err(SheetFault::Memory),
        Err(_) => Err(SYNTAX),
    }
}

/// Whether every key is listed, at the top by the version, and in the tables of `puzzle`.
fn are_listed(alloc: Global, document: &Table) -> Result<bool, AllocError>
    ensures { IfOk result (λ listed. listed ≡ are_listed (table_view document.now)) }
{
    if !version_or_first(document)?.has_keys(document) {
        return Ok(false);
    }
    match read_tables(alloc, document, Field::Puzzle) {
        Ok(tables) => Ok(tables.iter().all(|table| has_only(table, &ENTRY_FIELDS))),
        Err(SheetFault::Memory) => Err(AllocError),
        Err(SheetFault::Refused(_)) => Ok(true),
    }
}

/// The moment at which the clocks of the sheet's zone show its start.
fn read_zoned_start(alloc: Global, table: &Table) -> Result<Moment, SheetFault>
    ensures { Gives (λ n. n) result (zoned_start_in (table_view table.now)) }
{
    let civil = read_civil(text_at(table, Field::Start)?.as_bytes())?;
    let zone: Checked<ZoneText> = read_text(alloc, table, Field::Zone)?;
    moment_in(zone.as_str(), civil)
}

/// The moment at which the round starts.
fn read_start(alloc: Global, table: &Table, version: Version) -> Result<Moment, SheetFault>
    ensures { Gives (λ n. n) result (starts_in version (table_view table.now)) }
{
    match version {
        Version::First => read_moment(text_at(table, Field::Start)?.as_bytes()),
        Version::Second | Version::Third => read_zoned_start(alloc, table),
    }
}

/// How answers count.
fn read_mode(table: &Table) -> Result<Mode, SheetFault>
    ensures { Gives (λ m. m) result (mode_in_sheet (table_view table.now)) }
{
    match text_at(table, Field::Mode)? {
        "instant" => Ok(Mode::Instant),
        "sealed" => Ok(Mode::Sealed),
        _ => Err(SheetFault::Refused(Refusal::Range(Field::Mode))),
    }
}

/// The names that texts are, where each of them is one.
fn read_names(alloc: Global, texts: &[&str]) -> Result<Vec<Name>, SheetFault>
    ensures { Gives (λ names. names.items) result (names_in (map (λ t. t.now) texts.now)) }
{
    let mut names = Vec::with_capacity(alloc, texts.len())?;
    for text in texts {
        let name = checked(alloc, text, Refusal::Range(Field::Testers))?;
        push(&mut names, name)?;
    }
    Ok(names)
}

/// Those whom the sheet names as testers.
#[tactic(auto, unfolding(crate::specs::Sheet::named_testers_in))]
fn read_named_testers(alloc: Global, document: &Table) -> Result<Testers, SheetFault>
    ensures { Gives (λ t. t) result (named_testers_in (table_view document.now)) }
{
    let texts = read_texts(alloc, document, Field::Testers)?;
    if texts.len() > MOST_TESTERS {
        return Err(SheetFault::Refused(Refusal::Range(Field::Testers)));
    }
    let names = read_names(alloc, texts.as_slice())?;
    match Testers::new(names) {
        Some(testers) => Ok(testers),
        None => Err(SheetFault::Refused(Refusal::Repeated)),
    }
}

/// Those who test the round.
fn read_testers(alloc: Global, document: &Table, version: Version) -> Result<Testers, SheetFault>
    ensures { Gives (λ t. t) result (testers_in_sheet version (table_view document.now)) }
{
    match version {
        Version::First | Version::Second => Ok(Testers::none(alloc)),
        Version::Third => read_named_testers(alloc, document),
    }
}

/// A puzzle of the round, and the points for it.
#[tactic(auto, unfolding(crate::specs::Sheet::entry_in))]
fn read_entry(alloc: Global, table: &Table) -> Result<Entry, SheetFault>
    ensures { Gives (λ e. e) result (entry_in (table_view table.now)) }
{
    Ok(Entry {
        puzzle: PuzzleKey {
            author: read_text(alloc, table, Field::Author)?,
            label: read_text(alloc, table, Field::Label)?,
        },
        points: read_number(table, Field::Points)?,
    })
}

/// Whether one of the entries is of the same puzzle.
fn is_repeated(entries: &[Entry], later: &Entry) -> bool
    ensures { result ≡ list_any (is_repeated later.now) entries.now }
{
    entries
        .iter()
        .any(|entry| entry.puzzle.is_same(&later.puzzle))
}

/// The entries that tables spell, one after another.
fn read_entries(alloc: Global, tables: &[&Table]) -> Result<Vec<Entry>, SheetFault>
    ensures { Gives (λ v. v.items) result (entries_in [] (map (λ t. table_view t.now) tables.now)) }
{
    let mut entries = Vec::new(alloc);
    for table in tables {
        let entry = read_entry(alloc, table)?;
        if is_repeated(entries.as_slice(), &entry) {
            return Err(SheetFault::Refused(Refusal::Repeated));
        }
        push(&mut entries, entry)?;
    }
    Ok(entries)
}

/// The round's list.
#[tactic(auto, unfolding(crate::specs::Sheet::list_in))]
fn read_list(alloc: Global, document: &Table) -> Result<Entries, SheetFault>
    ensures { Gives (λ e. e) result (list_in (table_view document.now)) }
{
    let out_of_range = SheetFault::Refused(Refusal::Range(Field::Puzzle));
    let tables = read_tables(alloc, document, Field::Puzzle)?;
    if tables.is_empty() || tables.len() > MOST_ENTRIES {
        return Err(out_of_range);
    }
    let entries = read_entries(alloc, tables.as_slice())?;
    match Entries::new(entries)? {
        Some(list) => Ok(list),
        // Not met: the entries differ, and there are one to forty.
        None => Err(out_of_range),
    }
}

/// The sheet, field by field.
#[tactic(auto, unfolding(crate::specs::Sheet::fields_in))]
fn read_fields(alloc: Global, document: &Table) -> Result<Sheet, SheetFault>
    ensures { Gives (λ s. s) result (fields_in (table_view document.now)) }
{
    let version = read_version(document)?;
    Ok(Sheet {
        title: read_text(alloc, document, Field::Title)?,
        start: read_start(alloc, document, version)?,
        minutes: read_number(document, Field::Minutes)?,
        protest_minutes: read_number(document, Field::ProtestMinutes)?,
        mode: read_mode(document)?,
        penalty: read_number(document, Field::Penalty)?,
        bonus: read_number(document, Field::Bonus)?,
        testers: read_testers(alloc, document, version)?,
        puzzles: read_list(alloc, document)?,
    })
}

/// The round sheet that the bytes spell in TOML. An error is the first thing that is wrong with them, or want of
/// memory.
pub fn read_round(alloc: Global, bytes: &[u8]) -> Result<Sheet, SheetFault>
    ensures { Gives (λ s. s) result (sheet_in bytes.now) }
{
    let document = read_document(alloc, bytes)?;
    if !are_listed(alloc, &document)? {
        return Err(SYNTAX);
    }
    read_fields(alloc, &document)
}
