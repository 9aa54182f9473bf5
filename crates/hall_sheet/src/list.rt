//! Entry lists.
ghost use Rattle.std.specs.Prelude.{◌≡◌, ◌++◌, ◌∷◌, [], ℕ, List, Result, IfOk, IfErr, OnOk, OnErr};
ghost use Rattle.csv.specs.Reading.{default_config, strip_bom, records};
ghost use Rattle.csv.specs.Records.{fields_of};
ghost use Rattle.hall_policy.specs.declared.record.Person.{Person};
ghost use Rattle.hall_sheet.specs.declared.fault.Refusal.{Refusal as Refused};
ghost use Rattle.hall_sheet.specs.declared.fault.SheetFault.TheVariants.{Memory};
ghost use Rattle.hall_sheet.specs.Given.{Gives};
ghost use Rattle.hall_sheet.specs.People.{texts_in, header_in, person_of, people_from, people_in};
ghost use Rattle.hall_sheet.specs.List.{HasLeft, TakesRow, TakesHeader, AddsRow, IsRead};

use crate::entry::read_line;
use crate::fault::{Field, Refusal, SheetFault};
use csv::{ByteRecord, ByteRecordsIntoIter, ReaderBuilder, StringRecord};
use hall_policy::{MOST_PEOPLE, People, Person};
use std::alloc::{AllocError, Global};

const SYNTAX: SheetFault = SheetFault::Refused(Refusal::Syntax);

/// The rows of a list's bytes.
fn rows_of(alloc: Global, bytes: &[u8]) -> ByteRecordsIntoIter<&[u8]>
    ensures { HasLeft result (records default_config (strip_bom bytes.now)) }
{
    ReaderBuilder::new()
        .has_headers(false)
        .flexible(true)
        .from_reader(alloc, bytes)
        .into_byte_records()
}

/// The next row, where there is one.
fn next_row(rows: &mut ByteRecordsIntoIter<&[u8]>) -> Result<Option<ByteRecord>, SheetFault>
    ensures ok { (left : List (List (List ℕ))) → HasLeft rows.old left
        → IfOk result (λ row. TakesRow row left rows.new) }
    ensures memory { IfErr result (λ e. e ≡ Memory) }
{
    match rows.next() {
        Some(Ok(row)) => Ok(Some(row)),
        // Bytes in memory can be read, so it is memory that failed.
        Some(Err(_)) => Err(SheetFault::Memory),
        None => Ok(None),
    }
}

/// The row, where each of its fields is text.
fn text_row(row: ByteRecord) -> Result<StringRecord, SheetFault>
    ensures { Gives fields_of result (texts_in (fields_of row)) }
{
    match StringRecord::from_byte_record(row) {
        Ok(row) => Ok(row),
        Err(_) => Err(SYNTAX),
    }
}

/// Refuses a row that isn't the header.
fn check_header(row: ByteRecord) -> Result<(), SheetFault>
    ensures { Gives (λ done. done) result (header_in (fields_of row)) }
{
    let row = text_row(row)?;
    if read_line(&row)?.is_header() {
        Ok(())
    } else {
        Err(SYNTAX)
    }
}

/// Takes the header.
fn read_header(rows: &mut ByteRecordsIntoIter<&[u8]>) -> Result<(), SheetFault>
    ensures { (left : List (List (List ℕ))) → HasLeft rows.old left → TakesHeader result left rows.new }
{
    match next_row(rows)? {
        Some(first) => check_header(first),
        None => Err(SYNTAX),
    }
}

/// The person of a row, or what is wrong with it.
fn read_person(alloc: Global, row: ByteRecord) -> Result<Person, SheetFault>
    ensures { Gives (λ person. person) result (person_of (fields_of row)) }
{
    let row = text_row(row)?;
    read_line(&row)?.person(alloc)
}

/// Puts the person at the end; refused, it leaves the others.
fn push(people: &mut Vec<Person>, person: Person) -> Result<(), AllocError>
    ensures ok { OnOk result (people.new.items ≡ people.old.items ++ person ∷ []) }
    ensures err { OnErr result (people.new.items ≡ people.old.items) }
{
    people.push(person)?;
    Ok(())
}

/// Adds the person of a row, also one with a name or a key of before, where the people are fewer than `MOST_PEOPLE`.
fn add_row(alloc: Global, people: &mut Vec<Person>, row: ByteRecord) -> Result<(), SheetFault>
    ensures { AddsRow result people.old.items (fields_of row) people.new.items }
{
    if people.len() >= MOST_PEOPLE {
        return Err(SheetFault::Refused(Refusal::Range(Field::List)));
    }
    let person = read_person(alloc, row)?;
    push(people, person)?;
    Ok(())
}

/// Adds the people of the rows, as long as each spells one.
fn read_rows(
    alloc: Global,
    rows: &mut ByteRecordsIntoIter<&[u8]>,
    people: &mut Vec<Person>,
) -> Result<(), SheetFault>
    requires { people.old.items ≡ [] }
    ensures { (left : List (List (List ℕ))) → HasLeft rows.old left
        → IsRead result people.new.items (people_from [] left) }
{
    while let Some(row) = next_row(rows)? {
        add_row(alloc, people, row)?;
    }
    Ok(())
}

/// The people that were read, where none has a name or a key of one before, and else that; then what was wrong.
fn unless_repeated(
    alloc: Global,
    people: Vec<Person>,
    read: Result<(), SheetFault>,
) -> Result<People, SheetFault>
    ensures { (all : Result (List Person) Refused) → IsRead read people.items all
        → Gives (λ people. people) result all }
{
    let Some(people) = People::new(alloc, people)? else {
        return Err(SheetFault::Refused(Refusal::Repeated));
    };
    match read {
        Ok(()) => Ok(people),
        Err(fault) => Err(fault),
    }
}

/// The people of an entry list, or the first thing that is wrong with its bytes.
///
/// A name or a key that stands twice is sought once, among all that was read, and comes before what ended the reading.
pub fn read_people(alloc: Global, bytes: &[u8]) -> Result<People, SheetFault>
    ensures { Gives (λ people. people) result (people_in bytes.now) }
{
    let mut rows = rows_of(alloc, bytes);
    read_header(&mut rows)?;
    let mut people = Vec::new(alloc);
    let read = read_rows(alloc, &mut rows, &mut people);
    unless_repeated(alloc, people, read)
}
