//! The table of rounds.
ghost use Rattle.std.specs.Prelude.{◌≡◌, ◌≢◌, ◌++◌, ◌∷◌, [], ℕ, List, length, map, suc, IfOk, IfErr, IfSome, OnOk};
ghost use Rattle.std.specs.List.{dedup};
ghost use Rattle.std.specs.FinMap.{get, values, entries};
ghost use Rattle.sqlite.specs.Held.{state};
ghost use Rattle.sqlite.specs.State.{HasCleanDisk};
ghost use Rattle.hall_policy.specs.Lists.{AreEntries, AreTesters};
ghost use Rattle.hall_policy.specs.World.{World, same_text};
ghost use Rattle.hall_store.specs.Store.{Served, Fails, AreUsing, AreTestersOf, IsRoundKept, RoundCanFail};
ghost use Rattle.hall_sql.specs.Places.{is_in_round, ArePlaces, ArePlacesWith, AreListed, AreNumbered};
ghost use Rattle.hall_sql.specs.RoundColumns.{IsHead};
ghost use Rattle.hall_sql.specs.Standing.{IsHall, KeptTables};
ghost use Rattle.hall_sql.specs.Content.{content_of};
ghost use Rattle.hall_sql.specs.Versions.{IsAnyHall};
ghost use Rattle.sqlite.specs.declared.types.Value.TheVariants.{Text};
ghost use Rattle.hall_sql.specs.Rows.{place_in, round_in};
ghost use Rattle.hall_sql.specs.Reads.{Reads, ReadsRows, ReadsTable};
ghost use Rattle.hall_sql.specs.Whole.{AreRecords, IsRoundRead};
ghost use Rattle.hall_sql.specs.Cause.{RoundFails, AreNoRound};
ghost use Rattle.hall_store.specs.declared.fault.StoreFault.TheVariants.{Memory};

use crate::reads::{find, read, read_any};
use crate::record::Place;
use crate::testers::testers_of;
use hall_policy::{Entries, Entry, Name, PuzzleKey, Round, RoundId, RoundRow, Testers};
use hall_store::StoreFault;
use sqlite::{Alter, Connection, params};
use std::alloc::Global;

/// All rounds, in the order of their ids.
const ALL_ROUNDS: &str =
    "SELECT id, title, start, minutes, protest_minutes, mode, penalty, bonus, released, published \
    FROM rounds ORDER BY id";

/// All rounds without their puzzles, in the order of their ids, of either version.
pub(crate) fn rounds<S: Alter>(
    conn: &mut Connection<S>,
    alloc: Global,
) -> Result<Vec<Round>, StoreFault>
    requires hall { IsAnyHall (state S.Store conn.old) }
    ensures { ReadsTable round_in ALL_ROUNDS.now (state S.Store conn.old) (state S.Store conn.new) result
        (λ world rounds. rounds.items ≡ values world.rounds) }
{
    let _schema = conn.schema();
    read_any(conn, alloc, ALL_ROUNDS, &[])
}

/// The places that have a puzzle, in the order of their rounds.
const PLACES_WITH: &str = "SELECT round, number, author, label, points FROM round_puzzles \
    WHERE author = ?1 AND label = ?2 ORDER BY round";

/// The places that have the puzzle, in the order of their rounds.
fn places_with<S: Alter>(
    conn: &mut Connection<S>,
    alloc: Global,
    key: &PuzzleKey,
) -> Result<Vec<Place>, StoreFault>
    requires hall { IsHall (state S.Store conn.old) }
    ensures { ReadsRows place_in PLACES_WITH.now (Text key.now.author ∷ Text key.now.label ∷ [])
        (state S.Store conn.old) (state S.Store conn.new) result
        (λ world places. ArePlacesWith world key.now places.items) }
{
    let _schema = conn.schema();
    read(
        conn,
        alloc,
        PLACES_WITH,
        params![key.author.as_str(), key.label.as_str()],
    )
}

/// All places, by round, then number.
const ALL_PLACES: &str =
    "SELECT round, number, author, label, points FROM round_puzzles ORDER BY round, number";

/// All places, by round, then number, of either version.
pub(crate) fn all_places<S: Alter>(
    conn: &mut Connection<S>,
    alloc: Global,
) -> Result<Vec<Place>, StoreFault>
    requires hall { IsAnyHall (state S.Store conn.old) }
    ensures { ReadsTable place_in ALL_PLACES.now (state S.Store conn.old) (state S.Store conn.new) result
        (λ world places. places.items ≡ entries world.places) }
{
    let _schema = conn.schema();
    read_any(conn, alloc, ALL_PLACES, &[])
}

/// The round of each place.
fn round_of_each(alloc: Global, places: Vec<Place>) -> Result<Vec<RoundId>, StoreFault>
    ensures ids { IfOk result (λ ids. ids.items ≡ map (λ place. place.0.round) places.items) }
    ensures memory { IfErr result (λ fault. fault ≡ Memory) }
{
    let mut ids = Vec::new(alloc);
    for (key, _) in places {
        if ids.push(key.round).is_err() {
            return Err(StoreFault::Memory);
        }
    }
    Ok(ids)
}

/// The rounds of the places, each once where the places of each round stand together.
fn rounds_of(alloc: Global, places: Vec<Place>) -> Result<Vec<RoundId>, StoreFault>
    ensures ids { IfOk result
        (λ ids. ids.items ≡ dedup same_text (map (λ place. place.0.round) places.items)) }
    ensures memory { IfErr result (λ fault. fault ≡ Memory) }
{
    let mut ids = round_of_each(alloc, places)?;
    ids.dedup();
    Ok(ids)
}

/// The ids of the rounds that have the puzzle, each once, in their order.
pub(crate) fn rounds_using<S: Alter>(
    conn: &mut Connection<S>,
    alloc: Global,
    key: &PuzzleKey,
) -> Result<Vec<RoundId>, StoreFault>
    requires hall { IsHall (state S.Store conn.old) }
    ensures { ReadsRows place_in PLACES_WITH.now (Text key.now.author ∷ Text key.now.label ∷ [])
        (state S.Store conn.old) (state S.Store conn.new) result (λ world ids. AreUsing world key.now ids.items) }
{
    let places = places_with(conn, alloc, key)?;
    rounds_of(alloc, places)
}

/// The round of an id, without its puzzles.
const HEAD: &str =
    "SELECT id, title, start, minutes, protest_minutes, mode, penalty, bonus, released, published \
    FROM rounds WHERE id = ?1";

/// The round of the id without its puzzles, and that one row stands under the id.
pub(crate) fn head<S: Alter>(
    conn: &mut Connection<S>,
    alloc: Global,
    id: &RoundId,
) -> Result<Option<Round>, StoreFault>
    requires hall { IsHall (state S.Store conn.old) }
    ensures reads { ReadsRows round_in HEAD.now (Text id.now ∷ []) (state S.Store conn.old) (state S.Store conn.new)
        result (λ world found. found ≡ get world.rounds id.now) }
    ensures alone { HasCleanDisk (state S.Store conn.new) → IfOk result
        (λ found. IfSome found (IsHead id.now (state S.Store conn.new))) }
{
    find(conn, alloc, HEAD, params![id.as_str()])
}

/// The places of a round, in the order of their numbers.
const PLACES_OF: &str = "SELECT round, number, author, label, points FROM round_puzzles \
    WHERE round = ?1 ORDER BY number";

/// The places of the round, in the order of their numbers.
fn places_of<S: Alter>(
    conn: &mut Connection<S>,
    alloc: Global,
    id: &RoundId,
) -> Result<Vec<Place>, StoreFault>
    requires hall { IsHall (state S.Store conn.old) }
    ensures { ReadsRows place_in PLACES_OF.now (Text id.now ∷ []) (state S.Store conn.old) (state S.Store conn.new)
        result (λ world places. AreListed world id.now places.items) }
{
    let _schema = conn.schema();
    read(conn, alloc, PLACES_OF, params![id.as_str()])
}

/// Adds the entry of a place. Refused where the place isn't the next.
fn add_entry(entries: &mut Vec<Entry>, place: Place) -> Result<(), StoreFault>
    ensures added { OnOk result (entries.new.items ≡ entries.old.items ++ place.1 ∷ []) }
    ensures next { OnOk result (place.0.number ≡ suc (length entries.old.items)) }
    ensures other { Fails (place.0.number ≢ suc (length entries.old.items)) result }
{
    let (key, entry) = place;
    if key.number.get() != entries.len() as u64 + 1 {
        return Err(StoreFault::Failed);
    }
    match entries.push(entry) {
        Ok(()) => Ok(()),
        Err(_) => Err(StoreFault::Memory),
    }
}

/// The entries of places that are numbered from 1 on.
fn entries_of(alloc: Global, places: Vec<Place>) -> Result<Vec<Entry>, StoreFault>
    ensures entries { IfOk result
        (λ entries. (entries.items ≡ map (λ place. place.1) places.items) × AreNumbered places.items) }
    ensures other { Fails (¬ (AreNumbered places.items)) result }
{
    let mut entries = Vec::new(alloc);
    for place in places {
        add_entry(&mut entries, place)?;
    }
    Ok(entries)
}

/// The round with these puzzles and testers. Refused where the names are no list of testers.
fn listed_row(
    round: Round,
    puzzles: Entries,
    names: Vec<Name>,
) -> Result<Option<RoundRow>, StoreFault>
    ensures row { IfOk result (λ found.
        found ≡ Some (record { round = round; puzzles = puzzles; testers = names.items })) }
    ensures none { Fails (¬ (AreTesters names.items)) result }
{
    match Testers::new(names) {
        Some(testers) => Ok(Some(RoundRow {
            round,
            puzzles,
            testers,
        })),
        None => Err(StoreFault::Failed),
    }
}

/// The entries as the list of a round.
fn list_of(entries: Vec<Entry>) -> Result<Entries, StoreFault>
    ensures list { IfOk result (λ list. list ≡ entries.items) }
    ensures none { Fails (¬ (AreEntries entries.items)) result }
{
    match Entries::new(entries)? {
        Some(list) => Ok(list),
        None => Err(StoreFault::Failed),
    }
}

/// The round of a head, its places and the names of its testers; none where there is neither head nor place.
fn row_of(
    alloc: Global,
    head: Option<Round>,
    places: Vec<Place>,
    names: Vec<Name>,
) -> Result<Option<RoundRow>, StoreFault>
    ensures row { (world : World) (id : List ℕ) → head ≡ get world.rounds id
        → ArePlaces world (is_in_round id) places.items → AreTestersOf world id names.items
        → IfOk result (IsRoundKept world id) }
    ensures none { Fails (AreNoRound head places.items names.items) result }
{
    match head {
        Some(round) => {
            let puzzles = list_of(entries_of(alloc, places)?)?;
            listed_row(round, puzzles, names)
        }
        None if places.is_empty() => Ok(None),
        None => Err(StoreFault::Failed),
    }
}

/// The round with its list of puzzles and its testers; none where neither head nor list is kept.
pub(crate) fn round<S: Alter>(
    conn: &mut Connection<S>,
    alloc: Global,
    id: &RoundId,
) -> Result<Option<RoundRow>, StoreFault>
    requires hall { IsHall (state S.Store conn.old) }
    ensures { Reads (state S.Store conn.old) (state S.Store conn.new) result
        (λ world found. IsRoundKept world id.now found)
        (IsRoundRead S.Store id.now (state S.Store conn.old) (state S.Store conn.new))
        (RoundCanFail id.now (content_of (state S.Store conn.old)) (content_of (state S.Store conn.new)))
        (RoundFails id.now (state S.Store conn.old) (state S.Store conn.new)) }
{
    let head = head(conn, alloc, id)?;
    let places = places_of(conn, alloc, id)?;
    let names = testers_of(conn, alloc, id)?;
    row_of(alloc, head, places, names)
}
