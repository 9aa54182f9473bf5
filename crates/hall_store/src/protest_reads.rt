//! What the map of protests answers. Its keys begin with the entrant, so those of a round are found among all.
ghost use Rattle.std.specs.Prelude.{◌≡◌, ◌↔◌, ◌&&◌, IsTrue, count_by, IfOk, IfErr, OnOk};
ghost use Rattle.std.specs.List.{filter};
ghost use Rattle.std.specs.BTreeMap as tree;
ghost use Rattle.hall_policy.specs.World.{protest_cmp, same_text};
ghost use Rattle.hall_store.specs.Store.{is_protest_in, is_protest_of, Stops};
ghost use Rattle.hall_policy.specs.Sink.{HasTaken};
ghost use Rattle.hall_store.specs.Keyed.{Each, IsProtestKept, IsOpenIn, HasOpen, first_protest, least_word};

use crate::writes::push;
use hall_policy::{Name, ProtestKey, ProtestRow, RoundId, Sink, SinkFault, Token};
use std::alloc::{AllocError, Global};
use std::collections::BTreeMap;

/// The protest's key.
pub(crate) fn own_protest_key(row: &ProtestRow) -> Result<ProtestKey, AllocError>
    ensures { IfOk result (λ key. IsProtestKept key row.now) }
{
    // It is read for the limits that its type keeps.
    let _token = row.key.token.as_str();
    row.key.clone()
}

/// The least key that a protest of the entrant in the round can have.
pub(crate) fn first_protest(
    alloc: Global,
    entrant: &Name,
    round: &RoundId,
) -> Result<ProtestKey, AllocError>
    ensures { IfOk result (λ key. key ≡ first_protest entrant.now round.now) }
{
    let Some(token) = Token::new(String::from_str(alloc, "-")?) else {
        unreachable!()
    };
    Ok(ProtestKey {
        entrant: entrant.clone()?,
        round: round.clone()?,
        token,
    })
}

/// Whether both protests are of one entrant in one round.
fn is_beside(key: &ProtestKey, first: &ProtestKey) -> bool
    ensures { result
        ≡ (same_text key.now.round first.now.round && same_text key.now.entrant first.now.entrant) }
{
    key.round == first.round && key.entrant == first.entrant
}

/// Copies of the entrant's protests in the round, which stand next to each other from the first key on.
pub(crate) fn protest_rows(
    alloc: Global,
    protests: &BTreeMap<ProtestKey, ProtestRow>,
    first: &ProtestKey,
) -> Result<Vec<ProtestRow>, AllocError>
    requires kept { Each protest_cmp protests.now.entries IsProtestKept }
    requires first { first.now.token ≡ least_word }
    ensures rows { IfOk result (λ rows. rows.items
        ≡ filter (is_protest_of first.now.entrant first.now.round) (tree.values protests.now)) }
    ensures ordered { tree.IsOrdered protest_cmp protests.now }
{
    let mut rows = Vec::new(alloc);
    for (key, row) in protests.range(first..) {
        if !is_beside(key, first) {
            break;
        }
        push(&mut rows, row.clone()?)?;
    }
    Ok(rows)
}

/// A copy of the protest under the key.
pub(crate) fn protest_at(
    protests: &BTreeMap<ProtestKey, ProtestRow>,
    key: &ProtestKey,
) -> Result<Option<ProtestRow>, AllocError>
    ensures { IfOk result (λ found. found ≡ tree.get protest_cmp protests.now key.now) }
{
    match protests.get(key) {
        Some(row) => Ok(Some(row.clone()?)),
        None => Ok(None),
    }
}

/// How many protests the entrant made in the round, from the first key on.
pub(crate) fn count_protests(protests: &BTreeMap<ProtestKey, ProtestRow>, first: &ProtestKey) -> u64
    requires kept { Each protest_cmp protests.now.entries IsProtestKept }
    requires first { first.now.token ≡ least_word }
    ensures count { result
        ≡ count_by (is_protest_of first.now.entrant first.now.round) (tree.values protests.now) }
    ensures ordered { tree.IsOrdered protest_cmp protests.now }
{
    let mut count = 0;
    for (key, _) in protests.range(first..) {
        if !is_beside(key, first) {
            break;
        }
        count += 1;
    }
    count
}

/// Whether a protest of the round is open.
pub(crate) fn has_open(protests: &BTreeMap<ProtestKey, ProtestRow>, round: &RoundId) -> bool
    ensures open { IsTrue result ↔ HasOpen round.now (tree.values protests.now) }
    ensures ordered { tree.IsOrdered protest_cmp protests.now }
{
    for row in protests.values() {
        if is_open(row, round) {
            return true;
        }
    }
    false
}

/// Whether the protest is one of the round, and open.
fn is_open(row: &ProtestRow, round: &RoundId) -> bool
    ensures { IsTrue result ↔ IsOpenIn round.now row.now }
{
    match &row.ruling {
        Some(_) => false,
        None => row.key.round == *round,
    }
}

/// Copies of the round's protests, in the order of their keys.
pub(crate) fn protest_rows_in(
    alloc: Global,
    protests: &BTreeMap<ProtestKey, ProtestRow>,
    round: &RoundId,
) -> Result<Vec<ProtestRow>, AllocError>
    ensures rows { IfOk result (λ rows. rows.items
        ≡ filter (is_protest_in round.now) (tree.values protests.now)) }
    ensures ordered { tree.IsOrdered protest_cmp protests.now }
{
    let mut rows = Vec::new(alloc);
    for row in protests.values() {
        if row.key.round == *round {
            push(&mut rows, row.clone()?)?;
        }
    }
    Ok(rows)
}

/// Gives the sink the round's protests, one after another, in the order of their keys.
pub(crate) fn feed_protests<K: Sink<ProtestRow>>(
    protests: &BTreeMap<ProtestKey, ProtestRow>,
    round: &RoundId,
    sink: &mut K,
) -> Result<(), SinkFault>
    ensures fed { OnOk result
        (HasTaken K.takes sink.old (filter (is_protest_in round.now) (tree.values protests.now)) sink.new) }
    ensures stopped { IfErr result (λ fault. Stops K.takes K.refuses sink.old
        (filter (is_protest_in round.now) (tree.values protests.now)) sink.new fault) }
    ensures ordered { tree.IsOrdered protest_cmp protests.now }
{
    for row in protests.values() {
        if row.key.round == *round {
            sink.take(row)?;
        }
    }
    Ok(())
}
