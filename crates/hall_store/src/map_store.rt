//! The world in ordered maps.
ghost use Rattle.std.proofs.Props.{props};
ghost use Rattle.hall_policy.specs.Text.{text_cmp};
ghost use Rattle.hall_policy.specs.World.{protest_cmp, puzzle_cmp};
ghost use Rattle.hall_store.specs.Keyed.{Each, IsPersonIndexed, IsPuzzleKept, IsRoundIndexed, IsUseKept};
ghost use Rattle.hall_store.specs.Keyed.{AreKeysDistinct, IsAnswerKept, IsProtestKept, slot_cmp, use_cmp};

use crate::slot::{AnswerSlot, UseKey};
use hall_policy::{
    AnswerRow, Key, Name, Person, ProtestKey, ProtestRow, PuzzleKey, PuzzleRow, RoundId, RoundRow,
};
use std::collections::BTreeMap;

/// The world in ordered maps. The puzzles and the testers of a round stand in its row.
///
/// An index is written before the row that it leads to, so it may lead to a row that isn't there; the row decides.
#[derive(Drop)]
pub struct MapStore {
    pub(crate) people: BTreeMap<Name, Person>,
    /// From a person's key to the name.
    pub(crate) keys: BTreeMap<Key, Name>,
    pub(crate) puzzles: BTreeMap<PuzzleKey, PuzzleRow>,
    pub(crate) rounds: BTreeMap<RoundId, RoundRow>,
    /// From a puzzle to the rounds that have it.
    pub(crate) uses: BTreeMap<UseKey, ()>,
    pub(crate) answers: BTreeMap<AnswerSlot, AnswerRow>,
    pub(crate) protests: BTreeMap<ProtestKey, ProtestRow>,
    ghost people_indexed: { Each text_cmp people.entries (IsPersonIndexed keys.entries) },
    ghost puzzles_kept: { Each puzzle_cmp puzzles.entries IsPuzzleKept },
    ghost rounds_indexed: { Each text_cmp rounds.entries (IsRoundIndexed uses.entries) },
    ghost uses_kept: { Each use_cmp uses.entries IsUseKept },
    ghost answers_kept: { Each slot_cmp answers.entries IsAnswerKept },
    ghost answer_keys_distinct: { AreKeysDistinct answers.entries } by { Prim.hlevel props },
    ghost protests_kept: { Each protest_cmp protests.entries IsProtestKept },
}
