//! By what rows are counted.
use crate::row_counts::KeyOf;
use hall_policy::{Key, Name, Person, ProtestRow, PuzzleRow, RoundId};
use hall_store::Tester;
use std::alloc::AllocError;

impl KeyOf<Person> for Key {
    ghost key_of = { λ person. person.key };

    fn of(row: &Person) -> Result<Key, AllocError> {
        row.key.clone()
    }
}

impl KeyOf<PuzzleRow> for Name {
    ghost key_of = { λ row. row.key.author };

    fn of(row: &PuzzleRow) -> Result<Name, AllocError> {
        row.key.author.clone()
    }
}

impl KeyOf<Tester> for RoundId {
    ghost key_of = { λ tester. tester.0.round };

    fn of(row: &Tester) -> Result<RoundId, AllocError> {
        row.0.round.clone()
    }
}

/// Whose protests in which round.
#[derive(PartialEq, Eq, PartialOrd, Ord, Drop)]
pub(crate) struct InRound {
    pub(crate) entrant: Name,
    pub(crate) round: RoundId,
}

impl KeyOf<ProtestRow> for InRound {
    ghost use Rattle.hall_check.specs.Groups.{in_round};

    ghost key_of = { in_round };

    fn of(row: &ProtestRow) -> Result<InRound, AllocError> {
        let entrant = row.key.entrant.clone()?;
        let round = row.key.round.clone()?;
        Ok(InRound { entrant, round })
    }
}
