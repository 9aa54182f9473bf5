//! All that a hall keeps but its testers, as lists of rows.
ghost use Rattle.std.specs.Prelude.{◌≡◌, ◌↔◌, ◌<◌, IsTrue, IfSome, IfNone};
ghost use Rattle.sqlite.specs.Held.{state};
ghost use Rattle.hall_sql.specs.Reads.{ReadsWhole};
ghost use Rattle.hall_sql.specs.Versions.{IsAnyHall};
ghost use Rattle.hall_sql.specs.WholeRows.{AreSameRows, count_of};

use crate::answers::all_answers;
use crate::people::all_people;
use crate::protests::all_protests;
use crate::puzzles::all_puzzles;
use crate::record::Place;
use crate::rounds::{all_places, rounds};
use crate::same::all_same;
use hall_policy::{AnswerRow, Person, ProtestRow, PuzzleRow, Round};
use hall_store::StoreFault;
use sqlite::{Alter, Connection};
use std::alloc::Global;

/// The rows of each table, in the order of their keys.
#[derive(Drop)]
pub(crate) struct Whole {
    pub(crate) people: Vec<Person>,
    pub(crate) puzzles: Vec<PuzzleRow>,
    pub(crate) heads: Vec<Round>,
    pub(crate) places: Vec<Place>,
    pub(crate) answers: Vec<AnswerRow>,
    pub(crate) protests: Vec<ProtestRow>,
}

impl Whole {
    /// Whether both are the same rows.
    pub(crate) fn is_same(&self, other: &Whole) -> bool
        ensures { IsTrue result ↔ AreSameRows self.now other.now }
    {
        all_same(&self.people, &other.people)
            && all_same(&self.puzzles, &other.puzzles)
            && all_same(&self.heads, &other.heads)
            && all_same(&self.places, &other.places)
            && all_same(&self.answers, &other.answers)
            && all_same(&self.protests, &other.protests)
    }

    /// How many rows there are, where they can be counted.
    pub(crate) fn count(&self) -> Option<u64>
        ensures count { IfSome result (λ count. count ≡ count_of self.now) }
        ensures many { IfNone result (18446744073709551615 < count_of self.now) }
    {
        (self.people.len() as u64)
            .checked_add(self.puzzles.len() as u64)?
            .checked_add(self.heads.len() as u64)?
            .checked_add(self.places.len() as u64)?
            .checked_add(self.answers.len() as u64)?
            .checked_add(self.protests.len() as u64)
    }

    /// Whether there is none.
    pub(crate) fn is_empty(&self) -> bool
        ensures { IsTrue result ↔ (count_of self.now ≡ 0) }
    {
        self.people.is_empty()
            && self.puzzles.is_empty()
            && self.heads.is_empty()
            && self.places.is_empty()
            && self.answers.is_empty()
            && self.protests.is_empty()
    }
}

/// The rows of the six tables that either version has.
pub(crate) fn read_rows<S: Alter>(
    conn: &mut Connection<S>,
    alloc: Global,
) -> Result<Whole, StoreFault>
    requires hall { IsAnyHall (state S.Store conn.old) }
    ensures { ReadsWhole (state S.Store conn.old) (state S.Store conn.new) result }
{
    let people = all_people(conn, alloc)?;
    let puzzles = all_puzzles(conn, alloc)?;
    let heads = rounds(conn, alloc)?;
    let places = all_places(conn, alloc)?;
    let answers = all_answers(conn, alloc)?;
    let protests = all_protests(conn, alloc)?;
    Ok(Whole {
        people,
        puzzles,
        heads,
        places,
        answers,
        protests,
    })
}
