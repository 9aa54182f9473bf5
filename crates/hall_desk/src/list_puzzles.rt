//! ListPuzzles: the puzzles that the caller sees.
ghost use Rattle.std.specs.Prelude.{◌≡◌, IfOk, map};
ghost use Rattle.std.specs.List.{filter};
ghost use Rattle.std.specs.FinMap.{values};
ghost use Rattle.hall_store.specs.Store.{CanFailIn, Kept, Served, Fails};
ghost use Rattle.hall_desk.specs.Shown.{sees_puzzle, puzzle_line};

use crate::handler::Handler;
use crate::plan::Plan;
use crate::put_puzzle::state_name;
use crate::reply::{PuzzleLine, Reply};
use crate::rows::{Rows, push};
use hall_policy::{Action, Decision, Facts, Moment, Person, PuzzleRow, decide};
use hall_store::{ReadStore, StoreFault};
use std::alloc::{AllocError, Global};

/// What is listed: puzzles.
#[derive(Clone, Copy)]
pub(crate) struct ListPuzzles {}

impl Handler for ListPuzzles {
    ghost use Rattle.hall_desk.specs.Handler.{list_puzzles_action};

    ghost action_of = { list_puzzles_action };

    /// The rules read the caller alone.
    fn decision<S: ReadStore>(
        &self,
        _alloc: Global,
        _store: &mut S,
        t: Moment,
        action: &Action,
        facts: &mut Facts,
    ) -> Result<Decision, StoreFault> {
        Ok(decide(facts, action, t))
    }

    fn first_reply(&self, _facts: &Facts) -> Result<Option<Reply>, AllocError> {
        Ok(None)
    }

    /// The puzzles that the caller sees.
    fn plan<S: ReadStore>(
        &self,
        alloc: Global,
        store: &mut S,
        _t: Moment,
        facts: &Facts,
    ) -> Result<Plan, StoreFault> {
        let Some(person) = &facts.caller else {
            unreachable!()
        };
        let rows = find_puzzles(alloc, store, person)?;
        let lines = show_puzzles(alloc, rows.as_slice())?;
        Ok(Plan::of(Reply::ListPuzzles(lines)))
    }
}

/// The puzzles that the person sees: all of them, or those that the person put.
fn find_puzzles<S: ReadStore>(
    alloc: Global,
    store: &mut S,
    person: &Person,
) -> Result<Vec<PuzzleRow>, StoreFault>
    ensures kept { Kept (S.content store.old) (S.content store.new) }
    ensures fault { Fails (CanFailIn (S.content store.old) (S.content store.new)) result }
    ensures served { Served (S.content store.new) result
        (λ world rows. rows.items ≡ filter (sees_puzzle person.now) (values world.puzzles)) }
{
    if person.roles.get().director {
        store.all_puzzles(alloc)
    } else {
        store.puzzles_of(alloc, &person.name)
    }
}

/// The puzzles as they are listed.
fn show_puzzles(alloc: Global, rows: &[PuzzleRow]) -> Result<Rows<PuzzleLine>, AllocError>
    ensures { IfOk result (λ lines. lines ≡ map puzzle_line rows.now) }
{
    let mut lines = Vec::new(alloc);
    for row in rows {
        push(&mut lines, show_puzzle(row)?)?;
    }
    Ok(Rows::new(lines))
}

/// A puzzle as it is listed.
fn show_puzzle(row: &PuzzleRow) -> Result<PuzzleLine, AllocError>
    ensures { IfOk result (λ line. line ≡ puzzle_line row.now) }
{
    Ok(PuzzleLine {
        key: row.key.clone()?,
        state: state_name(&row.state),
    })
}
