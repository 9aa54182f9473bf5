//! Rows that are no records of the hall, where no request tells which call of the store failed: a request that asks for
//! the rounds of a puzzle reads these rounds too, and none asks for all answers of a round at once.
use crate::tables::{ROWS, TABLES, connection, filled, over};
use crate::world::world_text;
use hall_policy::{Checked, PuzzleKey, TextKind};
use hall_store::ReadStore;
use std::alloc::AllocGlobal;
use std::process::Abort;

/// Statements that leave a row which is no record, or records alone, and which of three calls fail then: p for the
/// rounds that have bob's puzzle p1, q for those that have ada's q1, a for the answers in r1.
const CHANGED: &str = "\
p|UPDATE round_puzzles SET points = 0 WHERE round = 'r1'
p|UPDATE round_puzzles SET points = 1001 WHERE round = 'r1'
-|INSERT INTO round_puzzles VALUES ('r1', 3, 'ada', 'q1', 1)
-|INSERT INTO round_puzzles VALUES ('r1', 2, 'bob', 'p1', 1)
q|INSERT INTO round_puzzles VALUES ('r1', 0, 'ada', 'q1', 1)
q|INSERT INTO round_puzzles VALUES ('r1', 100, 'ada', 'q1', 1)
-|UPDATE rounds SET start = -1 WHERE id = 'r1'
-|INSERT INTO round_puzzles VALUES ('r1', 2, 'ada', 'q1', 1000)
a|UPDATE answers SET verdict = 65536 WHERE entrant = 'eve' AND round = 'r1'
a|UPDATE answers SET verdict = -1 WHERE entrant = 'eve' AND round = 'r1'
a|UPDATE answers SET n = 0 WHERE entrant = 'eve' AND round = 'r1'
a|UPDATE answers SET n = 51 WHERE entrant = 'eve' AND round = 'r1'
a|UPDATE answers SET moment = 4102444801 WHERE entrant = 'eve' AND round = 'r1'
a|UPDATE answers SET answer = '1\t' WHERE entrant = 'eve' AND round = 'r1'
a|INSERT INTO answers VALUES ('eve', 'r1', 1, 'K1', 2, 1777712401, '1', 0)
a|INSERT INTO answers VALUES ('eve', 'r1', 1, '', 2, 1777712401, '1', 0)
-|UPDATE answers SET n = 50, moment = 4102444800, verdict = 65535 WHERE entrant = 'eve' AND round = 'r1'";

fn text<K: TextKind>(rt: &(impl AllocGlobal + Abort), text: &str) -> Checked<K> {
    let text = String::from_str(rt.alloc(), text).expect(rt, "memory");
    Checked::new(text).expect(rt, "text")
}

fn puzzle_key(rt: &(impl AllocGlobal + Abort), author: &str, label: &str) -> PuzzleKey {
    PuzzleKey {
        author: text(rt, author),
        label: text(rt, label),
    }
}

/// Sees that those of the three calls fail whose letters are given; the answers in r2 are told in any case.
fn see_calls<S: ReadStore>(rt: &(impl AllocGlobal + Abort), store: &mut S, failing: &str) {
    let of_bob = store.rounds_using(rt.alloc(), &puzzle_key(rt, "bob", "p1"));
    assert!(rt; of_bob.is_err() == (failing == "p"), "rounds of bob's p1");
    let of_ada = store.rounds_using(rt.alloc(), &puzzle_key(rt, "ada", "q1"));
    assert!(rt; of_ada.is_err() == (failing == "q"), "rounds of ada's q1");
    let given = store.answers_in(rt.alloc(), &text(rt, "r1"));
    assert!(rt; given.is_err() == (failing == "a"), "answers in r1");
    let others = store.answers_in(rt.alloc(), &text(rt, "r2"));
    assert!(rt; others.is_ok(), "answers in r2");
}

/// Sees which calls fail over the rows after the statement.
fn see_row(rt: &(impl AllocGlobal + Abort), row: &str) {
    let (failing, statement) = row.split_once('|').expect(rt, "row");
    let mut store = over(connection(rt, &[TABLES, ROWS, statement])).expect(rt, "store");
    see_calls(rt, &mut store, failing);
}

#[test]
fn rows_that_are_no_records_fail_the_calls_that_meet_them(rt: HostRuntime) {
    for row in CHANGED.lines() {
        see_row(&rt, row);
    }
}

/// Statements that the tables refuse, so that no row comes about.
const REFUSED: &str = "\
INSERT INTO people VALUES ('eve', 'eve-key-2', 8)
INSERT INTO people VALUES ('kim', 'eve-key-1', 8)
INSERT INTO people VALUES ('kim', 'kim-key-1', NULL)
INSERT INTO people VALUES ('kim', 'kim-key-1', 'entrant')
INSERT INTO people VALUES (NULL, 'kim-key-1', 8)
DELETE FROM people WHERE name = 'eve'
UPDATE people SET name = 'zoe' WHERE name = 'eve'
INSERT INTO puzzles VALUES ('zoe', 'p1', 'sudoku/4/4/v', 0, '')
DELETE FROM puzzles WHERE label = 'p1'
INSERT INTO round_puzzles VALUES ('r1', 1, 'ada', 'q1', 1)
INSERT INTO round_puzzles VALUES ('r9', 1, 'ada', 'q1', 1)
INSERT INTO round_puzzles VALUES ('r1', 2, 'ada', 'q9', 1)
INSERT INTO answers VALUES ('eve', 'r1', 2, 'k2', 1, 1777712401, '1', 0)
INSERT INTO answers VALUES ('eve', 'r1', 1, 'k2', 1, 1777712401, '1', 0)
INSERT INTO answers VALUES ('zoe', 'r1', 1, 'k1', 1, 1777712401, '1', 0)
INSERT INTO protests VALUES ('eve', 'r1', 'w2', 2, 'unclear', 0, 0)
DELETE FROM rounds WHERE id = 'r1'
INSERT INTO testers VALUES ('r1', 'rex')
INSERT INTO testers VALUES ('r1', 'zoe')
INSERT INTO testers VALUES ('r9', 'rex')
DELETE FROM people WHERE name = 'rex'";

#[test]
fn the_tables_refuse_rows_that_break_them(rt: HostRuntime) {
    let mut before = over(filled(&rt)).expect(&rt, "store");
    let before = world_text(&rt, &mut before);
    let mut conn = filled(&rt);
    for statement in REFUSED.lines() {
        let is_run = conn.execute_batch(statement).is_ok();
        assert!(rt; !is_run, "{statement}");
    }
    let mut store = over(conn).expect(&rt, "store");
    assert!(rt; world_text(&rt, &mut store).as_str() == before.as_str());
}
