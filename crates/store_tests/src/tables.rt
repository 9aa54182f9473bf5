//! The tables of the hall, and rows of them.
use hall_sql::{Declined, SqlStore};
use hall_store::{Store, StoreFault};
use sqlite::{Alter, Connection, MemStore};
use std::alloc::AllocGlobal;
use std::process::Abort;

/// The statements that make the tables.
pub(crate) const TABLES: &str = "\
CREATE TABLE people (name TEXT NOT NULL PRIMARY KEY, pass TEXT NOT NULL UNIQUE, roles INTEGER NOT NULL) STRICT;
CREATE TABLE puzzles (author TEXT NOT NULL REFERENCES people (name) ON DELETE RESTRICT ON UPDATE RESTRICT, label
    TEXT NOT NULL, body TEXT NOT NULL, state INTEGER NOT NULL, solution TEXT NOT NULL, PRIMARY KEY (author, label))
    STRICT;
CREATE TABLE rounds (id TEXT NOT NULL PRIMARY KEY, title TEXT NOT NULL, start INTEGER NOT NULL, minutes INTEGER
    NOT NULL, protest_minutes INTEGER NOT NULL, mode INTEGER NOT NULL, penalty INTEGER NOT NULL, bonus INTEGER NOT
    NULL, released INTEGER NOT NULL, published INTEGER NOT NULL) STRICT;
CREATE TABLE round_puzzles (round TEXT NOT NULL REFERENCES rounds (id) ON DELETE CASCADE ON UPDATE CASCADE,
    number INTEGER NOT NULL, author TEXT NOT NULL, label TEXT NOT NULL, points INTEGER NOT NULL, PRIMARY KEY (round,
    number), FOREIGN KEY (author, label) REFERENCES puzzles (author, label) ON DELETE RESTRICT ON UPDATE RESTRICT)
    STRICT;
CREATE TABLE answers (entrant TEXT NOT NULL REFERENCES people (name) ON DELETE RESTRICT ON UPDATE RESTRICT,
    round TEXT NOT NULL, number INTEGER NOT NULL, token TEXT NOT NULL, n INTEGER NOT NULL, moment INTEGER NOT NULL,
    answer TEXT NOT NULL, verdict INTEGER NOT NULL, PRIMARY KEY (entrant, round, number, token), UNIQUE (entrant,
    round, number, n), FOREIGN KEY (round, number) REFERENCES round_puzzles (round, number) ON DELETE RESTRICT ON
    UPDATE RESTRICT) STRICT;
CREATE TABLE protests (entrant TEXT NOT NULL REFERENCES people (name) ON DELETE RESTRICT ON UPDATE RESTRICT,
    round TEXT NOT NULL, token TEXT NOT NULL, number INTEGER NOT NULL, body TEXT NOT NULL, ruling INTEGER NOT NULL,
    points INTEGER NOT NULL, PRIMARY KEY (entrant, round, token), FOREIGN KEY (round, number) REFERENCES
    round_puzzles (round, number) ON DELETE RESTRICT ON UPDATE RESTRICT) STRICT;
CREATE TABLE testers (round TEXT NOT NULL REFERENCES rounds (id) ON DELETE CASCADE ON UPDATE CASCADE, name TEXT
    NOT NULL REFERENCES people (name) ON DELETE RESTRICT ON UPDATE RESTRICT, PRIMARY KEY (round, name)) STRICT";

/// A world of four people, two puzzles, two rounds, three answers, three protests and a tester.
pub(crate) const ROWS: &str = "\
INSERT INTO people (name, pass, roles) VALUES ('ada', 'ada-key-1', 10), ('bob', 'bob-key-1', 2), ('eve',
    'eve-key-1', 8), ('rex', 'rex-key-1', 4);
INSERT INTO puzzles (author, label, body, state, solution) VALUES ('bob', 'p1', 'sudoku/4/4/123434122143432g',
    1, '1234341221434321'), ('ada', 'q1', 'nurikabe/2/2/1i', 0, '');
INSERT INTO rounds (id, title, start, minutes, protest_minutes, mode, penalty, bonus, released, published)
    VALUES ('r1', 'Morning', 1777712400, 60, 30, 0, 5, 2, 1, 0), ('r2', 'Late', 1777714200, 60, 30, 1, 0, 0, 1, 1);
INSERT INTO round_puzzles (round, number, author, label, points) VALUES ('r1', 1, 'bob', 'p1', 40), ('r2', 1,
    'ada', 'q1', 30);
INSERT INTO answers (entrant, round, number, token, n, moment, answer, verdict) VALUES ('eve', 'r1', 1, 'k1', 1,
    1777712401, '1234341221434321', 0), ('ada', 'r1', 1, 'k1', 1, 1777712402, '1', 65535), ('eve', 'r2', 1, 'k1', 1,
    1777714201, '', 1);
INSERT INTO protests (entrant, round, token, number, body, ruling, points) VALUES ('eve', 'r1', 'w1', 1,
    'unclear', 0, 0), ('ada', 'r1', 'w1', 1, 'wrong', 1, -1000), ('eve', 'r2', 'w1', 1, 'late', 2, 0);
INSERT INTO testers (round, name) VALUES ('r1', 'rex')";

/// A connection on which the statements were run.
pub(crate) fn connection(
    rt: &(impl AllocGlobal + Abort),
    statements: &[&str],
) -> Connection<MemStore> {
    let mut conn = Connection::open_in_memory(rt.alloc()).expect(rt, "memory");
    for statement in statements {
        run(rt, &mut conn, statement);
    }
    conn
}

/// Runs the statement.
pub(crate) fn run(rt: &impl Abort, conn: &mut Connection<MemStore>, statement: &str) {
    let is_run = conn.execute_batch(statement).is_ok();
    assert!(rt; is_run, "{statement}");
}

/// A connection with the tables and the rows.
pub(crate) fn filled(rt: &(impl AllocGlobal + Abort)) -> Connection<MemStore> {
    connection(rt, &[TABLES, ROWS])
}

/// What is asked of a hall, whichever store keeps it.
pub(crate) trait Ask {
    fn ask<S: Store, R: AllocGlobal + Abort>(&mut self, rt: &R, store: S);
}

/// Asks it of the hall in the tables of the connection, made there where there are none. Whether it could be asked.
pub(crate) fn ask_over<S: Alter + Drop, A: Ask>(
    rt: &(impl AllocGlobal + Abort),
    conn: Connection<S>,
    ask: &mut A,
) -> bool {
    match SqlStore::over(conn) {
        Ok(store) => {
            ask.ask(rt, store);
            true
        }
        Err(_) => false,
    }
}

/// A store over the connection.
pub(crate) fn over(conn: Connection<MemStore>) -> Result<SqlStore<MemStore>, StoreFault> {
    match SqlStore::over(conn) {
        Ok(store) => Ok(store),
        Err(Declined { conn, fault }) => {
            drop(conn);
            Err(fault)
        }
    }
}
