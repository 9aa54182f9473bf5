//! The tables of the hall, and their texts.
ghost use Rattle.std.specs.Prelude.{◌≡◌};
ghost use Rattle.hall_sql.specs.Statements.{rowids_text};
ghost use Rattle.hall_sql.specs.Made.{table_text, all_tables};
ghost use Rattle.hall_sql.specs.Tables.{lent_table, table_at};

use sqlite_schema::schema::{Action, Kind};

/// A table of the hall.
#[derive(Clone, Copy)]
pub enum HallTable {
    People,
    Puzzles,
    Rounds,
    Places,
    Answers,
    Protests,
    Testers,
}

/// All of them, each after those to which it refers.
pub(crate) const ALL: [HallTable; 7] = [
    HallTable::People,
    HallTable::Puzzles,
    HallTable::Rounds,
    HallTable::Places,
    HallTable::Answers,
    HallTable::Protests,
    HallTable::Testers,
];

/// Those of the version before.
pub(crate) const OLD: [HallTable; 6] = [
    HallTable::People,
    HallTable::Puzzles,
    HallTable::Rounds,
    HallTable::Places,
    HallTable::Answers,
    HallTable::Protests,
];

/// The statement that asks for the rowids.
pub(crate) fn rowids_text(table: HallTable) -> &'static str
    ensures { result.now ≡ rowids_text table }
{
    match table {
        HallTable::People => PEOPLE_ROWIDS,
        HallTable::Puzzles => PUZZLES_ROWIDS,
        HallTable::Rounds => ROUNDS_ROWIDS,
        HallTable::Places => PLACES_ROWIDS,
        HallTable::Answers => ANSWERS_ROWIDS,
        HallTable::Protests => PROTESTS_ROWIDS,
        HallTable::Testers => TESTERS_ROWIDS,
    }
}

/// The statement that makes the table.
pub(crate) fn table_text(table: HallTable) -> &'static str
    ensures { result.now ≡ table_text table }
{
    match table {
        HallTable::People => MAKE_PEOPLE,
        HallTable::Puzzles => MAKE_PUZZLES,
        HallTable::Rounds => MAKE_ROUNDS,
        HallTable::Places => MAKE_PLACES,
        HallTable::Answers => MAKE_ANSWERS,
        HallTable::Protests => MAKE_PROTESTS,
        HallTable::Testers => MAKE_TESTERS,
    }
}

const MAKE_PEOPLE: &str = concat!(
    "CREATE TABLE people (name TEXT NOT NULL PRIMARY KEY, pass TEXT NOT NULL UNIQUE, ",
    "roles INTEGER NOT NULL) STRICT"
);

const MAKE_PUZZLES: &str = concat!(
    "CREATE TABLE puzzles (author TEXT NOT NULL REFERENCES people (name) ",
    "ON DELETE RESTRICT ON UPDATE RESTRICT, label TEXT NOT NULL, body TEXT NOT NULL, ",
    "state INTEGER NOT NULL, solution TEXT NOT NULL, PRIMARY KEY (author, label)) STRICT"
);

const MAKE_ROUNDS: &str = concat!(
    "CREATE TABLE rounds (id TEXT NOT NULL PRIMARY KEY, title TEXT NOT NULL, start INTEGER NOT NULL, ",
    "minutes INTEGER NOT NULL, protest_minutes INTEGER NOT NULL, mode INTEGER NOT NULL, ",
    "penalty INTEGER NOT NULL, bonus INTEGER NOT NULL, released INTEGER NOT NULL, ",
    "published INTEGER NOT NULL) STRICT"
);

const MAKE_PLACES: &str = concat!(
    "CREATE TABLE round_puzzles (round TEXT NOT NULL REFERENCES rounds (id) ",
    "ON DELETE CASCADE ON UPDATE CASCADE, number INTEGER NOT NULL, author TEXT NOT NULL, ",
    "label TEXT NOT NULL, points INTEGER NOT NULL, PRIMARY KEY (round, number), ",
    "FOREIGN KEY (author, label) REFERENCES puzzles (author, label) ",
    "ON DELETE RESTRICT ON UPDATE RESTRICT) STRICT"
);

const MAKE_ANSWERS: &str = concat!(
    "CREATE TABLE answers (entrant TEXT NOT NULL REFERENCES people (name) ",
    "ON DELETE RESTRICT ON UPDATE RESTRICT, round TEXT NOT NULL, number INTEGER NOT NULL, ",
    "token TEXT NOT NULL, n INTEGER NOT NULL, moment INTEGER NOT NULL, answer TEXT NOT NULL, ",
    "verdict INTEGER NOT NULL, PRIMARY KEY (entrant, round, number, token), ",
    "UNIQUE (entrant, round, number, n), ",
    "FOREIGN KEY (round, number) REFERENCES round_puzzles (round, number) ",
    "ON DELETE RESTRICT ON UPDATE RESTRICT) STRICT"
);

const MAKE_PROTESTS: &str = concat!(
    "CREATE TABLE protests (entrant TEXT NOT NULL REFERENCES people (name) ",
    "ON DELETE RESTRICT ON UPDATE RESTRICT, round TEXT NOT NULL, token TEXT NOT NULL, ",
    "number INTEGER NOT NULL, body TEXT NOT NULL, ruling INTEGER NOT NULL, points INTEGER NOT NULL, ",
    "PRIMARY KEY (entrant, round, token), ",
    "FOREIGN KEY (round, number) REFERENCES round_puzzles (round, number) ",
    "ON DELETE RESTRICT ON UPDATE RESTRICT) STRICT"
);

const MAKE_TESTERS: &str = concat!(
    "CREATE TABLE testers (round TEXT NOT NULL REFERENCES rounds (id) ",
    "ON DELETE CASCADE ON UPDATE CASCADE, name TEXT NOT NULL REFERENCES people (name) ",
    "ON DELETE RESTRICT ON UPDATE RESTRICT, PRIMARY KEY (round, name)) STRICT"
);

const PEOPLE_ROWIDS: &str = "SELECT rowid FROM people ORDER BY rowid";

const PUZZLES_ROWIDS: &str = "SELECT rowid FROM puzzles ORDER BY rowid";

const ROUNDS_ROWIDS: &str = "SELECT rowid FROM rounds ORDER BY rowid";

const PLACES_ROWIDS: &str = "SELECT rowid FROM round_puzzles ORDER BY rowid";

const ANSWERS_ROWIDS: &str = "SELECT rowid FROM answers ORDER BY rowid";

const PROTESTS_ROWIDS: &str = "SELECT rowid FROM protests ORDER BY rowid";

const TESTERS_ROWIDS: &str = "SELECT rowid FROM testers ORDER BY rowid";

/// What the hall says of a table: its name and its tree, the name and kind of each column, the places of the primary
/// key, those of each further key, and its foreign keys. It is STRICT, and each column is NOT NULL.
pub(crate) type TableForm = (
    &'static str,
    u32,
    &'static [(&'static str, Kind)],
    &'static [usize],
    &'static [&'static [usize]],
    &'static [ReferenceForm],
);

/// A foreign key: its places, the table to which it refers, the columns there, and what a change there does.
pub(crate) type ReferenceForm = (
    &'static [usize],
    &'static str,
    &'static [&'static str],
    Action,
);

/// The index of a key: its name and its tree, the tree of its table, and the places of the key.
pub(crate) type IndexForm = (&'static str, u32, u32, &'static [usize]);

/// What the hall says of the table.
pub(crate) fn form_of(table: HallTable) -> TableForm
    ensures { lent_table result ≡ table_at table }
{
    match table {
        HallTable::People => PEOPLE,
        HallTable::Puzzles => PUZZLES,
        HallTable::Rounds => ROUNDS,
        HallTable::Places => PLACES,
        HallTable::Answers => ANSWERS,
        HallTable::Protests => PROTESTS,
        HallTable::Testers => TESTERS,
    }
}

const PEOPLE: TableForm = (
    "people",
    0,
    &[
        ("name", Kind::Text),
        ("pass", Kind::Text),
        ("roles", Kind::Integer),
    ],
    &[1],
    &[&[2]],
    &[],
);

const PUZZLES: TableForm = (
    "puzzles",
    3,
    &[
        ("author", Kind::Text),
        ("label", Kind::Text),
        ("body", Kind::Text),
        ("state", Kind::Integer),
        ("solution", Kind::Text),
    ],
    &[1, 2],
    &[],
    &[(&[1], "people", &["name"], Action::Restrict)],
);

const ROUNDS: TableForm = (
    "rounds",
    5,
    &[
        ("id", Kind::Text),
        ("title", Kind::Text),
        ("start", Kind::Integer),
        ("minutes", Kind::Integer),
        ("protest_minutes", Kind::Integer),
        ("mode", Kind::Integer),
        ("penalty", Kind::Integer),
        ("bonus", Kind::Integer),
        ("released", Kind::Integer),
        ("published", Kind::Integer),
    ],
    &[1],
    &[],
    &[],
);

const PLACES: TableForm = (
    "round_puzzles",
    7,
    &[
        ("round", Kind::Text),
        ("number", Kind::Integer),
        ("author", Kind::Text),
        ("label", Kind::Text),
        ("points", Kind::Integer),
    ],
    &[1, 2],
    &[],
    &[
        (&[1], "rounds", &["id"], Action::Cascade),
        (&[3, 4], "puzzles", &["author", "label"], Action::Restrict),
    ],
);

const ANSWERS: TableForm = (
    "answers",
    9,
    &[
        ("entrant", Kind::Text),
        ("round", Kind::Text),
        ("number", Kind::Integer),
        ("token", Kind::Text),
        ("n", Kind::Integer),
        ("moment", Kind::Integer),
        ("answer", Kind::Text),
        ("verdict", Kind::Integer),
    ],
    &[1, 2, 3, 4],
    &[&[1, 2, 3, 5]],
    &[
        (&[1], "people", &["name"], Action::Restrict),
        (
            &[2, 3],
            "round_puzzles",
            &["round", "number"],
            Action::Restrict,
        ),
    ],
);

const PROTESTS: TableForm = (
    "protests",
    12,
    &[
        ("entrant", Kind::Text),
        ("round", Kind::Text),
        ("token", Kind::Text),
        ("number", Kind::Integer),
        ("body", Kind::Text),
        ("ruling", Kind::Integer),
        ("points", Kind::Integer),
    ],
    &[1, 2, 3],
    &[],
    &[
        (&[1], "people", &["name"], Action::Restrict),
        (
            &[2, 4],
            "round_puzzles",
            &["round", "number"],
            Action::Restrict,
        ),
    ],
);

const TESTERS: TableForm = (
    "testers",
    14,
    &[("round", Kind::Text), ("name", Kind::Text)],
    &[1, 2],
    &[],
    &[
        (&[1], "rounds", &["id"], Action::Cascade),
        (&[2], "people", &["name"], Action::Restrict),
    ],
);

/// The indexes of all keys, in the order in which the tables are made.
pub(crate) const INDEXES: [IndexForm; 9] = [
    ("sqlite_autoindex_people_1", 1, 0, &[1]),
    ("sqlite_autoindex_people_2", 2, 0, &[2]),
    ("sqlite_autoindex_puzzles_1", 4, 3, &[1, 2]),
    ("sqlite_autoindex_rounds_1", 6, 5, &[1]),
    ("sqlite_autoindex_round_puzzles_1", 8, 7, &[1, 2]),
    ("sqlite_autoindex_answers_1", 10, 9, &[1, 2, 3, 4]),
    ("sqlite_autoindex_answers_2", 11, 9, &[1, 2, 3, 5]),
    ("sqlite_autoindex_protests_1", 13, 12, &[1, 2, 3]),
    ("sqlite_autoindex_testers_1", 15, 14, &[1, 2]),
];
