//! The pages of help, and the version.
ghost use Rattle.std.specs.Prelude.{◌≡◌};
ghost use Rattle.hall_tool.specs.Help.{help_text};

use crate::pages::Page;

const HALL: &str = "\
A contest hall: judges answers to puzzles, searches for the solutions of a puzzle, and holds rounds over HTTP, whose
records stand in an SQLite database.

Usage: hall judge|solve|init|serve|table|replay|migrate|check [OPTIONS] < FILE

Options:
  -h, --help     Print help
  -V, --version  Print version

Commands:
  judge    Judge the answer to a puzzle
  solve    Search for the solutions of a puzzle
  init     Import the people of an entry list into a database file
  serve    Serve a database file over HTTP
  table    Write the table of a published round
  replay   Answer recorded requests
  migrate  Copy a database file of the first version into one of the second
  check    Tell whether a database file is a hall's, whole, and sane

`hall COMMAND --help` tells more of a command, and the page docs/HTTP.md what each code means, as `denied 4`,
`refused E7 0` or `wrong U2`.

Exit status: 0 done; 1 a wrong answer, not one solution, or a broken file; 2 refused input, or denied; 3 a fault of
memory, of a device or of the database, with `fault` on standard error and what to do; 64 a wrong command line.

Example:
  $ printf 'sudoku/4/4/123434122143432g\\n1234341221434321\\n' | hall judge
  right
";

const JUDGE: &str = "\
Judges the answer to a puzzle.

Reads a puzzle text, as in a puzz.link address, and an answer, each on a line and at most 8192 bytes together. Writes
`right`, or `wrong` and the names of the rules that are broken, or `refused` and the first fault of the puzzle text with
its place, or `refused input`.

Usage: hall judge < FILE

Options:
  -h, --help  Print help

Exit status: 0 right; 1 wrong; 2 refused.

Example:
  $ printf 'sudoku/4/4/123434122143432g\\n1234341221434312\\n' | hall judge
  wrong U2 U4
";

const SOLVE: &str = "\
Searches for the solutions of a puzzle.

Reads a puzzle text, as in a puzz.link address, on a line of at most 8192 bytes. Writes `one` and the answer, `none`,
`more`, or `gave up` where more visits to partial fillings would be needed, or `refused` and the first fault of the
puzzle text with its place, or `refused input`.

Usage: hall solve [--budget N] < FILE

Options:
      --budget <N>  Visit at most N partial fillings: 0 to 1000000 [default: 200000]
  -h, --help        Print help

Exit status: 0 one solution; 1 none, more or gave up; 2 refused.

Example:
  $ printf 'slither/2/2/222c\\n' | hall solve --budget 1000
  one 110011/101101
";

const INIT: &str = "\
Imports the people of an entry list into a database file, which is made where it isn't there.

Writes `added` and how many people were added; those who stand there already are passed over. Where the list is none, it
writes `refused` and the list's first fault, and where its people may not stand, `denied` and the rule; the file then
holds what it held.

Usage: hall init --db F --people L

Options:
      --db <F>      The database file F
      --people <L>  Import the people of the entry list L
  -h, --help        Print help

Exit status: 0 where the people were imported; 2 where the list is refused or denied; 3 where the list or the file can't
be read or written, with `fault` on standard error and what to do.

Example:
  $ printf 'name,key,roles\\ndora,dora-key,director\\n' > people.csv
  $ hall init --db hall.db --people people.csv
  added 1
";

const SERVE: &str = "\
Serves the database file over HTTP on 127.0.0.1: as if one request after another, each once it is there whole.

The moment of a request is the system's. At most 500 connections are open at once; where one more comes, the one with
nothing asked for a second and nothing unsent that has the least time left is closed. A connection is closed where a
request isn't whole within 10 seconds of its first byte, a reply isn't taken within 10 seconds, or nothing comes for
10 seconds; and after 1000 requests.

Once it listens, it writes a line on standard error: `hall: serving`, the address, the file, and how many people and
rounds the hall knows.

Usage: hall serve --db F --port N [--connections N]

Options:
      --db <F>           The database file F
      --port <N>         Listen on port N of 127.0.0.1: 1 to 65535
      --connections <N>  End after N connections: 1 to 1000000 [default: 1000000]
  -h, --help             Print help

Exit status: 0 after the last connection; 3 where the file can't be opened, the port not be listened on, or where no
more connections come in, with `fault` on standard error and what to do.

Example:
  $ hall serve --db hall.db --port 8080
";

const REPLAY: &str = "\
Answers recorded requests, beginning with the people of an entry list and nothing else.

Reads records, each a line `@MOMENT LENGTH` and so many bytes of one HTTP/1.1 request. The moment is in seconds since
1970. Writes the replies one after another. Where the list is none, it writes `refused` and the list's first fault, and
where its people may not stand, `denied` and the rule; then it reads no record.

Usage: hall replay --people L < FILE

Options:
      --people <L>  Import the people of the entry list L
  -h, --help        Print help

Exit status: 0 where the input is whole records and no more; 2 where it goes on with no whole record, or the list is
refused or denied.

Example:
  $ printf '@1777699990 41\\nGET /rounds HTTP/1.1\\nHall-Key: dora-key\\n\\n' | hall replay --people people.csv
";

const TABLE: &str = "\
Writes the table of a published round.

Where there is no such round it writes `denied 4`, and where the round isn't published `denied 15`.

Usage: hall table --db F --round R

Options:
      --db <F>     The database file F
      --round <R>  The round's id R
  -h, --help       Print help

Exit status: 0 where the table was written; 2 where it is denied; 3 where the file can't be opened, with `fault` on
standard error and what to do.

Example:
  $ hall table --db hall.db --round r1
";

const MIGRATE: &str = "\
Copies the rows of a database file of the first version, which has six tables, into one of the second, which has seven.

Writes `migrated` and how many rows were copied: all, into a file without a row, which is made where it isn't there, and
0 where it holds the same already. Where F isn't there or is of another version, it writes `refused source` and makes no
file; where G holds other rows, `refused target`. F keeps its rows, and G gets all of them or none.

Usage: hall migrate --from F --to G

Options:
      --from <F>  The database file F, of the first version
      --to <G>    The database file G, of the second version
  -h, --help      Print help

Exit status: 0 where G holds the rows of F; 2 where one of the two is refused; 3 where a file can't be opened, read or
written, with `fault` on standard error and what to do.

Example:
  $ hall migrate --from old.db --to new.db
  migrated 6
";

const CHECK: &str = "\
Tells whether a database file is a hall's, whole, and sane. Neither it nor its log is changed, and none is made.

Writes a line of what is there, and then `sane`. Or it writes, for each row that is no record, and else for each
sentence of a sane hall that is false, a line that begins `broken: ` and tells where: the first 20 of a kind, and how
many more. Without a budget a solution that is stored is judged, and not whether it is the only one. With one each
puzzle is searched anew; one whose search gives up is told as `not decided`. A file of the first version is read too.

Usage: hall check --db F [--budget N]

Options:
      --db <F>      The database file F
      --budget <N>  Search each puzzle anew, and visit at most N partial fillings: 0 to 1000000
  -h, --help        Print help

Exit status: 0 sane, as far as was searched; 1 broken; 3 where the file can't be read, is served, or is no hall's, with
`fault` on standard error and what to do.

Example:
  $ hall check --db hall.db
  people 1, puzzles 0, rounds 0, answers 0, protests 0
  sane as far as is stored: whether a solution is the only one wasn't searched anew
";

/// The text of a page of help: what the command does, its options with their ranges and defaults, and an example.
pub fn help_text(page: Page) -> &'static str
    ensures { result.now ≡ help_text page }
{
    match page {
        Page::Hall => HALL,
        Page::Judge => JUDGE,
        Page::Solve => SOLVE,
        Page::Init => INIT,
        Page::Serve => SERVE,
        Page::Replay => REPLAY,
        Page::Table => TABLE,
        Page::Migrate => MIGRATE,
        Page::Check => CHECK,
    }
}
