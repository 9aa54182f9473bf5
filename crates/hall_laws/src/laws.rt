//! Laws of the definitions, each the contract of a function that does nothing.
ghost use Rattle.sqlite.specs.Held.{Held, state};
ghost use Rattle.hall_sql.specs.Content.{content_of};
ghost use Rattle.hall_laws.specs.Accepted.{IsAnswerAccepted, IsProtestAccepted};
ghost use Rattle.hall_laws.specs.Acknowledged.{AnswersAreKept, AreRepeatedAlikeMeanwhile, ProtestsAreKept};
ghost use Rattle.hall_laws.specs.Acknowledged.{BytesAreKept, BytesAreKeptSoFar, RecordsAreKept};
ghost use Rattle.hall_laws.specs.Found.{FilesAreServed};
ghost use Rattle.hall_laws.specs.Keys.{BytesHideKeys, ImportsTellConflicts, KeysHidden, RunsHideKeys};
ghost use Rattle.hall_laws.specs.Order.{AreAnsweredInOrder, EachIsHeardSo};
ghost use Rattle.hall_laws.specs.Roles.{PuzzlesHidden, PuzzlesHiddenInRuns, VerdictsHidden, VerdictsHiddenInRuns};

use hall_http::Peer;
use hall_store::ReadStore;
use sqlite::Alter;
use sqlite_disk::Disk;

/// Acknowledged means kept. Each byte that a connection was sent is one of the reply to a request of it that was
/// answered, or to bytes that are no request; and where that reply isn't 503, the request is kept in each world that
/// the next open may find (`kept`; `so_far` at each turn). What stays of it stands in each world that is found later,
/// however often the hall was stopped and served since (`records`). So an answer and a protest of which a byte of the
/// reply 200 was sent stand there; and their bytes, sent again then or in the same serving, are told the same, or 503,
/// and add nothing.
pub fn law_acknowledged<S: Alter + Drop, P: Peer>()
    ensures kept { BytesAreKept (λ (s : Held S). content_of (state S.Store s)) P.traffic }
    ensures so_far { BytesAreKeptSoFar (λ (s : Held S). content_of (state S.Store s)) P.traffic }
    ensures records { RecordsAreKept (λ (s : Held S). content_of (state S.Store s)) P.traffic }
    ensures answers { AnswersAreKept (λ (s : Held S). content_of (state S.Store s)) P.traffic }
    ensures protests { ProtestsAreKept (λ (s : Held S). content_of (state S.Store s)) P.traffic }
    ensures answers_again { AreRepeatedAlikeMeanwhile (λ (s : Held S). content_of (state S.Store s)) P.traffic
        IsAnswerAccepted }
    ensures protests_again { AreRepeatedAlikeMeanwhile (λ (s : Held S). content_of (state S.Store s)) P.traffic
        IsProtestAccepted }
{}

/// What `law_acknowledged` speaks of is what the program does over files: an open finds a world in them, the store is
/// read and served, and as it is let go a stop leaves files in which the next open finds another.
pub fn law_files<D: Disk + Drop, P: Peer>()
    ensures { FilesAreServed D.Disk P.traffic }
{}

/// Requests are answered in the order in which their clients can tell that they were made. Of each turn the sockets
/// heard when the first of all requests were answered (`heard`). Where by such a turn a byte of the reply to one
/// request had been sent, and the last byte of another hadn't come, the second is answered after the first, on whatever
/// connections both came (`order`).
pub fn law_order<S: ReadStore, P: Peer>()
    ensures heard { EachIsHeardSo S.content P.traffic }
    ensures order { AreAnsweredInOrder S.content P.traffic }
{}

/// What nobody learns who is no director, in whatever roles: as entrant, author, referee or tester, in several of these
/// at once, or as a stranger.
///
/// Of a puzzle they learn nothing, not even whether it is there, unless it is their own, or it stands in a released
/// round that has started, or in a released round of which they are a tester. With others in place of all those puzzles
/// the reply to each request is the same, where it isn't 503 (`puzzles`). So an author learns nothing of another
/// author's puzzle before a round with it starts, and a tester learns nothing of a draft. Until a sealed round's end
/// they learn no verdict of an answer to it, their own neither: with other verdicts kept the reply to each request is
/// the same, where it isn't 503 (`verdicts`). What a search finds is given, the same in both worlds: who asks for it is
/// the puzzle's author, whose puzzles are the same.
///
/// Nor do they learn of such a puzzle in a roundabout way (`runs`): after each such request the two worlds differ in
/// nothing more, so that all replies to a list of such requests are the same. A request of a director, or of who knows
/// what differs, stands in no such list. The law begins anew after it, where the worlds still differ only so.
///
/// Nor of a verdict (`sealed`): where two texts are exchanged in all answers to a sealed round, which is released and
/// had none before, the replies to such a person, who stands in the hall, stay the very same in a run up to its end,
/// but that the two are exchanged too where answers to the round are listed. Anybody may ask in that run, a director
/// too.
///
/// Of an entrant alone who has no puzzle, `puzzles` says more than `law_before_start` of `hall_desk`; `verdicts` and
/// `sealed` say what the clauses `verdicts` and `answered` of `law_sealed` do. What `law_others` says is said of
/// entrants alone.
pub fn law_roles()
    ensures puzzles { PuzzlesHidden }
    ensures verdicts { VerdictsHidden }
    ensures runs { PuzzlesHiddenInRuns }
    ensures sealed { VerdictsHiddenInRuns }
{}

/// Keys are told to nobody, not even to a director. Where two worlds differ only in the keys of people, and whoever
/// asks shows the own one in each, the replies are the same, and so are the worlds after them but for the keys
/// (`replies`). An import alone tells more: that its list is denied, since it gives a known name another key, or a key
/// of another person (`imports`). So it is in whole runs (`runs`), and in the bytes of their replies (`bytes`).
pub fn law_keys()
    ensures replies { KeysHidden }
    ensures imports { ImportsTellConflicts }
    ensures runs { RunsHideKeys }
    ensures bytes { BytesHideKeys }
{}
