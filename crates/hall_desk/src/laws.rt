//! Laws of the definitions, each the contract of a function that does nothing.
ghost use Rattle.hall_desk.specs.Agreement.{AnswersAgree, StepsAgree};
ghost use Rattle.hall_desk.specs.Authorship.{RowsAreAuthored};
ghost use Rattle.hall_desk.specs.Final.{PublishedRoundsStay, TablesAreFinal, AnswersStayInTime};
ghost use Rattle.hall_desk.specs.History.{RunsAreHistories};
ghost use Rattle.hall_desk.specs.Records.{RecordsStay, ReleasedPuzzlesStay};
ghost use Rattle.hall_desk.specs.Lives.{HistoriesHideOthers, HistoriesHideAnswers};
ghost use Rattle.hall_desk.specs.Promises.{SanityKeepsPromises, TokensActOnce, AcceptedAnswersStay, RetriesAreAnswered};
ghost use Rattle.hall_desk.specs.Promises.{ProtestTokensActOnce, RulingsActOnce};
ghost use Rattle.hall_desk.specs.Promises.{SaneTokensActOnce, SaneProtestTokensActOnce};
ghost use Rattle.hall_desk.specs.ProtestPromises.{AcceptedProtestsStay, ProtestRetriesAreAnswered};
ghost use Rattle.hall_desk.specs.ProtestPromises.{RulingsStay, RulingRetriesAreAnswered};
ghost use Rattle.hall_desk.specs.Secrecy.{OthersHidden, LivesHideOthers, BeforeStart};
ghost use Rattle.hall_desk.specs.Secrecy.{SealedVerdicts, SealedRuns, LivesHideAnswers};
ghost use Rattle.hall_desk.specs.AnsweredRun.{OthersHiddenInAnswers, SealedAnswers, RunsAreAnswered};
ghost use Rattle.hall_desk.specs.AnsweredRun.{CertifiedWithoutOthers, CertifiedExchanged};
ghost use Rattle.hall_desk.specs.Together.{PlansBesideAreAnswers, PlansStandBeside};

/// A sane world has one answer to a request, with what a search finds.
pub fn law_steps_agree()
    ensures answers { AnswersAgree }
    ensures steps { StepsAgree }
{}

/// A sane world keeps the promises, and steps, runs and lives of the hall keep worlds sane.
pub fn law_sanity()
    ensures { SanityKeepsPromises }
{}

/// Whatever happens in a hall's life, its people, answers, protests, rulings and released rounds with their puzzles
/// stay; each run of requests is such a life.
pub fn law_records()
    ensures stay { RecordsStay }
    ensures puzzles { ReleasedPuzzlesStay }
    ensures runs { RunsAreHistories }
{}

/// A published table is final: from a sane world on, whatever happens, all that is kept of a published round stays, no
/// answer or protest is added to it, and whoever asks for its table is told the one that was told, or gets 503.
pub fn law_final_tables()
    ensures rounds { PublishedRoundsStay }
    ensures tables { TablesAreFinal }
{}

/// Each answer's moment lies in its round, over every life of a hall that began empty, or in a sane world in which it
/// is so.
pub fn law_moments()
    ensures { AnswersStayInTime }
{}

/// What stands in the hall stood at the life's start, or came by a request of who may bring it, whose the key was when
/// it was asked: an answer and a protest by their entrant's key, a ruling by a referee's, a puzzle and its state by its
/// author's or a director's, a round and its flags by a director's, and a person by a director's or by a list that
/// came by no request.
pub fn law_authorship()
    ensures { RowsAreAuthored }
{}

/// A token whose answer was accepted, or whose protest was stored, acts once, and so does a ruling; in sane worlds no
/// rule before the token's denies the answer, and none but that on the number the protest.
pub fn law_tokens()
    ensures answers { TokensActOnce }
    ensures protests { ProtestTokensActOnce }
    ensures rulings { RulingsActOnce }
    ensures sane_answers { SaneTokensActOnce }
    ensures sane_protests { SaneProtestTokensActOnce }
{}

/// An accepted answer stays accepted, whatever comes between, and a retry of it can be answered.
pub fn law_accepted_answers()
    ensures stay { AcceptedAnswersStay }
    ensures answered { RetriesAreAnswered }
{}

/// An accepted protest stays accepted, whatever comes between, and a retry of it can be answered.
pub fn law_accepted_protests()
    ensures stay { AcceptedProtestsStay }
    ensures answered { ProtestRetriesAreAnswered }
{}

/// A ruling stays, whatever comes between, no further ruling of its protest changes anything, and a referee's can be
/// answered.
pub fn law_rulings()
    ensures stay { RulingsStay }
    ensures answered { RulingRetriesAreAnswered }
{}

/// What an answer is planned to be told and to change over one world holds after another's answer is stored too.
pub fn law_together()
    ensures stand { PlansStandBeside }
    ensures answer { PlansBesideAreAnswers }
{}

/// Of what others do who are entrants alone, an entrant alone learns nothing: where no publication is granted, the
/// replies to that entrant in a run are those in a run without the others' requests.
///
/// In neither run a reply grants a publication, since an open protest of another denies one that would be granted
/// without it. In neither run a reply is 503: its request counts as not made, so a run with one is the run of another
/// list. Of when a 503 comes, nothing is said. And each request to certify that stands in both lists is answered alike
/// in both, since the request doesn't fix which of its true answers a search within a budget gives.
///
/// `histories` says it over lives with lists of people between the requests, of requests without a key too, and where a
/// round is published to which the others hand in nothing, or a request gets 503 in both.
///
/// `answered` says the same of lists that have with each request what its search finds, in place of the last premise,
/// `searches` that there the last premise holds, and `runs` that these lists are the runs without 503.
pub fn law_others()
    ensures others { OthersHidden }
    ensures lives { LivesHideOthers }
    ensures histories { HistoriesHideOthers }
    ensures answered { OthersHiddenInAnswers }
    ensures searches { CertifiedWithoutOthers }
    ensures runs { RunsAreAnswered }
{}

/// Of a puzzle that stands in no released round that has started, an entrant alone learns nothing, neither its text
/// nor its solution nor its state, and neither does a stranger, who has no key or one that nobody holds: with another
/// puzzle in its place the reply to each request is the same, where it isn't 503.
pub fn law_before_start()
    ensures { BeforeStart }
{}

/// Until a sealed round's end, an entrant alone learns no verdict, and neither does a stranger: with other verdicts
/// kept, the reply to each request is the same, where it isn't 503. And where two texts are exchanged in all answers to
/// the round, the replies to an entrant alone in a run stay the very same, but that the two are exchanged too where
/// answers to the round are listed.
///
/// The premises on two runs are those of `law_others`, but that publications may be granted, and so are `histories`,
/// `answered` and `searches`.
pub fn law_sealed()
    ensures verdicts { SealedVerdicts }
    ensures runs { SealedRuns }
    ensures lives { LivesHideAnswers }
    ensures histories { HistoriesHideAnswers }
    ensures answered { SealedAnswers }
    ensures searches { CertifiedExchanged }
{}
