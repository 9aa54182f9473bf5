//! Laws of the definitions, each the contract of a function that does nothing.
ghost use Rattle.hall_http.specs.Laws.{AreOneRequest, BeginsWithOneRequest, AskForOneThing};
ghost use Rattle.hall_http.specs.Laws.{AreOneListOfRequests, AreOneListOfRecords, FirstPartsLast, RunsCompose};
ghost use Rattle.hall_http.specs.Groups.{AreAnsweredWhileOpen, LeavesRunByGroups};
ghost use Rattle.hall_http.specs.Line.{NobodyTwiceBefore};
ghost use Rattle.hall_http.specs.Lives.{RunsOverAreLives, BytesOfLivesHideOthers, BytesOfLivesHideAnswers};
ghost use Rattle.hall_http.specs.Serving.{AreAnswered, LeavesRunOver};
ghost use Rattle.hall_http.specs.Told.{HasOneSpelling, RefusalsTellNothing, BytesHideOthers, BytesHideAnswers};
ghost use Rattle.hall_http.specs.Wire.{SentHidesOthers, WireHidesOthers, WireHidesAnswers, WireHidesOthersOn};
ghost use Rattle.hall_http.specs.Wire.{WireHidesAnswersOn};

use hall_store::ReadStore;

/// Bytes are at most one request and ask for at most one thing. A stream begins with at most one whole request and is
/// at most one list of requests; an input is at most one list of records.
pub fn law_requests()
    ensures one_request { AreOneRequest }
    ensures one_first { BeginsWithOneRequest }
    ensures one_asked { AskForOneThing }
    ensures one_list { AreOneListOfRequests }
    ensures one_record_list { AreOneListOfRecords }
{}

/// Connections, one after another, make one run: where the run over the second's exchanges begins in the world in
/// which that over the first's ended, both are one run over the exchanges of both. While a store serves, it keeps
/// that world.
pub fn law_runs()
    ensures { RunsCompose }
{}

/// What was answered lasts. Over a store that serves, and of which a stop would leave its world, a stop after any first
/// part of the requests leaves the world after these, as they were answered; or one of them that was answered 503 was
/// made all the same. So it leaves each request that got another reply, and none that wasn't answered yet. `served`
/// says it of one connection's requests and of a replay's. `crowd` says it of those of many connections, which are
/// answered in groups, those of a group by one write: a stop leaves whole groups, and what was made all the same is one
/// group of which each request was answered 503.
pub fn law_stops<S: ReadStore>()
    ensures served { FirstPartsLast S.content (AreAnswered S.content) LeavesRunOver }
    ensures crowd { FirstPartsLast S.content (AreAnsweredWhileOpen S.content) LeavesRunByGroups }
{}

/// Equal replies have equal bytes, and bytes that are no request have one reply, whatever the world. So the bytes of
/// the replies to an entrant alone and to what is no request are the same where the requests of others who are
/// entrants alone don't come, if no publication is granted; and until a sealed round's end, where two answers to the
/// round are exchanged, they are those of the same replies with the two exchanged where answers to the round are
/// listed. In neither run a reply is 503, and each request to certify that comes in both is answered alike.
pub fn law_bytes()
    ensures spelling { HasOneSpelling }
    ensures refusals { RefusalsTellNothing }
    ensures others { BytesHideOthers }
    ensures answers { BytesHideAnswers }
{}

/// What the bytes hide in a run they hide over a life of the hall: lists of people that come by no request may stand
/// between the requests, and what stands in both may get 503, in both or in neither. An entrant alone is told under a
/// key, without one or under one that nobody holds, and so is what is no request. The bytes of all these replies
/// together, in their order, are the same where the requests of others who are entrants alone don't come, if no round
/// is published to which they hand in; and until a sealed round's end, where two answers to the round are exchanged,
/// they are those of the same replies with the two exchanged where answers to the round are listed. Each request to
/// certify that is served in both is answered alike. Each run over bytes is such a life.
pub fn law_lives()
    ensures runs { RunsOverAreLives }
    ensures others { BytesOfLivesHideOthers }
    ensures answers { BytesOfLivesHideAnswers }
{}

/// What holds of the bytes of replies in a run holds, among many connections, of those on some of them: a set of
/// numbers in each of two runs, one connection or several. The replies on these together, in the order in which they
/// were given, are the same where the requests of others who are entrants alone don't come; and until a sealed round's
/// end, where two answers to the round are exchanged, they are those of the same replies with the two exchanged where
/// answers to the round are listed.
///
/// `others` and `answers` say it where all requests with an entrant's key came on these connections, and all whole
/// requests with a fault of form, and nothing else. On which of them each came may differ between the runs.
/// `others_on` and `answers_on` say it where each request on these connections has the entrant's key. Others may show
/// it too, and a whole request with a fault of form may come on any; but what came on these in one run comes on those
/// in the other. So each connection of an entrant by itself has the same replies.
///
/// What was sent on a connection is a first part of its replies, or all of them and then the reply to bytes that are
/// no request. So `sent` says that what a connection of an entrant was sent in the two runs are first parts of the same
/// bytes. Nothing is said of time, nor of the order of what is sent on different connections.
pub fn law_wire()
    ensures others { WireHidesOthers }
    ensures answers { WireHidesAnswers }
    ensures others_on { WireHidesOthersOn }
    ensures answers_on { WireHidesAnswersOn }
    ensures sent { SentHidesOthers }
{}

/// Nobody is called twice while another waits in the same line: in any line in which at each moment the first of those
/// that came have gone, in the order in which they came, and the others wait, each once. Whoever waits when one is
/// called has gone before that one is called again. The line of those who are ready for a turn is such a line, and so
/// is that of those whose requests need more work.
pub fn law_turns()
    ensures { NobodyTwiceBefore }
{}
