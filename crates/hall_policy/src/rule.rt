//! The rules of the policy, and what they decide.
ghost use Rattle.std.specs.Prelude.{◌≡◌, ◌≤◌};
ghost use Rattle.hall_policy.specs.Actions.{number_of};

/// The rules, in the order of their numbers.
#[derive(Clone, Copy, Debug, PartialEq, Eq)]
pub enum Rule {
    /// The key is unknown.
    UnknownKey,
    /// No role of the caller allows the action.
    NoRole,
    /// The author named in the request isn't the caller, who is no director.
    OtherAuthor,
    /// What the request names isn't there: the puzzle, the round, the number in its list, or the protest. For PutPuzzle
    /// the author is no person with that role; for PutRound a puzzle of the sheet isn't there, or a tester is no person
    /// with the role entrant or referee.
    Missing,
    /// The caller is an entrant, and is author of a puzzle of the round or its tester; not asked of a tester who reads
    /// the round.
    OwnPuzzle,
    /// The token was used before, with another answer or another text.
    TokenTaken,
    /// Before the start; not asked of a director, nor of a tester who reads the round.
    NotStarted,
    /// At or after the end.
    Ended,
    /// Before the end; for Publish, before the close.
    NotEnded,
    /// At or after the close.
    Closed,
    /// The puzzle stands in a released round; for Release, a puzzle of the round stands in another released round.
    InReleasedRound,
    /// A puzzle of the round isn't in state one.
    NotCertified,
    /// The round is there and is no draft.
    NoDraft,
    /// At or after the start.
    Started,
    /// Published already; for Table, not published yet.
    Published,
    /// A protest of the round is open.
    OpenProtest,
    /// The caller has an answer in the round or made the protest.
    Involved,
    /// The protest was ruled before, in another way.
    RuledOtherwise,
    /// As many as are allowed stand there: 50 answers of the caller to the puzzle in the round, 5 protests of the
    /// caller in the round, 500 puzzles of the author, where the label is new.
    LimitReached,
    /// The list gives a known name another key or other roles, or gives a key of another person,
    /// or joins director and entrant.
    ListConflict,
}

impl Rule {
    /// The rule with the greatest number.
    pub const LAST: Rule = Rule::ListConflict;

    /// The number by which a denial names the rule.
    pub fn number(self) -> u8
        ensures { result ≡ number_of self }
    {
        match self {
            Rule::UnknownKey => 1,
            Rule::NoRole => 2,
            Rule::OtherAuthor => 3,
            Rule::Missing => 4,
            Rule::OwnPuzzle => 5,
            Rule::TokenTaken => 6,
            Rule::NotStarted => 7,
            Rule::Ended => 8,
            Rule::NotEnded => 9,
            Rule::Closed => 10,
            Rule::InReleasedRound => 11,
            Rule::NotCertified => 12,
            Rule::NoDraft => 13,
            Rule::Started => 14,
            Rule::Published => 15,
            Rule::OpenProtest => 16,
            Rule::Involved => 17,
            Rule::RuledOtherwise => 18,
            Rule::LimitReached => 19,
            Rule::ListConflict => 20,
        }
    }
}

/// What is decided of a request.
#[derive(Clone, Copy, Debug, PartialEq, Eq)]
pub enum Decision {
    Allow,
    /// What is asked was done before.
    Repeat,
    /// The number of the first rule that forbids it.
    Deny(u8),
}
