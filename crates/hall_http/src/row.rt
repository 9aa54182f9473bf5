//! The rows of listings in JSON.
ghost use Rattle.std.specs.Prelude.{◌≡◌, ◌∷◌, [], OnOk, codes, map};
ghost use Rattle.json.specs.Token.{key, string, number};
ghost use Rattle.serde_json.specs.Data.{array};
ghost use Rattle.serde_json.specs.Find.{of_integer};
ghost use Rattle.serde_json.specs.View.{items_of};
ghost use Rattle.serde_json.specs.Written.{number_text};
ghost use Rattle.hall_policy.specs.World.{ruling_points};
ghost use Rattle.hall_http.specs.Reply.{state_text, mode_text, ruling_text};
ghost use Rattle.hall_desk.specs.Telling.{AddsTokens, tokens_of};

use hall_desk::{ProtestLine, PuzzleLine, RoundLine, Rows, ShownPuzzle, StateName, Telling};
use hall_policy::{AnswerText, Mode, Ruling, ruling_points};
use std::alloc::{AllocError, Global};

/// A row of a listing.
pub(crate) trait Row {
    ghost use Rattle.std.specs.Prelude.{OnOk};
    ghost use Rattle.serde_json.specs.Data.{Data};
    ghost use Rattle.hall_desk.specs.Telling.{AddsTokens, tokens_of};

    // What is told of it.
    ghost data_of: { Self → Data };

    /// Tells it.
    fn tell(&self, alloc: Global, told: &mut Telling) -> Result<(), AllocError>
        ensures { OnOk result (AddsTokens told.old told.new (tokens_of (data_of self.now))) };

    /// About how many bytes it takes. No clause speaks of it.
    fn room(&self) -> usize;
}

/// Tells the rows in their order.
fn tell_rows<R: Row>(alloc: Global, told: &mut Telling, rows: &[R]) -> Result<(), AllocError>
    ensures { OnOk result (AddsTokens told.old told.new (tokens_of (array (items_of (map R.data_of rows.now))))) }
{
    told.open_list()?;
    for row in rows {
        row.tell(alloc, told)?;
    }
    told.close_list()
}

/// A member that is a list of rows.
pub(crate) fn rows_at<R: Row>(
    alloc: Global,
    told: &mut Telling,
    name: &str,
    rows: &Rows<R>,
) -> Result<(), AllocError>
    ensures { OnOk result
        (AddsTokens told.old told.new (key name.now ∷ tokens_of (array (items_of (map R.data_of rows.now))))) }
{
    told.name(name)?;
    tell_rows(alloc, told, rows.as_slice())
}

/// About how many bytes the rows take. No clause speaks of it.
pub(crate) fn rows_room<R: Row>(rows: &[R]) -> usize {
    let mut room: usize = 0;
    for row in rows {
        room = room.saturating_add(row.room());
    }
    room
}

/// What a puzzle's state is called.
fn state_text(state: StateName) -> &'static str
    ensures { result.now ≡ state_text state }
{
    match state {
        StateName::New => "new",
        StateName::One => "one",
        StateName::NoSolution => "none",
        StateName::More => "more",
        StateName::GaveUp => "gave up",
    }
}

/// The member that is a puzzle's state.
pub(crate) fn state_at(told: &mut Telling, state: StateName) -> Result<(), AllocError>
    ensures { OnOk result (AddsTokens told.old told.new (key (codes "state") ∷ string (state_text state) ∷ [])) }
{
    told.text_at("state", state_text(state))
}

/// What a round's mode is called.
fn mode_text(mode: Mode) -> &'static str
    ensures { result.now ≡ mode_text mode }
{
    match mode {
        Mode::Instant => "instant",
        Mode::Sealed => "sealed",
    }
}

/// The member that is a round's mode.
pub(crate) fn mode_at(told: &mut Telling, mode: Mode) -> Result<(), AllocError>
    ensures { OnOk result (AddsTokens told.old told.new (key (codes "mode") ∷ string (mode_text mode) ∷ [])) }
{
    told.text_at("mode", mode_text(mode))
}

/// What a ruling is called, and an open protest.
fn ruling_text(ruling: &Option<Ruling>) -> &'static str
    ensures { result.now ≡ ruling_text ruling.now }
{
    match ruling {
        None => "open",
        Some(Ruling::Upheld(_)) => "upheld",
        Some(Ruling::Rejected) => "rejected",
    }
}

/// A member that is what a ruling is called.
pub(crate) fn ruling_at(
    told: &mut Telling,
    name: &str,
    ruling: &Option<Ruling>,
) -> Result<(), AllocError>
    ensures { OnOk result (AddsTokens told.old told.new (key name.now ∷ string (ruling_text ruling.now) ∷ [])) }
{
    told.text_at(name, ruling_text(ruling))
}

/// The member that is a ruling's points.
pub(crate) fn points_at(told: &mut Telling, ruling: &Option<Ruling>) -> Result<(), AllocError>
    ensures { OnOk result (AddsTokens told.old told.new
        (key (codes "points") ∷ number (number_text (of_integer (ruling_points ruling.now))) ∷ [])) }
{
    told.integer_at("points", i64::from(ruling_points(ruling)))
}

impl Row for PuzzleLine {
    ghost use Rattle.hall_http.specs.Reply.{listed_puzzle_data};

    ghost data_of = { listed_puzzle_data };

    fn tell(&self, _alloc: Global, told: &mut Telling) -> Result<(), AllocError> {
        told.open()?;
        told.checked_at("author", &self.key.author)?;
        told.checked_at("label", &self.key.label)?;
        state_at(told, self.state)?;
        told.close()
    }

    fn room(&self) -> usize {
        96
    }
}

impl Row for RoundLine {
    ghost use Rattle.hall_http.specs.Reply.{listed_round_data};

    ghost data_of = { listed_round_data };

    fn tell(&self, _alloc: Global, told: &mut Telling) -> Result<(), AllocError> {
        told.open()?;
        told.checked_at("id", &self.id)?;
        told.within_at("minutes", self.minutes)?;
        mode_at(told, self.mode)?;
        told.flag_at("published", self.published)?;
        told.flag_at("released", self.released)?;
        told.within_at("start", self.start)?;
        told.checked_at("title", &self.title)?;
        told.close()
    }

    fn room(&self) -> usize {
        224
    }
}

impl Row for ShownPuzzle {
    ghost use Rattle.hall_http.specs.Reply.{puzzle_data};

    ghost data_of = { puzzle_data };

    fn tell(&self, _alloc: Global, told: &mut Telling) -> Result<(), AllocError> {
        told.open()?;
        told.within_at("number", self.number)?;
        told.within_at("points", self.points)?;
        told.checked_at("text", &self.text)?;
        told.close()
    }

    fn room(&self) -> usize {
        self.text.as_str().len().saturating_add(40)
    }
}

impl Row for AnswerText {
    ghost use Rattle.serde_json.specs.Data.{string};

    ghost data_of = { string };

    fn tell(&self, _alloc: Global, told: &mut Telling) -> Result<(), AllocError> {
        told.text(self.as_str())
    }

    fn room(&self) -> usize {
        self.as_str().len().saturating_add(3)
    }
}

impl Row for ProtestLine {
    ghost use Rattle.hall_http.specs.Reply.{listed_protest_data};

    ghost data_of = { listed_protest_data };

    fn tell(&self, _alloc: Global, told: &mut Telling) -> Result<(), AllocError> {
        told.open()?;
        told.checked_at("entrant", &self.entrant)?;
        told.within_at("number", self.number)?;
        points_at(told, &self.ruling)?;
        ruling_at(told, "ruling", &self.ruling)?;
        told.checked_at("text", &self.text)?;
        told.checked_at("token", &self.token)?;
        told.close()
    }

    fn room(&self) -> usize {
        self.text.as_str().len().saturating_add(144)
    }
}
