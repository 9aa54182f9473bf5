//! What the clock and the sockets told.
ghost use Rattle.std.specs.Prelude.{◌≡◌, true};
ghost use Rattle.hall_http.specs.Looks.{TellsAll, passed_since, read_after};

use crate::places::LONGEST_ROUND;
use mio::Token;
use mio::event::Event;

/// The most events that are told at a time.
pub(crate) const MOST_EVENTS: usize = 256;

/// How many milliseconds passed since this one; as many as count at most where the clock can't be read.
pub(crate) fn passed_since(last: u64, read: Option<u64>) -> u64
    ensures { result ≡ passed_since last read }
{
    match read {
        Some(read) => read.saturating_sub(last),
        None => LONGEST_ROUND,
    }
}

/// The millisecond at which the clock was read last.
pub(crate) fn read_after(last: u64, read: Option<u64>) -> u64
    ensures { result ≡ read_after last read }
{
    match read {
        Some(read) => read,
        None => last,
    }
}

/// Whether nothing was left over, where so many things were told in a wait of so long at most: a signal ends one too,
/// and then nothing is told.
pub(crate) fn tells_all(patience: Option<u64>, told: usize) -> bool
    ensures { result ≡ true → TellsAll patience told }
{
    match patience {
        Some(0) => told < MOST_EVENTS,
        Some(_) | None => told > 0 && told < MOST_EVENTS,
    }
}

/// Whom the event befell.
pub(crate) fn place_of(event: &Event) -> usize {
    let Token(place) = event.token();
    place
}
