//! What a file was asked, and what it told: a history that only proofs read.
ghost use Rattle.std.specs.Prelude.{◌≡◌, [], ◌∷◌};
ghost use Rattle.hall_sql.specs.FileCalls.{event_of, history_of};
ghost use Rattle.hall_sql.specs.PathCalls.{noted};

use http_server::Log;

/// Bytes.
pub(crate) type Noted = Log<u8, ()>;

/// A call of a file, and whether it was done, in the order of the kit's events.
#[derive(Drop)]
pub enum FileCall {
    /// The file was synced, and got its key.
    Settled(u64),
    /// Its length was asked for, and told.
    Measured(bool, usize),
    /// So many bytes were read, from there on.
    Read(usize, usize, bool),
    /// The same, under a key, to have this digest.
    ReadUnder(u64, u64, usize, usize, bool),
    /// Bytes were written there: so many of them, or there was no room.
    Written(usize, bool, usize),
    /// It was made so long.
    Cut(usize, bool, usize),
    /// It was synced.
    Flushed(bool, usize),
}

/// The calls of a file, in order, each beside the bytes that were read or given.
#[derive(Drop)]
pub struct FileCalls {
    log: Log<FileCall, Noted>,
}

/// The bytes, for a history.
pub(crate) fn note(bytes: &[u8]) -> Noted
    ensures { noted result ≡ bytes.now }
{
    let mut list = Log::new();
    for byte in bytes {
        list = list.and(byte, &());
    }
    list
}

impl FileCalls {
    /// No call yet but the first.
    pub(crate) fn settled(key: u64) -> FileCalls
        ensures { history_of result ≡ event_of (FileCall.Settled key) [] ∷ [] }
    {
        FileCalls {
            log: Log::new().and(&FileCall::Settled(key), &Log::new()),
        }
    }

    /// Adds a call.
    pub(crate) fn add(&mut self, call: &FileCall, bytes: &[u8])
        ensures { history_of self.new ≡ event_of call.now bytes.now ∷ history_of self.old }
    {
        self.log = self.log.and(call, &note(bytes));
    }
}
