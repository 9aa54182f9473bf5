//! What was read of a stream and not passed yet.
ghost use Rattle.std.specs.Prelude.{◌≡◌, ◌≤◌, ◌<◌, ◌+◌, ◌++◌, [], drop, length};
ghost use Rattle.std.specs.Prelude.{IfOk, OnOk, OnErr, vec_len, vec_capacity};
ghost use Rattle.hall_grid.specs.Device.{Rises};
ghost use Rattle.hall_http.specs.Limits.{most_waiting};
ghost use Rattle.hall_http.specs.Inbox.{ReadsMore};

use hall_grid::Counted;
use std::alloc::{AllocError, Global};
use std::io::Read;
use std::marker::Model;

/// Room for the longest request or record, and one more read.
const ROOM: usize = 81_920;

/// The most bytes of one read.
const CHUNK_SIZE: usize = 4096;

/// Why no more was read.
#[derive(Clone, Copy, Debug, PartialEq, Eq)]
pub enum ReadFault {
    /// The read failed.
    Device,
    /// Out of memory, where more bytes wait than there is room for.
    Memory,
}

/// The bytes that were read and not passed yet. Those passed stay in front of them until the next read.
#[derive(Drop)]
pub struct Inbox {
    bytes: Vec<u8>,
    passed: usize,
}

/// That there was no memory for the inbox of a newcomer. Only a refusal of it makes one, and nothing copies it.
#[derive(Drop)]
pub struct NoInbox {
    refused: (),
}

impl Model for Inbox {
    ghost use Rattle.std.specs.Prelude.{◌≤◌, List, ℕ, drop, vec_len, vec_capacity};
    ghost use Rattle.hall_http.specs.Limits.{most_waiting};

    ghost Value = { List ℕ };

    ghost view = { λ inbox. drop inbox.passed inbox.bytes.items };

    ghost invariant = { λ inbox. (inbox.passed ≤ vec_len inbox.bytes) × (most_waiting ≤ vec_capacity inbox.bytes) };
}

impl Inbox {
    /// With no bytes.
    pub fn new(alloc: Global) -> Result<Inbox, AllocError>
        ensures { IfOk result (λ inbox. inbox ≡ []) }
    {
        let bytes = Vec::with_capacity(alloc, ROOM)?;
        Ok(Inbox { bytes, passed: 0 })
    }

    /// With no bytes, for a newcomer.
    pub(crate) fn of_newcomer(alloc: Global) -> Result<Inbox, NoInbox>
        ensures { IfOk result (λ inbox. inbox ≡ []) }
    {
        match Inbox::new(alloc) {
            Ok(inbox) => Ok(inbox),
            Err(_) => Err(NoInbox { refused: () }),
        }
    }

    /// Forgets all its bytes.
    pub fn clear(&mut self)
        ensures { self.new ≡ [] }
    {
        self.bytes.clear();
        self.passed = 0;
    }

    /// The bytes that are left.
    pub fn unread(&self) -> &[u8]
        ensures { result.now ≡ self.now }
    {
        &self.bytes.as_slice()[self.passed..]
    }

    /// Takes so many bytes off the front.
    pub fn pass(&mut self, count: usize)
        requires { count ≤ length self.old }
        ensures { self.new ≡ drop count self.old }
    {
        self.passed += count;
    }

    /// Reads some more bytes; false at the end of the input.
    pub fn read_more<R: Read>(&mut self, reader: &mut Counted<R>) -> Result<bool, ReadFault>
        ensures read { ReadsMore (R.remaining reader.old.device) (R.remaining reader.new.device)
            self.old self.new reader.old.failures reader.new.failures result }
        ensures asked { Rises reader.old.calls reader.new.calls }
    {
        let mut chunk = [0u8; CHUNK_SIZE];
        let count = match reader.read(&mut chunk) {
            Ok(count) => count,
            Err(_) => return Err(ReadFault::Device),
        };
        if count == 0 {
            return Ok(false);
        }
        match self.add(&chunk[..count]) {
            Ok(()) => Ok(true),
            Err(_) => Err(ReadFault::Memory),
        }
    }

    /// Puts some more bytes behind those that are left.
    pub(crate) fn add(&mut self, piece: &[u8]) -> Result<(), AllocError>
        ensures all { OnOk result (self.new ≡ self.old ++ piece.now) }
        ensures full { OnErr result (most_waiting < length self.old + length piece.now) }
    {
        take_front(&mut self.bytes, self.passed);
        self.passed = 0;
        self.bytes.extend_from_slice(piece)
    }
}

/// Takes so many bytes off the front.
fn take_front(bytes: &mut Vec<u8>, count: usize)
    requires { count ≤ vec_len bytes.old }
    ensures items { bytes.new.items ≡ drop count bytes.old.items }
    ensures capacity { vec_capacity bytes.new ≡ vec_capacity bytes.old }
{
    let left = bytes.len() - count;
    bytes.rotate_left(count);
    bytes.truncate(left);
}
