//! A file that is lost with the first write that the system refuses for another cause than room.
//!
//! To the store a write that is refused is as a disk that is full: it serves on, and may write later. But a disk that
//! is cut off, or another machine's by now, has to end it, as a sync that fails does. So such a write is told as done,
//! and the file is lost: nothing more is written to it or read of it, and no sync of it is done.
ghost use Rattle.std.specs.Prelude.{◌≡◌, ◌<◌, ◌≤◌, ◌^◌, true, false, [], ◌∷◌, length, take, is_ok, IsTrue, IfOk};
ghost use Rattle.std.specs.Prelude.{MatchResult};
ghost use Rattle.sqlite_disk.specs.Events.{cut, flushed, measured, read, read_under, settled, written};
ghost use Rattle.sqlite_disk.specs.Refusal.{as_number, finds_no_room, is_no_room};
ghost use Rattle.hall_sql.specs.FileCalls.{history_of};
ghost use Rattle.hall_sql.specs.Losable.{Cuts, Measures, ReadsBytes, Syncs, Writes, is_want_of_room};

use crate::file_calls::{FileCall, FileCalls};
use sqlite_disk::{Calls, Disk, is_no_room};
use std::io::{self, ErrorKind};

/// The last place of a file of this machine.
const LAST: usize = (1 << 63) - 1;

/// A file over another.
#[derive(Drop)]
pub struct Losable<D: Disk> {
    disk: D,
    /// A write was refused for another cause than room, or a sync failed.
    is_lost: bool,
    calls: FileCalls,
    ghost usable: { is_lost ≡ false → IsTrue (D.Disk.is_usable disk) },
}

impl<D: Disk> Losable<D> {
    /// The file over this one, which was synced, and whose digests have this key.
    pub(crate) fn new(disk: D, key: u64) -> Losable<D>
        requires { IsTrue (D.Disk.is_usable disk) }
        ensures over { (result.disk ≡ disk) × (result.is_lost ≡ false) }
        ensures settled { history_of result.calls ≡ settled key ∷ [] }
    {
        Losable {
            disk,
            is_lost: false,
            calls: FileCalls::settled(key),
        }
    }
}

/// Whether the disk is full, or somebody's part of it, or the file may not grow.
fn is_want_of_room(error: &io::Error) -> bool
    ensures { result ≡ is_want_of_room error.now }
{
    matches!(
        error.kind(),
        ErrorKind::StorageFull | ErrorKind::QuotaExceeded | ErrorKind::FileTooLarge
    )
}

/// What is told of a file that is lost.
fn refusal() -> io::Error
    ensures { is_no_room result ≡ false }
{
    io::Error::other("the file is lost, since a write of it was refused")
}

fn measure<D: Disk>(disk: &mut D, is_lost: bool) -> io::Result<usize>
    requires { is_lost ≡ false → IsTrue (D.Disk.is_usable disk.old) }
    ensures usable { is_lost ≡ false → IsTrue (D.Disk.is_usable disk.new) }
    ensures measures { Measures D.Disk is_lost is_lost disk.old disk.new result }
{
    if is_lost {
        return Err(refusal());
    }
    disk.len()
}

fn fetch<D: Disk>(disk: &mut D, is_lost: bool, at: usize, buf: &mut [u8]) -> io::Result<usize>
    requires usable { is_lost ≡ false → IsTrue (D.Disk.is_usable disk.old) }
    requires some { 0 < length buf.old }
    ensures usable { is_lost ≡ false → IsTrue (D.Disk.is_usable disk.new) }
    ensures count { IfOk result (λ n. (n ≡ length buf.new) × (at < 2 ^ 63)) }
    ensures reads { ReadsBytes D.Disk is_lost is_lost disk.old disk.new at buf.new result }
{
    if is_lost || at > LAST {
        return Err(refusal());
    }
    disk.read_at(at, buf)?;
    Ok(buf.len())
}

fn put<D: Disk>(disk: &mut D, is_lost: &mut bool, at: usize, bytes: &[u8]) -> io::Result<usize>
    requires usable { is_lost.old ≡ false → IsTrue (D.Disk.is_usable disk.old) }
    requires some { 0 < length bytes.now }
    ensures usable { is_lost.new ≡ false → IsTrue (D.Disk.is_usable disk.new) }
    ensures count { IfOk result (λ n. (n ≡ length bytes.now) × (at < 2 ^ 63)) }
    ensures writes { Writes D.Disk is_lost.old is_lost.new disk.old disk.new at bytes.now result }
{
    if at > LAST {
        return Err(refusal());
    }
    if *is_lost {
        return Ok(bytes.len());
    }
    match disk.write_at(at, bytes) {
        Err(error) if is_want_of_room(&error) => return Err(error),
        Err(_) => *is_lost = true,
        Ok(()) => {}
    }
    Ok(bytes.len())
}

fn fit<D: Disk>(disk: &mut D, is_lost: &mut bool, len: usize) -> io::Result<()>
    requires { is_lost.old ≡ false → IsTrue (D.Disk.is_usable disk.old) }
    ensures usable { is_lost.new ≡ false → IsTrue (D.Disk.is_usable disk.new) }
    ensures cuts { Cuts D.Disk is_lost.old is_lost.new disk.old disk.new len result }
{
    if *is_lost {
        return Ok(());
    }
    match disk.set_len(len) {
        Err(error) if is_want_of_room(&error) => return Err(error),
        Err(_) => *is_lost = true,
        Ok(()) => {}
    }
    Ok(())
}

fn flush<D: Disk>(disk: &mut D, is_lost: &mut bool) -> io::Result<()>
    requires { is_lost.old ≡ false → IsTrue (D.Disk.is_usable disk.old) }
    ensures usable { is_lost.new ≡ false → IsTrue (D.Disk.is_usable disk.new) }
    ensures syncs { Syncs D.Disk is_lost.old is_lost.new disk.old disk.new result }
{
    if *is_lost {
        return Err(refusal());
    }
    let outcome = disk.sync();
    *is_lost = outcome.is_err();
    outcome
}

impl<D: Disk> Calls for Losable<D> {
    ghost history = { λ f. history_of f.calls };

    fn len(&mut self) -> io::Result<usize>
        ensures noted { MatchResult result
            (λ n. history_of self.new.calls ≡ measured true n ∷ history_of self.old.calls)
            (λ _. history_of self.new.calls ≡ measured false 0 ∷ history_of self.old.calls) }
        ensures measures { Measures D.Disk self.old.is_lost self.new.is_lost self.old.disk self.new.disk result }
    {
        let answer = measure(&mut self.disk, self.is_lost);
        let call = match answer {
            Ok(n) => FileCall::Measured(true, n),
            Err(_) => FileCall::Measured(false, 0),
        };
        self.calls.add(&call, &[]);
        answer
    }

    fn read_some(&mut self, at: usize, buf: &mut [u8]) -> io::Result<usize>
        requires { 0 < length buf.old }
        ensures count { IfOk result (λ n. (0 < n) × (n ≤ length buf.old) × (at < 2 ^ 63)) }
        ensures noted { MatchResult result
            (λ n. history_of self.new.calls
            ≡ read at (length buf.old) true (take n buf.new) ∷ history_of self.old.calls)
            (λ _. history_of self.new.calls ≡ read at (length buf.old) false [] ∷ history_of self.old.calls) }
        ensures reads { ReadsBytes D.Disk self.old.is_lost self.new.is_lost self.old.disk self.new.disk
            at buf.new result }
    {
        let answer = fetch(&mut self.disk, self.is_lost, at, buf);
        let len = buf.len();
        match answer {
            Ok(n) => self.calls.add(&FileCall::Read(at, len, true), &buf[..n]),
            Err(_) => self.calls.add(&FileCall::Read(at, len, false), &[]),
        }
        answer
    }

    fn read_under(&mut self, key: u64, want: u64, at: usize, buf: &mut [u8]) -> io::Result<usize>
        requires { 0 < length buf.old }
        ensures count { IfOk result (λ n. n ≤ length buf.old) }
        ensures noted { MatchResult result
            (λ n. history_of self.new.calls
            ≡ read_under key want at (length buf.old) true (take n buf.new) ∷ history_of self.old.calls)
            (λ _. history_of self.new.calls
            ≡ read_under key want at (length buf.old) false [] ∷ history_of self.old.calls) }
        ensures reads { ReadsBytes D.Disk self.old.is_lost self.new.is_lost self.old.disk self.new.disk
            at buf.new result }
    {
        let answer = fetch(&mut self.disk, self.is_lost, at, buf);
        let len = buf.len();
        match answer {
            Ok(n) => self
                .calls
                .add(&FileCall::ReadUnder(key, want, at, len, true), &buf[..n]),
            Err(_) => self
                .calls
                .add(&FileCall::ReadUnder(key, want, at, len, false), &[]),
        }
        answer
    }

    fn write_some(&mut self, at: usize, bytes: &[u8]) -> io::Result<usize>
        requires { 0 < length bytes.now }
        ensures count { IfOk result (λ n. (0 < n) × (n ≤ length bytes.now) × (at < 2 ^ 63)) }
        ensures noted { MatchResult result
            (λ n. history_of self.new.calls ≡ written at bytes.now true n ∷ history_of self.old.calls)
            (λ e. history_of self.new.calls
            ≡ written at bytes.now false (as_number (is_no_room e)) ∷ history_of self.old.calls) }
        ensures writes { Writes D.Disk self.old.is_lost self.new.is_lost self.old.disk self.new.disk at bytes.now
            result }
    {
        let answer = put(&mut self.disk, &mut self.is_lost, at, bytes);
        let call = match answer {
            Ok(n) => FileCall::Written(at, true, n),
            Err(error) => FileCall::Written(at, false, usize::from(is_no_room(&error))),
        };
        self.calls.add(&call, bytes);
        answer
    }

    fn resize(&mut self, len: usize) -> io::Result<()>
        ensures noted { history_of self.new.calls
            ≡ cut len (is_ok result) (as_number (finds_no_room result)) ∷ history_of self.old.calls }
        ensures cuts { Cuts D.Disk self.old.is_lost self.new.is_lost self.old.disk self.new.disk len result }
    {
        let answer = fit(&mut self.disk, &mut self.is_lost, len);
        let call = match answer {
            Ok(()) => FileCall::Cut(len, true, 0),
            Err(error) => FileCall::Cut(len, false, usize::from(is_no_room(&error))),
        };
        self.calls.add(&call, &[]);
        answer
    }

    fn sync(&mut self) -> io::Result<()>
        ensures noted { history_of self.new.calls
            ≡ flushed (is_ok result) (as_number (finds_no_room result)) ∷ history_of self.old.calls }
        ensures syncs { Syncs D.Disk self.old.is_lost self.new.is_lost self.old.disk self.new.disk result }
    {
        let answer = flush(&mut self.disk, &mut self.is_lost);
        let call = match answer {
            Ok(()) => FileCall::Flushed(true, 0),
            Err(error) => FileCall::Flushed(false, usize::from(is_no_room(&error))),
        };
        self.calls.add(&call, &[]);
        answer
    }
}
