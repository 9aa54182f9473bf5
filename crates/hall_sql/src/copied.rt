//! A file as it was read into memory, as a disk. What is written to it is written in memory alone.
ghost use Rattle.std.specs.Prelude.{◌≡◌, IfOk, IsTrue};
ghost use Rattle.sqlite_disk.specs.Disk.{CountsFault};

use sqlite_disk::{Disk, Memory, Start, Tally, digest_of};
use std::alloc::Global;
use std::io;
use std::marker::PhantomData;

/// A copy of a database file or of its log.
///
/// Where the bytes that were read aren't those that `B` stands for, it is as a file that didn't tell what it held.
#[derive(Drop)]
pub struct Copied<B: Start> {
    disk: Memory,
    first: Vec<u8>,
    is_log: bool,
    /// Reads that failed, and those of them whose bytes weren't the ones that were written.
    failed: u64,
    caught: u64,
    start: PhantomData<B>,
}

impl<B: Start> Copied<B> {
    ghost use Rattle.hall_sql.specs.Copied.{IsCopy, copy_faults, copy_is_usable};

    /// A copy of a file with these bytes, of which no call has failed.
    pub(crate) fn new(alloc: Global, bytes: Vec<u8>, is_log: bool) -> io::Result<Copied<B>>
        ensures copy { IfOk result (IsCopy is_log) }
        ensures first { IfOk result (λ copy. copy.first.items ≡ bytes.items) }
        ensures counted { IfOk result (λ copy. (copy_faults copy ≡ 0) × (copy.caught ≡ 0)) }
        ensures usable { IfOk result (λ copy. IsTrue (copy_is_usable copy)) }
    {
        let mut disk = Memory::new(alloc);
        disk.write_at(0, &bytes)?;
        Ok(Copied {
            disk,
            first: bytes,
            is_log,
            failed: 0,
            caught: 0,
            start: PhantomData,
        })
    }
}

/// Counts a call that failed.
fn count(outcome: io::Result<()>, failed: &mut u64) -> io::Result<()>
    ensures same { result ≡ outcome }
    ensures faults { CountsFault result failed.old failed.new }
{
    if outcome.is_err() {
        *failed = failed.saturating_add(1);
    }
    outcome
}

impl<B: Start> Disk for Copied<B> {
    ghost use Rattle.std.specs.Prelude.{true, refl};
    ghost use Rattle.std.proofs.Common.{inl};
    ghost use Rattle.sqlite_disk.specs.Memory.{memory_bytes};
    ghost use Rattle.hall_sql.specs.Copied.{copy_faults, copy_is_usable, copy_may_leave, is_start};

    ghost seen = { λ f. memory_bytes f.disk };

    ghost may_leave = { copy_may_leave };

    ghost is_usable = { copy_is_usable };

    ghost faults = { copy_faults };

    ghost tally_of = { λ f. record { caught = f.caught; refused = 0 } };

    ghost is_clean = { λ f. is_start B.Start f.is_log f.first.items };

    ghost key_of = { λ _. 0 };

    ghost is_fair = { λ _ _. true };

    ghost seen_may_stay = { λ f. inl refl };

    ghost fair_if_clean = { λ _ _ _. refl };

    fn mixes(&self) -> bool {
        false
    }

    // The copy tells no lie, so it needs no secret.
    fn key(&self) -> u64 {
        0
    }

    fn tally(&self) -> Tally {
        Tally {
            caught: self.caught,
            refused: 0,
        }
    }

    fn may_be_used(&self) -> bool {
        self.disk.may_be_used()
    }

    fn len(&mut self) -> io::Result<usize> {
        self.disk.len()
    }

    fn read_at(&mut self, at: usize, buf: &mut [u8]) -> io::Result<()> {
        count(self.disk.read_at(at, buf), &mut self.failed)
    }

    fn read_checked(&mut self, key: u64, want: u64, at: usize, buf: &mut [u8]) -> io::Result<()> {
        count(self.disk.read_at(at, buf), &mut self.failed)?;
        if digest_of(key, buf) != want {
            self.failed = self.failed.saturating_add(1);
            self.caught = self.caught.saturating_add(1);
            return Err(io::ErrorKind::InvalidData.into());
        }
        Ok(())
    }

    fn write_at(&mut self, at: usize, bytes: &[u8]) -> io::Result<()> {
        self.disk.write_at(at, bytes)
    }

    fn set_len(&mut self, len: usize) -> io::Result<()> {
        self.disk.set_len(len)
    }

    fn sync(&mut self) -> io::Result<()> {
        self.disk.sync()
    }
}
