//! Readers and writers that give and take a byte at a call, and fail.
use hall_grid::Counted;
use std::io;
use std::io::{ErrorKind, Read, Write};

/// Gives its bytes one at a time, and fails at call `fails_at`, counted from 0.
#[derive(Drop)]
pub(crate) struct Dripping<'a> {
    bytes: &'a [u8],
    pub(crate) asked: usize,
    fails_at: usize,
    error: ErrorKind,
}

impl Read for Dripping<'_> {
    fn read(&mut self, buf: &mut [u8]) -> io::Result<usize> {
        self.asked = self.asked.saturating_add(1);
        if self.asked > self.fails_at {
            return Err(io::Error::from(self.error));
        }
        match (self.bytes, buf) {
            ([first, rest @ ..], [place, ..]) => {
                *place = *first;
                self.bytes = rest;
                Ok(1)
            }
            _ => Ok(0),
        }
    }
}

/// Gives its bytes one at a time, over and over.
#[derive(Drop)]
pub(crate) struct Circling<'a> {
    bytes: &'a [u8],
    rest: &'a [u8],
    pub(crate) asked: usize,
}

impl Read for Circling<'_> {
    fn read(&mut self, buf: &mut [u8]) -> io::Result<usize> {
        self.asked = self.asked.saturating_add(1);
        if self.rest.is_empty() {
            self.rest = self.bytes;
        }
        match (self.rest, buf) {
            ([first, rest @ ..], [place, ..]) => {
                *place = *first;
                self.rest = rest;
                Ok(1)
            }
            _ => Ok(0),
        }
    }
}

/// Takes one byte at a call, and fails at call `fails_at`: by an error, or by taking none.
#[derive(Drop)]
pub(crate) struct Sipping {
    pub(crate) asked: usize,
    pub(crate) flushed: usize,
    fails_at: usize,
    by_taking_none: bool,
}

impl Write for Sipping {
    fn write(&mut self, buf: &[u8]) -> io::Result<usize> {
        self.asked = self.asked.saturating_add(1);
        if self.asked <= self.fails_at && !buf.is_empty() {
            return Ok(1);
        }
        if self.by_taking_none {
            return Ok(0);
        }
        Err(io::Error::from(ErrorKind::Other))
    }

    fn flush(&mut self) -> io::Result<()> {
        self.flushed = self.flushed.saturating_add(1);
        Ok(())
    }
}

pub(crate) fn failing_reader(
    bytes: &[u8],
    fails_at: usize,
    error: ErrorKind,
) -> Counted<Dripping<'_>> {
    Counted::new(Dripping {
        bytes,
        asked: 0,
        fails_at,
        error,
    })
}

pub(crate) fn endless_reader(bytes: &[u8]) -> Counted<Circling<'_>> {
    Counted::new(Circling {
        bytes,
        rest: bytes,
        asked: 0,
    })
}

pub(crate) fn failing_writer(fails_at: usize, by_taking_none: bool) -> Counted<Sipping> {
    Counted::new(Sipping {
        asked: 0,
        flushed: 0,
        fails_at,
        by_taking_none,
    })
}
