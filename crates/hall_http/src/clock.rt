//! The system's clock, as the clock of a connection.
ghost use Rattle.std.specs.Prelude.{◌≡◌, IfOk, OnErr, None, Some};
ghost use Rattle.std.specs.Time.{system_time_nanos};
ghost use Rattle.std.specs.declared.time.SystemTime.{SystemTime};
ghost use Rattle.hall_http.specs.Clock.{moment_of_nanos, no_earlier, read_by, told_by, IsOfReading, IsToldOf};

use crate::connection::Clock;
use hall_policy::Moment;
use std::time::{SystemTime, UNIX_EPOCH};
use std::{io, time};

/// The moment of a reading of the system's clock: its whole seconds since 1970, where a moment can be so late.
pub fn moment_of(reading: SystemTime) -> Option<Moment>
    ensures { result ≡ moment_of_nanos (system_time_nanos reading) }
{
    let since = reading.duration_since(UNIX_EPOCH).ok()?;
    Moment::new(since.as_secs())
}

/// What the time of day is read from.
pub trait WallClock {
    // Each is told of it before and after one reading.
    ghost reads: { Self → SystemTime → Self → Type 0 };

    ghost refuses: { Self → Self → Type 0 };

    /// A reading.
    fn read(&mut self) -> io::Result<SystemTime>
        ensures reading { IfOk result (λ reading. reads self.old reading self.new) }
        ensures refused { OnErr result (refuses self.old self.new) };
}

// The kit's clock promises nothing of its readings.
impl<'t, T: time::Clock> WallClock for &'t T {
    ghost reads = { λ _ _ _. Unit {0} };

    ghost refuses = { λ _ _. Unit {0} };

    fn read(&mut self) -> io::Result<SystemTime> {
        SystemTime::now(*self)
    }
}

/// The system's clock, in whole Unix seconds. It never goes back: a reading before the last moment counts as that.
#[derive(Drop)]
pub struct SystemClock<T> {
    time: T,
    told: Option<Moment>,
}

impl<T: WallClock> SystemClock<T> {
    /// The clock that reads the time of day there. It has read nothing yet.
    pub fn new(time: T) -> SystemClock<T>
        ensures time { read_by result ≡ time }
        ensures told { told_by result ≡ None }
    {
        SystemClock { time, told: None }
    }
}

impl<T> SystemClock<T> {
    /// What is told of a reading of this moment, if it has one: no moment before the last one.
    fn tell(&mut self, read: Option<Moment>) -> Option<Moment>
        ensures told { IsToldOf read (told_by self.old) result (told_by self.new) }
        ensures time { read_by self.new ≡ read_by self.old }
    {
        match read {
            Some(read) => {
                self.told = Some(no_earlier(self.told, read));
                self.told
            }
            None => None,
        }
    }
}

/// The moment, or the last one, where that is later.
fn no_earlier(last: Option<Moment>, moment: Moment) -> Moment
    ensures { result ≡ no_earlier last moment }
{
    match last {
        Some(last) if moment.get() < last.get() => last,
        Some(_) | None => moment,
    }
}

// A moment is that of one reading, made for it; or the last one, where that is later.
impl<T: WallClock> Clock for SystemClock<T> {
    ghost now_gives = { λ before moment after.
        IsOfReading (λ reading. T.reads (read_by before) reading (read_by after))
        (T.refuses (read_by before) (read_by after)) (told_by before) moment (told_by after) };

    fn now(&mut self) -> Option<Moment> {
        match self.time.read() {
            Ok(reading) => self.tell(moment_of(reading)),
            Err(_) => self.tell(None),
        }
    }
}
