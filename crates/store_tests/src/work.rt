//! Work over two files that is stopped: one of the files fails from some call on, and what is left is opened again.
use crate::files::{
    Image, MOST_CALLS, Part, Stopped, image_of, images_after, is_blown, stopped, whole,
};
use std::alloc::AllocGlobal;
use std::process::Abort;

/// Work that changes what two files hold.
pub(crate) trait Work {
    /// What a failed test calls it.
    fn name(&self) -> &str;

    /// Does it in the files. Whether it is told to be done.
    fn is_told<R: AllocGlobal + Abort>(&self, rt: &R, files: &mut Stopped) -> bool;

    /// Whether the files hold what the work makes. Where they don't, it sees that they hold what it began with.
    fn is_kept<R: AllocGlobal + Abort>(&self, rt: &R, left: &Image) -> bool;
}

/// How many of the files that were opened again held what the work began with, and how many what it makes.
#[derive(Clone, Copy)]
struct Found {
    before: u64,
    after: u64,
}

/// Opens what a stop left, and sees that it holds what the work makes or what it began with, and the former where the
/// work was told to be done.
fn see_left<W: Work, R: AllocGlobal + Abort>(
    rt: &R,
    work: &W,
    left: &Image,
    is_told: bool,
    found: &mut Found,
) {
    if work.is_kept(rt, left) {
        found.after = found.after.saturating_add(1);
    } else {
        assert!(rt; !is_told, "{} is told and lost", work.name());
        found.before = found.before.saturating_add(1);
    }
}

/// Does the work in files of which one serves so many calls, and opens again what is left where the process ends, and
/// where the machine does. Whether no call was refused.
fn see_stop<W: Work, R: AllocGlobal + Abort>(
    rt: &R,
    work: &W,
    files: &mut Stopped,
    found: &mut Found,
) -> bool {
    let is_told = work.is_told(rt, files);
    let is_whole = !is_blown(files);
    assert!(rt; is_told || !is_whole, "{} isn't told", work.name());
    for left in &images_after(rt, files) {
        see_left(rt, work, left, is_told, found);
    }
    is_whole
}

/// Stops one of the files at each of the calls that the work makes of it.
fn see_stops_of<W: Work, R: AllocGlobal + Abort>(rt: &R, work: &W, began: &Image, part: Part) {
    let mut found = Found {
        before: 0,
        after: 0,
    };
    let mut is_whole = false;
    for calls in 0..MOST_CALLS {
        let mut files = stopped(rt, began, part, calls);
        is_whole = see_stop(rt, work, &mut files, &mut found);
        if is_whole {
            break;
        }
    }
    assert!(rt; is_whole, "{} makes more calls", work.name());
    assert!(rt;
        found.before != 0 && found.after != 0,
        "{}: {} and {}",
        work.name(),
        found.before,
        found.after
    );
}

/// Stops each of the two files at each of the calls that the work makes of it.
pub(crate) fn see_stops<W: Work, R: AllocGlobal + Abort>(rt: &R, work: &W, began: &Image) {
    see_stops_of(rt, work, began, Part::Log);
    see_stops_of(rt, work, began, Part::Database);
}

/// What the files hold after the work.
pub(crate) fn image_after<W: Work, R: AllocGlobal + Abort>(
    rt: &R,
    work: &W,
    began: &Image,
) -> Image {
    let mut files = whole(rt, began);
    let is_told = work.is_told(rt, &mut files);
    assert!(rt; is_told, "{} isn't told", work.name());
    image_of(rt, &files)
}
