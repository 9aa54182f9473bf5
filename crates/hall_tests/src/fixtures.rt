//! Values that the tests of several crates are made of.
use hall_policy::{Checked, PuzzleKey, TextKind, Within};
use std::alloc::AllocGlobal;
use std::process::Abort;

pub(crate) fn text<K: TextKind>(rt: &(impl AllocGlobal + Abort), text: &str) -> Checked<K> {
    let text = String::from_str(rt.alloc(), text).expect(rt, "memory");
    Checked::new(text).expect(rt, "text")
}

pub(crate) fn number<const LEAST: u64, const MOST: u64>(
    rt: &impl Abort,
    n: u64,
) -> Within<LEAST, MOST> {
    Within::new(n).expect(rt, "number")
}

pub(crate) fn puzzle_key(rt: &(impl AllocGlobal + Abort), author: &str, label: &str) -> PuzzleKey {
    PuzzleKey {
        author: text(rt, author),
        label: text(rt, label),
    }
}
