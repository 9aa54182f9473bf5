//! Lists in which no two items are alike: a round's puzzles, its testers, and people.
ghost use Rattle.std.specs.Prelude.{◌≡◌, ◌↔◌, ◌≤◌, not, [], length, IsTrue, IfSome, IfNone, IfOk, OnErr, AllPairs};
ghost use Rattle.std.specs.Prelude.{Any, Contains};
ghost use Rattle.std.specs.BTreeSet.{contains, IsUnchanged};
ghost use Rattle.hall_policy.specs.Limits.{most_people};
ghost use Rattle.hall_policy.specs.Text.{text_cmp};
ghost use Rattle.hall_policy.specs.Lists.{AreEntries, AreTesters, ArePeople, ArePeopleDifferent, IsSeenToo};

use crate::record::{Entry, Person};
use crate::text::{Checked, Name, TextKind};
use std::alloc::{AllocError, Global};
use std::collections::BTreeSet;
use std::marker::Model;
use std::rc::RcSlice;

/// The puzzles that a round may have.
pub const MOST_ENTRIES: usize = 40;

/// The testers that a round may have.
pub const MOST_TESTERS: usize = 20;

/// The people that a list may have.
pub const MOST_PEOPLE: usize = 5000;

/// Whether no puzzle is listed again.
fn puzzles_differ(entries: &[Entry]) -> bool
    ensures { IsTrue result ↔ AllPairs (λ a b. ¬ (a.puzzle ≡ b.puzzle)) entries.now }
{
    for (i, later) in entries.iter().enumerate() {
        if is_listed(&entries[..i], later) {
            return false;
        }
    }
    true
}

/// Whether one of the entries is of the same puzzle.
fn is_listed(entries: &[Entry], later: &Entry) -> bool
    ensures { IsTrue result ↔ Any (λ entry. entry.puzzle ≡ later.now.puzzle) entries.now }
{
    entries
        .iter()
        .any(|entry| entry.puzzle.is_same(&later.puzzle))
}

/// Whether no name is listed again.
fn testers_differ(names: &[Name]) -> bool
    ensures { IsTrue result ↔ AllPairs (λ a b. ¬ (a ≡ b)) names.now }
{
    for (i, later) in names.iter().enumerate() {
        if is_named(&names[..i], later) {
            return false;
        }
    }
    true
}

/// Whether one of the names is the same.
pub(crate) fn is_named(names: &[Name], later: &Name) -> bool
    ensures { IsTrue result ↔ Contains names.now later.now }
{
    names.iter().any(|name| name.is_same(later))
}

/// Adds the text to those seen, and tells whether it is new. An error means out of memory, and the set stays as it was.
pub fn is_new<K: TextKind>(
    seen: &mut BTreeSet<Checked<K>>,
    text: &Checked<K>,
) -> Result<bool, AllocError>
    ensures new { IfOk result (λ new. new ≡ not (contains text_cmp seen.old text.now)) }
    ensures seen { IfOk result (λ new. IsSeenToo seen.old seen.new text.now) }
    ensures err { OnErr result (IsUnchanged seen.old seen.new) }
{
    match seen.insert(text.clone()?) {
        Ok(new) => Ok(new),
        Err(_) => Err(AllocError),
    }
}

/// Whether no two people have one name.
fn names_differ(alloc: Global, people: &[Person]) -> Result<bool, AllocError>
    ensures { IfOk result (λ differ. IsTrue differ ↔ AllPairs (λ a b. ¬ (a.name ≡ b.name)) people.now) }
{
    let mut seen = BTreeSet::new(alloc);
    for person in people {
        if !is_new(&mut seen, &person.name)? {
            return Ok(false);
        }
    }
    Ok(true)
}

/// Whether no two people have one key.
fn keys_differ(alloc: Global, people: &[Person]) -> Result<bool, AllocError>
    ensures { IfOk result (λ differ. IsTrue differ ↔ AllPairs (λ a b. ¬ (a.key ≡ b.key)) people.now) }
{
    let mut seen = BTreeSet::new(alloc);
    for person in people {
        if !is_new(&mut seen, &person.key)? {
            return Ok(false);
        }
    }
    Ok(true)
}

/// Whether no two people have one name or one key.
fn are_different(alloc: Global, people: &[Person]) -> Result<bool, AllocError>
    ensures { IfOk result (λ differ. IsTrue differ ↔ ArePeopleDifferent people.now) }
{
    Ok(names_differ(alloc, people)? && keys_differ(alloc, people)?)
}

/// The puzzles of a round, 1 to 40, none twice, numbered from 1. Clones share them.
#[derive(Drop)]
pub struct Entries {
    list: RcSlice<Entry>,
}

impl Model for Entries {
    ghost use Rattle.std.specs.Prelude.{List};
    ghost use Rattle.std.specs.Rc.{rc_slice_items};
    ghost use Rattle.hall_policy.specs.declared.record.Entry.{Entry};
    ghost use Rattle.hall_policy.specs.Lists.{AreEntries};

    ghost Value = { List Entry };

    ghost view = { λ p. rc_slice_items p.list };

    ghost invariant = { λ p. AreEntries (rc_slice_items p.list) };
}

impl Entries {
    /// The list, where it has 1 to 40 puzzles and none twice. An error means out of memory.
    pub fn new(list: Vec<Entry>) -> Result<Option<Entries>, AllocError>
        ensures some { IfOk result (λ made. IfSome made (λ entries. (entries ≡ list.items) × AreEntries entries)) }
        ensures none { IfOk result (λ made. IfNone made (¬ (AreEntries list.items))) }
    {
        let count = list.len();
        if count == 0 || count > MOST_ENTRIES || !puzzles_differ(list.as_slice()) {
            return Ok(None);
        }
        let list = RcSlice::from_vec(list)?;
        Ok(Some(Entries { list }))
    }

    /// The puzzles in their order.
    pub fn as_slice(&self) -> &[Entry]
        ensures value { result.now ≡ self.now }
        ensures valid { AreEntries self.now }
    {
        self.list.as_slice()
    }
}

impl Clone for Entries {
    ghost use Rattle.std.specs.Prelude.{◌≡◌};

    ghost is_clone = { λ x y. y ≡ x };

    fn clone(&self) -> Result<Entries, AllocError> {
        Ok(Entries {
            list: self.list.clone()?,
        })
    }
}

/// Who tests a round, at most 20 names, none twice.
#[derive(Drop)]
pub struct Testers {
    names: Vec<Name>,
}

impl Model for Testers {
    ghost use Rattle.std.specs.Prelude.{ℕ, List};
    ghost use Rattle.hall_policy.specs.Lists.{AreTesters};

    ghost Value = { List (List ℕ) };

    ghost view = { λ p. p.names.items };

    ghost invariant = { λ p. AreTesters p.names.items };
}

impl Testers {
    /// Nobody.
    pub fn none(alloc: Global) -> Testers
        ensures { result ≡ [] }
    {
        Testers {
            names: Vec::new(alloc),
        }
    }

    /// The list, where it has at most 20 names and none twice.
    pub fn new(names: Vec<Name>) -> Option<Testers>
        ensures some { IfSome result (λ testers. (testers ≡ names.items) × AreTesters testers) }
        ensures none { IfNone result (¬ (AreTesters names.items)) }
    {
        if names.len() > MOST_TESTERS || !testers_differ(names.as_slice()) {
            return None;
        }
        Some(Testers { names })
    }

    /// The names in the list's order.
    pub fn as_slice(&self) -> &[Name]
        ensures value { result.now ≡ self.now }
        ensures valid { AreTesters self.now }
    {
        self.names.as_slice()
    }
}

impl Clone for Testers {
    ghost use Rattle.std.specs.Prelude.{◌≡◌};

    ghost is_clone = { λ x y. y ≡ x };

    fn clone(&self) -> Result<Testers, AllocError> {
        Ok(Testers {
            names: self.names.clone()?,
        })
    }
}

/// At most 5,000 people, no name or key twice.
#[derive(Drop)]
pub struct People {
    people: Vec<Person>,
}

impl Model for People {
    ghost use Rattle.std.specs.Prelude.{List};
    ghost use Rattle.hall_policy.specs.declared.record.Person.{Person};
    ghost use Rattle.hall_policy.specs.Lists.{ArePeople};

    ghost Value = { List Person };

    ghost view = { λ p. p.people.items };

    ghost invariant = { λ p. ArePeople p.people.items };
}

impl People {
    /// The list, where it has at most 5,000 people and no name or key twice; an error means out of memory,
    /// and never the answer to a longer list.
    pub fn new(alloc: Global, people: Vec<Person>) -> Result<Option<People>, AllocError>
        ensures some { IfOk result (λ made. IfSome made (λ list. (list ≡ people.items) × ArePeople list)) }
        ensures none { IfOk result (λ made. IfNone made (¬ (ArePeople people.items))) }
        ensures err { OnErr result (length people.items ≤ most_people) }
    {
        if people.len() > MOST_PEOPLE || !are_different(alloc, people.as_slice())? {
            return Ok(None);
        }
        Ok(Some(People { people }))
    }

    /// The people in their order.
    pub fn as_slice(&self) -> &[Person]
        ensures value { result.now ≡ self.now }
        ensures valid { ArePeople self.now }
    {
        self.people.as_slice()
    }
}

impl Clone for People {
    ghost use Rattle.std.specs.Prelude.{◌≡◌};

    ghost is_clone = { λ x y. y ≡ x };

    fn clone(&self) -> Result<People, AllocError> {
        Ok(People {
            people: self.people.clone()?,
        })
    }
}
