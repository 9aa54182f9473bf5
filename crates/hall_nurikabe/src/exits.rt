//! Ways out of regions.
ghost use Rattle.std.specs.Prelude.{◌≡◌, ◌↔◌, ℕ, ◌<◌, ◌⊎◌, IsTrue, IfOk, length, slice_index, slice_index_or, None};
ghost use Rattle.std.specs.Prelude.{Some};
ghost use Rattle.hall_grid.specs.Board.{cells, IsSize, Touch};
ghost use Rattle.hall_grid.specs.Component.{AreComponents, IsLabelled};
ghost use Rattle.hall_grid.specs.Reached.{IsMarked};
ghost use Rattle.hall_solve.specs.Question.{Question, IsPartial, IsHopeless};
ghost use Rattle.hall_nurikabe.specs.Counts.{AreCells};
ghost use Rattle.hall_grid.specs.declared.board.Kind.TheVariants.{Nurikabe};
ghost use Rattle.hall_solve.specs.Puzzle.{question_of};
ghost use Rattle.hall_nurikabe.specs.Forced.{AreForced, AreOwners, IsBeside, IsSetTo};
ghost use Rattle.hall_nurikabe.specs.Exit.{AddsExit, Covers, KnowsExits, MarksGrowing, MarksRoots, MustGrow, NeedsMore};

use crate::position::Position;
use hall_grid::{Clue, Puzzle, Size, neighbours};
use std::alloc::{AllocError, Global};

/// The open cells beside a region.
#[derive(Clone, Copy)]
pub(crate) enum Exits {
    Nowhere,
    One(usize),
    Many,
}

impl Exits {
    /// The open cells beside a region, with one more.
    pub(crate) fn with(self, cell: usize) -> Exits
        ensures kept { (x : ℕ) → Covers self x → Covers result x }
        ensures cell { Covers result cell }
        ensures one { (x : ℕ) → result ≡ Exits.One x → x ≡ cell }
    {
        match self {
            Exits::Nowhere => Exits::One(cell),
            Exits::One(other) if other == cell => self,
            Exits::One(_) | Exits::Many => Exits::Many,
        }
    }

    /// Whether there are two or more.
    pub(crate) fn are_many(self) -> bool
        ensures { IsTrue result ↔ (self ≡ Exits.Many) }
    {
        match self {
            Exits::Many => true,
            Exits::Nowhere | Exits::One(_) => false,
        }
    }
}

/// Adds the cell to the exits of the labels beside it.
fn add_exit(size: Size, labels: &[Option<usize>], cell: usize, exits: &mut [Exits])
    requires size { IsSize size }
    requires cell { cell < cells size }
    requires exact { length labels.now ≡ cells size }
    requires exits { length exits.old ≡ cells size }
    requires labels { AreCells labels.now }
    ensures adds { AddsExit cell exits.old exits.new }
    ensures beside { (label : ℕ) → IsBeside size labels.now cell label
        → Covers (slice_index_or exits.new label Exits.Nowhere) cell }
{
    for place in neighbours(size, cell) {
        if let Some(other) = place {
            if let Some(label) = labels[other] {
                exits[label] = exits[label].with(cell);
            }
        }
    }
}

/// For each label the open cells beside the cells that have it.
pub(crate) fn exits_of(
    alloc: Global,
    position: &Position,
    labels: &[Option<usize>],
) -> Result<Vec<Exits>, AllocError>
    requires exact { length labels.now ≡ cells position.now.puzzle.now.size }
    requires labels { AreCells labels.now }
    ensures { IfOk result (λ exits. KnowsExits position.now.puzzle.now.size position.now.partial.now.places labels.now
        (cells position.now.puzzle.now.size) exits.items) }
{
    let size = position.puzzle.size();
    let mut exits = vec![in alloc; Exits::Nowhere; labels.len()]?;
    for cell in 0..labels.len() {
        if position.partial.get(cell).is_none() {
            add_exit(size, labels, cell, &mut exits);
        }
    }
    Ok(exits)
}

/// Whether a group of white cells of this size is no whole island: it has no number, or a greater one.
fn must_grow(puzzle: &Puzzle, owner: Option<usize>, size: usize) -> bool
    requires { (cell : ℕ) → owner ≡ Some cell → cell < cells puzzle.now.size }
    ensures { IsTrue result → NeedsMore puzzle.now owner size }
{
    match owner {
        None => true,
        Some(cell) => match puzzle.clue(cell) {
            Clue::Number(given) => size < usize::from(given),
            Clue::Unknown | Clue::Blank => false,
        },
    }
}

/// Whether some cell has the label: the one of its number has it then.
fn is_root(labels: &[Option<usize>], label: usize) -> bool
    requires { label < length labels.now }
    ensures { IsTrue result → IsLabelled labels.now label label }
{
    labels[label] == Some(label)
}

/// Whether the label is that of a group of white cells that is no whole island.
fn is_growing(
    puzzle: &Puzzle,
    labels: &[Option<usize>],
    sizes: &[usize],
    owners: &[Option<usize>],
    label: usize,
) -> bool
    requires label { label < cells puzzle.now.size }
    requires exact { length labels.now ≡ cells puzzle.now.size }
    requires sizes { length sizes.now ≡ cells puzzle.now.size }
    requires owners { AreOwners puzzle.now labels.now owners.now }
    ensures label { IsTrue result → IsLabelled labels.now label label }
    ensures more { IsTrue result
        → NeedsMore puzzle.now (slice_index_or owners.now label None) (slice_index sizes.now label) }
{
    is_root(labels, label) && must_grow(puzzle, owners[label], sizes[label])
}

/// The labels of groups of white cells that are no whole islands.
pub(crate) fn growing_groups(
    alloc: Global,
    puzzle: &Puzzle,
    labels: &[Option<usize>],
    sizes: &[usize],
    owners: &[Option<usize>],
) -> Result<Vec<bool>, AllocError>
    requires exact { length labels.now ≡ cells puzzle.now.size }
    requires sizes { length sizes.now ≡ cells puzzle.now.size }
    requires owners { AreOwners puzzle.now labels.now owners.now }
    ensures { IfOk result (λ marks. MarksGrowing puzzle.now labels.now sizes.now owners.now marks.items) }
{
    let mut growing = Vec::new(alloc);
    for label in 0..labels.len() {
        growing.push(is_growing(puzzle, labels, sizes, owners, label))?;
    }
    Ok(growing)
}

/// The labels that some cell has.
pub(crate) fn roots(alloc: Global, labels: &[Option<usize>]) -> Result<Vec<bool>, AllocError>
    ensures { IfOk result (λ marks. MarksRoots labels.now marks.items) }
{
    let mut marks = Vec::new(alloc);
    for label in 0..labels.len() {
        marks.push(is_root(labels, label))?;
    }
    Ok(marks)
}

/// Forces the value at the only exit of each marked label; tells whether one has no exit.
pub(crate) fn force_exits(
    position: &Position,
    labels: &[Option<usize>],
    exits: &[Exits],
    value: u8,
    growing: &[bool],
    forced: &mut [Option<u8>],
) -> bool
    requires labels { AreComponents (cells position.now.puzzle.now.size) (Touch position.now.puzzle.now.size)
        (IsSetTo position.now.partial.now.places value) labels.now }
    requires exits { KnowsExits position.now.puzzle.now.size position.now.partial.now.places labels.now
        (cells position.now.puzzle.now.size) exits.now }
    requires value { value < 2 }
    requires marks { length growing.now ≡ cells position.now.puzzle.now.size }
    requires growing { (label : ℕ) → IsMarked growing.now label
        → MustGrow position.now.puzzle.now position.now.partial.now.places value labels.now label }
    requires forced { AreForced position.now.puzzle.now position.now.partial.now.places forced.old }
    ensures dead { IsTrue result
        → IsHopeless (question_of Nurikabe position.now.puzzle.now) position.now.partial.now.places }
    ensures forced { AreForced position.now.puzzle.now position.now.partial.now.places forced.new }
{
    for label in 0..position.puzzle.cells() {
        if growing[label] {
            match exits[label] {
                Exits::Nowhere => return true,
                Exits::One(cell) => forced[cell] = Some(value),
                Exits::Many => {}
            }
        }
    }
    false
}
