//! One group of cells that have a value, found from one of them.
ghost use Rattle.std.specs.Prelude.{◌≡◌, ◌↔◌, ℕ, ◌<◌, IsTrue, OnOk, Contains, length};
ghost use Rattle.hall_grid.specs.Board.{cells, Touch};
ghost use Rattle.hall_nurikabe.specs.Forced.{IsSetTo};
ghost use Rattle.hall_nurikabe.specs.Group.{ArePlaced, IsFound, IsGroup, IsNear, Sees};

use crate::exits::Exits;
use crate::position::Position;
use hall_grid::neighbours;
use std::alloc::{AllocError, Global};

/// The cells of a group as they were found, and the open cells beside them.
///
/// A cell is one of them where `cells` has it at its place. So places need no clearing before the next group.
#[derive(Drop)]
pub(crate) struct Group {
    pub(crate) cells: Vec<usize>,
    pub(crate) places: Vec<usize>,
    pub(crate) exits: Exits,
    /// How much work may still be done: a group takes [`LOOK`], and 1 for each of its cells.
    pub(crate) left: usize,
}

/// The work for a group besides that for its cells.
const LOOK: usize = 20;

/// Room for a group, and for another that is looked at meanwhile.
#[derive(Drop)]
pub(crate) struct Room {
    pub(crate) group: Group,
    pub(crate) other: Group,
}

impl Room {
    /// Room in which no group is found yet, and no work may be done.
    pub(crate) fn new(alloc: Global) -> Room {
        Room {
            group: Group::new(alloc),
            other: Group::new(alloc),
        }
    }
}

impl Group {
    /// Room for groups; none is found yet.
    pub(crate) fn new(alloc: Global) -> Group {
        Group {
            cells: Vec::new(alloc),
            places: Vec::new(alloc),
            exits: Exits::Nowhere,
            left: 0,
        }
    }

    /// Takes the work for another group that was found.
    pub(crate) fn pay(&mut self, other: &Group) {
        self.left = self
            .left
            .saturating_sub(other.cells.len().saturating_add(LOOK));
    }
}

/// Whether the list has the cell at its place.
pub(crate) fn has(list: &[usize], places: &[usize], cell: usize) -> bool
    requires cell { cell < length places.now }
    requires placed { ArePlaced places.now list.now }
    ensures { IsTrue result ↔ Contains list.now cell }
{
    let at = places[cell];
    if at >= list.len() {
        return false;
    }
    list[at] == cell
}

/// Adds the cell to the group, where it has the value, or to the exits, where it is open.
fn see(position: &Position, value: u8, cell: usize, group: &mut Group) -> Result<(), AllocError>
    requires cell { cell < cells position.now.puzzle.now.size }
    requires found { IsFound position.now.puzzle.now.size position.now.partial.now.places value
        group.old.places.items group.old.cells.items group.old.exits }
    requires near { IsNear position.now.puzzle.now.size group.old.cells.items cell }
    ensures { OnOk result (Sees position.now.puzzle.now.size position.now.partial.now.places value (λ x. x ≡ cell)
        group.new.places.items group.old.cells.items group.new.cells.items group.old.exits group.new.exits) }
{
    let Some(there) = position.partial.get(cell) else {
        group.exits = group.exits.with(cell);
        return Ok(());
    };
    if there == value && !has(&group.cells, &group.places, cell) {
        let place = group.cells.len();
        group.cells.push(cell)?;
        group.places[cell] = place;
    }
    Ok(())
}

/// Adds the cells that touch a cell of the group to the group or to the exits, as each has the value or is open.
fn see_round(
    position: &Position,
    value: u8,
    cell: usize,
    group: &mut Group,
) -> Result<(), AllocError>
    requires found { IsFound position.now.puzzle.now.size position.now.partial.now.places value
        group.old.places.items group.old.cells.items group.old.exits }
    requires cell { Contains group.old.cells.items cell }
    ensures { OnOk result (Sees position.now.puzzle.now.size position.now.partial.now.places value
        (Touch position.now.puzzle.now.size cell) group.new.places.items
        group.old.cells.items group.new.cells.items group.old.exits group.new.exits) }
{
    for place in neighbours(position.puzzle.size(), cell) {
        if let Some(other) = place {
            see(position, value, other, group)?;
        }
    }
    Ok(())
}

/// Makes room for so many places more.
fn make_room(count: usize, places: &mut Vec<usize>) -> Result<(), AllocError>
    ensures { OnOk result (length places.new.items ≡ count) }
{
    if places.len() == count {
        return Ok(());
    }
    places.clear();
    for place in 0..count {
        places.push(place)?;
    }
    Ok(())
}

/// The group of the cell alone.
fn begin(position: &Position, from: usize, group: &mut Group) -> Result<(), AllocError>
    requires from { from < cells position.now.puzzle.now.size }
    ensures found { OnOk result ((value : ℕ) → IsSetTo position.now.partial.now.places value from
        → IsFound position.now.puzzle.now.size position.now.partial.now.places value
        group.new.places.items group.new.cells.items group.new.exits) }
    ensures begun { OnOk result (Contains group.new.cells.items from) }
{
    make_room(position.puzzle.cells(), &mut group.places)?;
    group.cells.clear();
    group.cells.push(from)?;
    group.places[from] = 0;
    group.exits = Exits::Nowhere;
    group.left = group.left.saturating_sub(LOOK);
    Ok(())
}

/// Finds the cells that cells of the value join to the cell, and the open cells beside them; where it is to be
/// `short`, only up to the second of these.
pub(crate) fn find(
    position: &Position,
    value: u8,
    from: usize,
    short: bool,
    group: &mut Group,
) -> Result<(), AllocError>
    requires from { from < cells position.now.puzzle.now.size }
    requires value { IsSetTo position.now.partial.now.places value from }
    ensures { OnOk result (IsGroup position.now.puzzle.now.size position.now.partial.now.places value from
        group.new.places.items group.new.cells.items group.new.exits) }
{
    begin(position, from, group)?;
    let mut at = 0;
    while at < group.cells.len() {
        let cell = group.cells[at];
        group.left = group.left.saturating_sub(1);
        see_round(position, value, cell, group)?;
        at += 1;
        if short && group.exits.are_many() {
            return Ok(());
        }
    }
    Ok(())
}
