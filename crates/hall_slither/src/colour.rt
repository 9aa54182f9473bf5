//! Colours of cells, inside the loop or outside, as far as sides that are set tell them.
ghost use Rattle.std.specs.Prelude.{◌≡◌, ◌<◌, ◌+◌, ℕ, Bool, false, IfSome, OnOk, length};
ghost use Rattle.hall_grid.specs.Board.{IsSize, cells};
ghost use Rattle.hall_grid.specs.Slither.{all_sides};
ghost use Rattle.hall_slither.specs.Colour.{turned, cells_by, Obeys, AreTurned};

use hall_grid::Size;
use std::alloc::{AllocError, Global};
use std::marker::Model;

/// A cell whose colour tells this one's.
#[derive(Clone, Copy)]
pub(crate) struct Link {
    to: usize,
    /// Whether the two colours differ.
    differs: bool,
    /// How many cells hang on this one.
    weight: usize,
}

/// What is known of the cells' colours: each hangs on another one or, as a root, on itself. The last one stands for
/// all that is outside of the board.
#[derive(Drop)]
pub(crate) struct Colours {
    links: Vec<Link>,
}

impl Model for Colours {
    ghost use Rattle.std.specs.Prelude.{List, All, ◌<◌, length};
    ghost use Rattle.hall_slither.specs.declared.colour.Link.{Link};

    ghost Value = { List Link };

    ghost view = { λ c. c.links.items };

    ghost invariant = { λ c. All (λ link. link.to < length c.links.items) c.links.items };
}

/// The other value where they differ.
pub(crate) fn turned(differs: bool, value: bool) -> bool
    ensures { result ≡ turned differs value }
{
    if differs { !value } else { value }
}

/// The cells on both sides of a side; the number after the last cell stands for what is outside.
pub(crate) fn cells_by(size: Size, side: usize) -> (usize, usize)
    requires size { IsSize size }
    requires side { side < all_sides size }
    ensures cells { result ≡ cells_by size side }
    ensures first { result.0 < cells size + 1 }
    ensures second { result.1 < cells size + 1 }
{
    let outside = size.cells();
    let flat_sides = size.flat_sides();
    if side < flat_sides {
        let above = if side < size.cols {
            outside
        } else {
            side - size.cols
        };
        let below = if side < outside { side } else { outside };
        (above, below)
    } else {
        let row = (side - flat_sides) / (size.cols + 1);
        let col = (side - flat_sides) % (size.cols + 1);
        let left = if col > 0 {
            row * size.cols + (col - 1)
        } else {
            outside
        };
        let right = if col < size.cols {
            row * size.cols + col
        } else {
            outside
        };
        (left, right)
    }
}

impl Colours {
    /// No cell.
    pub(crate) fn new(alloc: Global) -> Colours
        ensures { length result ≡ 0 }
    {
        Colours {
            links: Vec::new(alloc),
        }
    }

    /// Nothing is known of so many cells.
    pub(crate) fn start_over(&mut self, count: usize) -> Result<(), AllocError>
        ensures size { OnOk result (length self.new ≡ count) }
        ensures obeyed { OnOk result ((colour : ℕ → Bool) → Obeys self.new colour) }
    {
        self.links.clear();
        for cell in 0..count {
            self.links.push(Link {
                to: cell,
                differs: false,
                weight: 1,
            })?;
        }
        Ok(())
    }

    /// Knows what the other one knows.
    pub(crate) fn copy_from(&mut self, other: &Colours) -> Result<(), AllocError>
        ensures { OnOk result (self.new ≡ other.now) }
    {
        self.links.clear();
        self.links.extend_from_slice(&other.links)
    }

    /// The cell on which the cell hangs in the end, and whether their colours differ.
    fn root_of(&self, cell: usize) -> Option<(usize, bool)>
        requires { cell < length self.now }
        ensures root { IfSome result (λ r. r.0 < length self.now) }
        ensures turned { IfSome result
            (λ r. (colour : ℕ → Bool) → Obeys self.now colour → AreTurned r.1 cell r.0 colour) }
    {
        let mut at = cell;
        let mut differs = false;
        for _ in 0..self.links.len() {
            let link = self.links[at];
            if link.to == at {
                return Some((at, differs));
            }
            differs = turned(link.differs, differs);
            at = link.to;
        }
        None
    }

    /// Whether the colours of two cells differ, where it is known.
    pub(crate) fn differ(&self, first: usize, second: usize) -> Option<bool>
        requires first { first < length self.now }
        requires second { second < length self.now }
        ensures { IfSome result (λ d. (colour : ℕ → Bool) → Obeys self.now colour → AreTurned d first second colour) }
    {
        let (root, first_differs) = self.root_of(first)?;
        let (other, second_differs) = self.root_of(second)?;
        if root == other {
            Some(turned(second_differs, first_differs))
        } else {
            None
        }
    }

    /// Learns whether the colours of two cells differ; false where that contradicts what is known.
    pub(crate) fn learn(&mut self, first: usize, second: usize, differs: bool) -> bool
        requires first { first < length self.old }
        requires second { second < length self.old }
        ensures size { length self.new ≡ length self.old }
        ensures obeyed { (colour : ℕ → Bool) → Obeys self.old colour → AreTurned differs first second colour
            → Obeys self.new colour }
        ensures contradicted { result ≡ false
            → (colour : ℕ → Bool) → Obeys self.old colour → AreTurned differs first second colour → ⊥ }
    {
        let (Some((root, first_differs)), Some((other, second_differs))) = (
            self.root_of(first),
            self.root_of(second),
        ) else {
            return true;
        };
        let apart = turned(second_differs, turned(differs, first_differs));
        if root == other {
            return !apart;
        }
        if self.links[root].weight < self.links[other].weight {
            self.hang(root, other, apart);
        } else {
            self.hang(other, root, apart);
        }
        true
    }

    /// Hangs a cell on another one.
    fn hang(&mut self, lower: usize, upper: usize, differs: bool)
        requires lower { lower < length self.old }
        requires upper { upper < length self.old }
        ensures size { length self.new ≡ length self.old }
        ensures obeyed { (colour : ℕ → Bool) → Obeys self.old colour → AreTurned differs lower upper colour
            → Obeys self.new colour }
    {
        let weight = self.links[lower].weight;
        self.links[lower] = Link {
            to: upper,
            differs,
            weight,
        };
        let link = self.links[upper];
        self.links[upper] = Link {
            weight: link.weight.saturating_add(weight),
            ..link
        };
    }
}
