//! Sets of cells.
//!
//! A set is one number of 128 binary digits, with the digit 1 at the index of each cell in it. So to unite two
//! sets, to find what they share, or to move all cells of a set by a step takes a few machine instructions and no
//! memory. The numbers from 121 to 127 are no cell's, and can stand for something else, as a player's sides.

ghost use Rattle.std.specs.Prelude.{◌≡◌, ◌≢◌, ℕ, ◌+◌, ◌-◌, ◌<◌, ◌≤◌, ◌↔◌, ◌&&◌, ◌||◌, ◌==◌, not, IsTrue, nat_le, nat_lt, true, false, MatchOption};
ghost use Rattle.hx_board.specs.Sets.{has, insert, remove, union, intersection, difference, IsSubset, ShareOne, ShareNone, IsLowest, count_below};

use crate::cells::Cell;
use std::marker::Model;

/// A set of numbers from 0 to 127, such as the indexes of cells. Contracts see it as the number of its binary digits.
#[derive(Clone, Copy, PartialEq, Eq, Debug)]
pub struct Mask {
    bits: u128,
}

impl Model for Mask {
    ghost use Rattle.std.specs.Prelude.{ℕ};

    ghost Value = { ℕ };

    ghost view = { λ m. m.bits };

    ghost inverse = { λ n. record { bits = n } };
}

impl Mask {
    /// The set without a member.
    pub fn empty() -> Mask
        ensures { result ≡ 0 }
    {
        Mask { bits: 0 }
    }

    /// The set of the places, counted from the lowest, at which `bits` has the binary digit 1.
    pub fn of(bits: u128) -> Mask
        ensures { result ≡ bits }
    {
        Mask { bits }
    }

    /// The number that has the binary digit 1 at each member's place, so that `Mask::of(set.bits())` is `set`.
    pub fn bits(self) -> u128
        ensures { result ≡ self }
    {
        self.bits
    }

    /// Whether a cell is in the set.
    pub fn has(self, cell: Cell) -> bool
        ensures { result ≡ has self cell }
    {
        self.holds(cell.index())
    }

    /// The set and a cell, which may be in the set already.
    pub fn with(self, cell: Cell) -> Mask
        ensures set { result ≡ insert self cell }
        ensures members { (n : ℕ) → has result n ≡ ((n == cell) || has self n) }
    {
        self.including(cell.index())
    }

    /// The set without a cell, which need not be in the set.
    pub fn without(self, cell: Cell) -> Mask
        ensures set { result ≡ remove self cell }
        ensures members { (n : ℕ) → has result n ≡ (has self n && not (n == cell)) }
    {
        self.excluding(cell.index())
    }

    /// What is in one of the two sets, or in both.
    #[tactic(auto, unfolding(crate::specs::Sets::union))]
    pub fn union(self, other: Mask) -> Mask
        ensures set { result ≡ union self other }
        ensures members { (n : ℕ) → has result n ≡ (has self n || has other n) }
    {
        Mask {
            bits: self.bits | other.bits,
        }
    }

    /// What is in both sets.
    #[tactic(auto, unfolding(crate::specs::Sets::intersection))]
    pub fn meet(self, other: Mask) -> Mask
        ensures set { result ≡ intersection self other }
        ensures members { (n : ℕ) → has result n ≡ (has self n && has other n) }
    {
        Mask {
            bits: self.bits & other.bits,
        }
    }

    /// What is in this set and not in the other.
    #[tactic(auto, unfolding(crate::specs::Sets::difference))]
    pub fn minus(self, other: Mask) -> Mask
        ensures set { result ≡ difference self other }
        ensures members { (n : ℕ) → has result n ≡ (has self n && not (has other n)) }
    {
        Mask {
            bits: self.bits ^ (self.bits & other.bits),
        }
    }

    /// Whether each member of this set is in the other.
    pub fn inside(self, other: Mask) -> bool
        ensures { IsTrue result ↔ IsSubset self other }
    {
        self.bits & other.bits == self.bits
    }

    /// Whether the two sets share a member.
    pub fn meets(self, other: Mask) -> bool
        ensures one { IsTrue result ↔ ShareOne self other }
        ensures none { (result ≡ false) ↔ ShareNone self other }
    {
        !self.meet(other).is_empty()
    }

    /// Whether the set has no member.
    pub fn is_empty(self) -> bool
        ensures empty { IsTrue result ↔ (self ≡ 0) }
        ensures some { result ≡ false → (n : ℕ) × (has self n ≡ true) }
    {
        self.bits() == 0
    }

    /// How many members the set has.
    pub fn count(self) -> u32
        ensures { result ≡ count_below 128 self }
    {
        self.bits().count_ones()
    }

    /// The set where it is wanted, and else the empty set.
    pub(crate) fn when(self, is_wanted: bool) -> Mask
        ensures { (n : ℕ) → has result n ≡ (is_wanted && has self n) }
    {
        if is_wanted { self } else { Mask::empty() }
    }

    /// Whether a number is in the set.
    pub(crate) fn holds(self, place: u8) -> bool
        requires { place < 128 }
        ensures { result ≡ has self place }
    {
        (self.bits >> place) & 1 == 1
    }

    /// The set and a number, which may be in the set already.
    pub(crate) fn including(self, place: u8) -> Mask
        requires { place < 128 }
        ensures set { result ≡ insert self place }
        ensures members { (n : ℕ) → has result n ≡ ((n == place) || has self n) }
    {
        Mask {
            bits: self.bits | (1 << place),
        }
    }

    /// The set without a number, which need not be in the set.
    pub(crate) fn excluding(self, place: u8) -> Mask
        requires { place < 128 }
        ensures set { result ≡ remove self place }
        ensures members { (n : ℕ) → has result n ≡ (has self n && not (n == place)) }
    {
        Mask {
            bits: self.bits ^ (self.bits & (1 << place)),
        }
    }

    /// The set of one number.
    pub(crate) fn single(place: u8) -> Mask
        requires { place < 128 }
        ensures { result ≡ insert 0 place }
    {
        Mask { bits: 1 << place }
    }

    /// The lowest number in the set.
    pub(crate) fn lowest(self) -> Option<u8>
        ensures { MatchOption result (self ≡ 0) (IsLowest self) }
    {
        let bits = self.bits();
        if bits == 0 {
            None
        } else {
            Some(bits.trailing_zeros() as u8)
        }
    }

    /// The set without its lowest number.
    pub(crate) fn without_lowest(self) -> Mask
        requires { self ≢ 0 }
        ensures lowest { (n : ℕ) → IsLowest self n → result ≡ remove self n }
        ensures inside { IsSubset result self }
    {
        Mask {
            bits: (self.bits - 1) & self.bits,
        }
    }

    /// The numbers from `low` on and below `high`.
    pub(crate) fn range(low: u8, high: u8) -> Mask
        requires ordered { low ≤ high }
        requires fits { high < 128 }
        ensures { (n : ℕ) → has result n ≡ (nat_le low n && nat_lt n high) }
    {
        Mask {
            bits: (1 << high) - (1 << low),
        }
    }

    /// Each member moved up by so many places. What would come to 128 or more is lost.
    pub(crate) fn later(self, by: u8) -> Mask
        requires { by < 128 }
        ensures { (n : ℕ) → n < 128 → has result n ≡ (nat_le by n && has self (n - by)) }
    {
        Mask {
            bits: self.bits << by,
        }
    }

    /// Each member moved down by so many places. What would come below 0 is lost.
    pub(crate) fn earlier(self, by: u8) -> Mask
        requires { by < 128 }
        ensures { (n : ℕ) → has result n ≡ has self (n + by) }
    {
        Mask {
            bits: self.bits >> by,
        }
    }
}
