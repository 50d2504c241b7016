//! The links that are held, and beside them which of them each cell touches.
//!
//! A play fills cells, and takes ends away by the opponent's stones. Of most links it takes nothing. So beside the
//! links stand blocks, which tell of each cell the links in whose carriers it is or that end there: the pass of a play
//! goes to those that its cells touch and that are not on the log, and looks at no other link.
//!
//! Promised is only that the blocks miss no link that a cell touches. So each link that they tell of and that is not on
//! the log is looked at.

ghost use Rattle.std.specs.Prelude.{◌≡◌, ◌/◌, ◌^◌, ◌<◌, ◌≤◌, List, [], ◌++◌, ◌∷◌, take, length, vec_len, MatchOption, OnOk, OnErr};
ghost use Rattle.hx_link.specs.declared.links.Link.{Link};
ghost use Rattle.hx_linkset.specs.Touches.{AreBlocksOf, HasTouched, TouchedAreLogged, MayBeNext};

use crate::blocks::{BLOCK, Block};
use crate::limits::MOST_LINKS;
use crate::log::Log;
use hx_board::{Mask, Memory, VertexSet};
use hx_link::Link;
use std::alloc::Global;
use std::marker::Model;

/// Links, and which of them each cell touches. Contracts see them as the list of the links.
#[derive(Drop)]
pub(crate) struct HeldLinks {
    links: Vec<Link>,
    blocks: Vec<Block>,
}

impl Model for HeldLinks {
    ghost use Rattle.std.specs.Prelude.{List};
    ghost use Rattle.hx_link.specs.declared.links.Link.{Link};

    ghost Value = { List Link };

    ghost use Rattle.hx_linkset.specs.Touches.{AreBlocksOf};

    ghost view = { λ h. h.links.items };

    ghost invariant = { λ h. AreBlocksOf h.links.items h.blocks.items };
}

impl HeldLinks {
    /// No link.
    pub(crate) fn new(alloc: Global) -> HeldLinks
        ensures { result ≡ [] }
    {
        HeldLinks {
            links: Vec::new(alloc),
            blocks: Vec::new(alloc),
        }
    }

    /// The links, in their order.
    #[inline(always)]
    pub(crate) fn as_slice(&self) -> &[Link]
        ensures { result.now ≡ self.now }
    {
        self.links.as_slice()
    }

    /// How many there are.
    #[inline(always)]
    pub(crate) fn len(&self) -> usize
        ensures count { result ≡ length self.now }
        ensures small { result < 2 ^ 63 }
    {
        self.links.len()
    }

    /// What gives them their memory.
    pub(crate) fn allocator(&self) -> Global {
        *self.links.allocator()
    }

    /// Puts a link after the others. Where memory is wanting nothing changes.
    pub(crate) fn push(&mut self, link: Link) -> Result<(), Memory>
        ensures ok { OnOk result (self.new ≡ self.old ++ link ∷ []) }
        ensures err { OnErr result (self.new ≡ self.old) }
    {
        let cells = VertexSet::of_cells(link.carrier)
            .with(link.a)
            .with(link.b)
            .cells();
        let place = self.links.len();
        let block = place / BLOCK;
        if make_room(&mut self.blocks, block).is_err() {
            return Err(Memory);
        }
        if self.links.reserve(1).is_err() {
            return Err(Memory);
        }
        self.blocks[block].enter((place % BLOCK) as u8, cells);
        self.links.push_reserved(link);
        Ok(())
    }

    /// Takes the last links away, until so many are left.
    pub(crate) fn truncate(&mut self, count: usize)
        ensures { self.new ≡ take count self.old }
    {
        if count < self.links.len() {
            let block = count / BLOCK;
            self.links.truncate(count);
            self.blocks.truncate(block + 1);
            self.blocks[block].cut((count % BLOCK) as u8);
        }
    }

    /// The links that one of these cells touches.
    #[inline(always)]
    pub(crate) fn touched(&self, cells: Mask) -> Touched<'_>
        ensures { result ≡ record { links = self.now; cells = cells } }
    {
        Touched {
            links: self,
            cells,
            block: 0,
            numbers: self.touched_in(0, cells),
        }
    }

    /// The numbers of those of them that are in a block.
    #[inline(always)]
    fn touched_in(&self, block: usize, cells: Mask) -> u64
        ensures { HasTouched self.now cells block result }
    {
        if block < self.blocks.len() {
            self.blocks[block].links_of(cells)
        } else {
            0
        }
    }
}

/// Puts a block of no link after the others, where the block with this number is not there yet.
fn make_room(blocks: &mut Vec<Block>, block: usize) -> Result<(), Memory>
    requires { block ≤ vec_len blocks.old }
    ensures ok { OnOk result (block < vec_len blocks.new) }
    ensures same { (links : List Link) → length links / BLOCK ≡ block
        → AreBlocksOf links blocks.old.items → AreBlocksOf links blocks.new.items }
{
    if block < blocks.len() {
        return Ok(());
    }
    match blocks.push(Block::new()) {
        Ok(()) => Ok(()),
        Err(_) => Err(Memory),
    }
}

/// The links that one of some cells touches. Contracts see them as all links, and the cells.
#[derive(Drop)]
pub(crate) struct Touched<'a> {
    links: &'a HeldLinks,
    cells: Mask,

    /// The block that was looked at last, and the numbers of those that are in it.
    block: usize,
    numbers: u64,
}

impl<'a> Model for Touched<'a> {
    ghost use Rattle.hx_linkset.specs.Touches.{Sought};

    ghost Value = { Sought };

    ghost use Rattle.hx_linkset.specs.Touches.{HasTouched};

    ghost view = { λ t. record { links = t.links.now; cells = t.cells } };

    ghost invariant = { λ t. HasTouched t.links.now t.cells t.block t.numbers };
}

impl<'a> Touched<'a> {
    /// The next place, from one on, at which one of them may stand that is not on the log. None where no more of them
    /// stand.
    #[inline(always)]
    pub(crate) fn first_from(&mut self, log: &Log, from: usize) -> Option<usize>
        requires few { length self.old.links ≤ MOST_LINKS }
        ensures same { self.new ≡ self.old }
        ensures found { MatchOption result
            (TouchedAreLogged self.old log.now from (length self.old.links))
            (MayBeNext self.old log.now from) }
    {
        let mut at = from;
        while at < self.links.len() {
            let number = at % BLOCK;
            let block = at / BLOCK;
            let rest = (self.numbers_in(block) & log.others(block)) >> number;
            if rest != 0 {
                let place = at + rest.trailing_zeros() as usize;
                return if place < self.links.len() {
                    Some(place)
                } else {
                    None
                };
            }
            at += BLOCK - number;
        }
        None
    }

    /// The numbers of those that are in a block.
    #[inline(always)]
    fn numbers_in(&mut self, block: usize) -> u64
        ensures same { self.new ≡ self.old }
        ensures numbers { HasTouched self.old.links self.old.cells block result }
    {
        if block != self.block {
            self.block = block;
            self.numbers = self.links.touched_in(block, self.cells);
        }
        self.numbers
    }
}
