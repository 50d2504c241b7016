//! What zones tell of all moves of a player at once.
//!
//! After a move that is a zone's missing stone the mover wins. After a move outside a zone by which the opponent wins
//! it serves, since the mover's stone is on none of its cells: so that zone refutes all moves outside it. One pass over
//! the lists tells both, where a look after each move would take one for each.

use crate::bits::{ZONES, take_zone};
use crate::lists::Lists;
use crate::serving::Stones;
use crate::tables::{LISTS_OF_KIND, Zones};
use crate::zone::Kind;
use hx_board::{Colour, Mask, Position};

/// What zones tell of the moves of a player.
#[derive(Clone, Copy)]
pub struct Told {
    /// Moves after which the mover wins.
    pub wins: Mask,

    /// Moves after which the opponent wins.
    pub refuted: Mask,
}

/// What was told so far.
#[derive(Clone, Copy)]
struct Sum {
    empties: u128,

    /// Cells that are all that some zone lacks.
    lacking: u128,

    /// Free cells of zones that lack none.
    anywhere: u128,

    /// Cells outside a zone of the opponent's.
    outside: u128,
}

impl Sum {
    /// Takes in a zone by which the mover wins, and which lacks one stone at most. Where it lacks none any move wins,
    /// and those on its free cells are told, or all where none of these is empty.
    fn add_win(&mut self, own: u128, needed: u128, free: u128) {
        let lacking = needed & !own & self.empties;
        if lacking == 0 {
            let inside = free & self.empties;
            self.anywhere |= if inside == 0 { self.empties } else { inside };
        } else if lacking & (lacking - 1) == 0 {
            self.lacking |= lacking;
        }
    }
}

impl Zones {
    /// Takes in the zones of a block by which the mover wins.
    fn add_wins_of(&self, block: u32, stones: &Stones, sum: &mut Sum) {
        let mut left = self.lacking_one_in(block, stones);
        for _ in 0..ZONES {
            let Some(number) = take_zone(&mut left) else {
                break;
            };
            let (needed, free) = self.item(block, number);
            sum.add_win(stones.own, needed, free);
        }
    }

    /// Takes in the zones of a block by which the opponent wins. Each serves, so none of its needed cells is empty.
    fn add_refuted_of(&self, block: u32, stones: &Stones, sum: &mut Sum) {
        let mut left = self.serving_in(block, stones);
        for _ in 0..ZONES {
            let Some(number) = take_zone(&mut left) else {
                break;
            };
            let (_needed, free) = self.item(block, number);
            sum.outside |= sum.empties & !free;
        }
    }

    /// Takes in the zones of a list.
    fn add_list(&self, list: usize, is_win: bool, stones: &Stones, sum: &mut Sum) {
        let mut trail = self.trail(list);
        for _ in 0..self.blocks() {
            let Some(block) = self.step(&mut trail) else {
                break;
            };
            if is_win {
                self.add_wins_of(block, stones, sum);
            } else {
                self.add_refuted_of(block, stones, sum);
            }
        }
    }

    /// Takes in the zones of a kind.
    fn add_kind(&self, kind: Kind, is_win: bool, stones: &Stones, sum: &mut Sum) {
        let mut lists: Lists = self.lists(kind, stones.own);
        for _ in 0..LISTS_OF_KIND {
            let Some(list) = lists.step() else {
                break;
            };
            self.add_list(list, is_win, stones, sum);
        }
    }

    /// What the zones tell of the moves of the player to move. Where one wins, nothing is told of refuted ones.
    pub fn tell(&self, position: &Position, to_move: Colour) -> Told {
        let other = to_move.other();
        let (own, others) = (
            position.stones(to_move).bits(),
            position.stones(other).bits(),
        );
        let mut sum = Sum {
            empties: position.empties().bits(),
            lacking: 0,
            anywhere: 0,
            outside: 0,
        };
        let won = Kind {
            to_move: other,
            winner: to_move,
        };
        self.add_kind(won, true, &Stones { own, others }, &mut sum);
        let wins = if sum.lacking == 0 {
            sum.anywhere
        } else {
            sum.lacking
        };
        if wins == 0 {
            let lost = Kind {
                to_move: other,
                winner: other,
            };
            let exchanged = Stones {
                own: others,
                others: own,
            };
            self.add_kind(lost, false, &exchanged, &mut sum);
        }
        Told {
            wins: Mask::of(wins),
            refuted: Mask::of(sum.outside),
        }
    }
}
