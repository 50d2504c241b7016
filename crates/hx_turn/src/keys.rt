//! A position and its mover folded into one key.
//!
//! The four halves of the two sets of stones are each mixed with a salt and multiplied in pairs, and the two results
//! with the mover once more. Each product has 128 binary digits, of which the upper 64 are laid over the lower 64, so
//! that each stone changes about half of the digits. This is the step of Wang Yi's wyhash.

ghost use Rattle.std.specs.Prelude.{◌≡◌};
ghost use Rattle.hx_turn.specs.Keys.{folded, folded_set, mover_salt, folded_key};

use hx_board::{Colour, Mask, Position};

/// 2^64.
const HALF: u128 = 18446744073709551616;

// The salts are odd, with about as many digits 1 as 0.
const BLACK_LOW: u64 = 11400714819323198485;

const BLACK_HIGH: u64 = 14029467366897019727;

const WHITE_LOW: u64 = 1609587929392839161;

const WHITE_HIGH: u64 = 9650029242287828579;

const LAST: u64 = 2870177450012600261;

/// The upper half of the product, with the lower half laid over it.
#[tactic(auto, unfolding(crate::specs::Keys::folded))]
fn fold(a: u64, b: u64) -> u64
    ensures { result ≡ folded a b }
{
    let product = a as u128 * b as u128;
    let high = (product / HALF) as u64;
    let low = (product % HALF) as u64;
    high ^ low
}

/// The halves of a set, mixed with two salts.
#[tactic(auto, unfolding(crate::specs::Keys::folded_set))]
fn fold_set(set: Mask, low_salt: u64, high_salt: u64) -> u64
    ensures { result ≡ folded_set set low_salt high_salt }
{
    let bits = set.bits();
    let low = (bits % HALF) as u64;
    let high = (bits / HALF) as u64;
    fold(low ^ low_salt, high ^ high_salt)
}

/// The salt of a mover.
fn salt_of(mover: Colour) -> u64
    ensures { result ≡ mover_salt mover }
{
    match mover {
        Colour::Black => 13287129219935123339,
        Colour::White => 5871781006564002453,
    }
}

/// The key of a position as it stands, and of the player to move. The turned position mostly has another one.
#[tactic(auto, unfolding(crate::specs::Keys::folded_key))]
pub fn folded_key(position: &Position, to_move: Colour) -> u64
    ensures { result ≡ folded_key position.now to_move }
{
    let black = fold_set(position.stones(Colour::Black), BLACK_LOW, BLACK_HIGH);
    let white = fold_set(position.stones(Colour::White), WHITE_LOW, WHITE_HIGH);
    fold(black ^ salt_of(to_move), white ^ LAST)
}
