//! A set with its numbers in reverse order.
//!
//! The halves of each block of 2 numbers are exchanged, then those of each block of 4, and so on up to the whole set.
//! Each exchange is two shifts, whatever the set has.

ghost use Rattle.std.specs.Prelude.{◌≡◌, ℕ, ◌-◌, ◌<◌};
ghost use Rattle.hx_board.specs.Sets.{has};
ghost use Rattle.hx_turn.specs.Reversed.{partner, AreLowHalves};

/// The lower halves of the blocks of 2, of 4, .. of 128 numbers.
const LOW_OF_2: u128 = 0x5555_5555_5555_5555_5555_5555_5555_5555;

const LOW_OF_4: u128 = 0x3333_3333_3333_3333_3333_3333_3333_3333;

const LOW_OF_8: u128 = 0x0f0f_0f0f_0f0f_0f0f_0f0f_0f0f_0f0f_0f0f;

const LOW_OF_16: u128 = 0x00ff_00ff_00ff_00ff_00ff_00ff_00ff_00ff;

const LOW_OF_32: u128 = 0x0000_ffff_0000_ffff_0000_ffff_0000_ffff;

const LOW_OF_64: u128 = 0x0000_0000_ffff_ffff_0000_0000_ffff_ffff;

const LOW_OF_128: u128 = 0xffff_ffff_ffff_ffff;

/// The set with the two halves of each block exchanged, where a half has so many numbers.
fn exchanged(bits: u128, half: u32, low: u128) -> u128
    requires some { 0 < half }
    requires small { half < 128 }
    requires low { AreLowHalves half low }
    ensures { (n : ℕ) → n < 128 → has result n ≡ has bits (partner half n) }
{
    ((bits & low) << half) | ((bits >> half) & low)
}

/// The set that has a number where the given one has 127 less it.
pub(crate) fn reversed(bits: u128) -> u128
    ensures { (n : ℕ) → n < 128 → has result n ≡ has bits (127 - n) }
{
    let twos = exchanged(bits, 1, LOW_OF_2);
    let fours = exchanged(twos, 2, LOW_OF_4);
    let eights = exchanged(fours, 4, LOW_OF_8);
    let bytes = exchanged(eights, 8, LOW_OF_16);
    let words = exchanged(bytes, 16, LOW_OF_32);
    let quarters = exchanged(words, 32, LOW_OF_64);
    exchanged(quarters, 64, LOW_OF_128)
}
