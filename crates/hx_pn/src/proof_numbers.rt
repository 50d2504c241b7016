//! The numbers of a node.
//!
//! Proof numbers are Allis's. They stand here as Nagai writes them for his depth-first search, df-pn: seen from the
//! player who is to move, phi is what he must prove to win and delta what the opponent must, so that one rule serves
//! both players.

ghost use Rattle.std.specs.Prelude.{◌≡◌, ◌≤◌, ◌↔◌, IsTrue};
ghost use Rattle.std.specs.List.{All};
ghost use Rattle.hx_pn.specs.Numbers.{IsNumbers, phi_of, delta_of, focus_of, worse_of};

/// The number of what cannot be proved.
pub const INF: u32 = 2_147_483_647;

/// How much is at least to be proved yet for the mover to win, and for the opponent. Both are at most `INF`.
#[derive(Clone, Copy, PartialEq, Eq, Debug)]
pub struct Numbers {
    pub phi: u32,
    pub delta: u32,
}

/// The numbers that stand for a position that nobody looked at yet: for each player as much is to be proved as there
/// can be in a position whose winner is not known.
pub const UNSEEN: Numbers = Numbers {
    phi: INF - 1,
    delta: INF - 1,
};

impl Numbers {
    /// Whether these are the numbers of a position that nobody looked at yet.
    pub fn is_unseen(self) -> bool
        ensures { IsTrue result ↔ (self ≡ UNSEEN) }
    {
        self == UNSEEN
    }
}

/// The numbers of a node with these children, each seen from its own mover: phi is the least delta of a child, and
/// delta the sum of the children's phi, which stops at `INF`. Without children the mover has lost: phi is `INF` and
/// delta 0.
pub fn combine(children: &[Numbers]) -> Numbers
    requires { All IsNumbers children.now }
    ensures value { result ≡ record { phi = phi_of children.now; delta = delta_of children.now } }
    ensures numbers { IsNumbers result }
{
    let mut phi = INF;
    let mut delta = 0;
    for child in children {
        phi = phi.min(child.delta);
        delta = (delta + child.phi).min(INF);
    }
    Numbers { phi, delta }
}

/// How many of so many live children are looked at: the first quarter, rounded up, and one more.
pub fn focus(live: u32) -> u32
    ensures { result ≡ focus_of live }
{
    let quarter = live / 4;
    let rounded = if live % 4 == 0 { quarter } else { quarter + 1 };
    live.min(rounded + 1)
}

/// The numbers of a child that so many workers hold: it looks as if its delta were larger by their number.
pub fn worse(numbers: Numbers, holders: u64) -> Numbers
    requires { IsNumbers numbers }
    ensures value { result ≡ worse_of numbers holders }
    ensures numbers { IsNumbers result }
{
    let delta = u64::from(numbers.delta).saturating_add(holders);
    Numbers {
        phi: numbers.phi,
        delta: delta.min(u64::from(INF)) as u32,
    }
}
