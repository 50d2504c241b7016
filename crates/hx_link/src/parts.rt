//! The list of places that an Or names. Contracts see it as the list of its items.

ghost use Rattle.std.specs.Prelude.{◌≡◌, nat_eq};
ghost use Rattle.std.specs.Cmp.{partial_equiv_from_equiv};
ghost use Rattle.std.specs.Cmp.Lexicographic.{pointwise, nat_list_eq_equiv};

use smallvec::SmallVec;
use std::marker::Model;

/// The most parts that an Or unites.
pub const MOST_PARTS: usize = 128;

/// The places of the links that an Or unites, in the order in which they are given.
#[derive(Debug, Drop)]
pub struct Parts {
    items: SmallVec<u32, 8>,
}

impl Model for Parts {
    ghost use Rattle.std.specs.Prelude.{List, ℕ};

    ghost Value = { List ℕ };

    ghost view = { λ p. p.items.items };
}

impl Parts {
    /// The list of these places.
    pub fn new(items: SmallVec<u32, 8>) -> Parts
        ensures { result ≡ items.items }
    {
        Parts { items }
    }

    /// The places, in their order.
    pub fn items(&self) -> &[u32]
        ensures { result.now ≡ self.now }
    {
        self.items.as_slice()
    }

    /// The vector of the places.
    pub fn into_inner(self) -> SmallVec<u32, 8>
        ensures { result.items ≡ self }
    {
        self.items
    }
}

impl PartialEq for Parts {
    ghost eq = { pointwise nat_eq };

    ghost laws = { partial_equiv_from_equiv nat_list_eq_equiv };

    fn eq(&self, other: &Parts) -> bool {
        self.items() == other.items()
    }
}

impl Eq for Parts {
    ghost laws = { nat_list_eq_equiv };
}
