//! A node by a chain, and its offer.

ghost use Rattle.std.specs.Prelude.{◌≡◌};
ghost use Rattle.hx_tree.specs.declared.nodes.Rule.TheVariants.{Chain};

use hx_board::{Colour, Position};
use hx_packed::Offer;
use hx_tree::{Heading, Node, Rule};

pub(crate) fn by_chain(position: Position, to_move: Colour, winner: Colour) -> Node
    ensures { result ≡ record {
      heading = record { position = position; to_move = to_move; winner = winner };
      rule = Chain;
    } }
{
    let heading = Heading {
        position,
        to_move,
        winner,
    };
    let rule = Rule::Chain;
    Node { heading, rule }
}

pub(crate) fn offer_by_chain(position: Position, to_move: Colour, winner: Colour) -> Offer
    ensures { result ≡ record {
      heading = record { position = position; to_move = to_move; winner = winner };
      rule = Chain;
    } }
{
    match Offer::of(by_chain(position, to_move, winner)) {
        Ok(offer) => offer,
        Err(_) => unreachable!(),
    }
}
