//! Proofs that a search stores: nodes that are made of what is certain at that moment.
//!
//! Each is made of a chain, of a live link, or of entries that are looked up in the list of proofs. So it is right
//! whatever the search believes of the position, and nothing that a search remembers is in a proof.
#![tactic(auto, using(hx_book::proofs::SightLaws::growth))]

mod answers;
mod chains;
mod fills;
mod lines;
mod links;
mod moves;
mod stored;
mod turns;

pub use answers::store_answers;
pub use chains::store_chain;
pub use fills::store_fill;
pub use lines::line_among;
pub use links::store_links;
pub use moves::store_move;
pub use stored::{Stored, store};
pub use turns::store_turned;
