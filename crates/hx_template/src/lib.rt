//! Local games decided: whether a player can join two vertices by moves to a few cells, whatever the opponent plays
//! there.
//!
//! What the two players fill the cells with is a board with a number, and what was found of that number is kept in a
//! table, so each such board is judged once. The answer is exact, for a yes and for a no.
//!
//! Each question makes its table anew. For twelve cells that has 531,441 entries, which is within the 0.2 to 4.6
//! milliseconds that such questions were measured to take.
#![tactic(auto)]

mod games;
mod laws;
mod locals;
mod reaches;
mod searches;

pub use games::MOST_CELLS;
pub use laws::most_cells_are_twelve;
pub use locals::local;
