//! The text of a template: two ends, the cells in which a player is to join them, and who moves first; read exactly.
#![tactic(auto)]

mod laws;
mod lines;
mod reading;
mod templates;

pub use laws::{one_faulty_line, template_text_has_no_fault, text_tells_template};
pub use reading::read_template;
pub use templates::Template;
