//! What is joined on a board, beside walks from cell to cell; and the text of a template.
//!
//! The contracts of hx_board say what each call answers. They do not say that their definitions mean what Hex means. So
//! the plain programs of hx_test_support, which walk by rows and columns, are held against its calls here, on tables.
//! The test stands in a crate of its own, so that hx_board and hx_test_support, on which other crates stand, are proved
//! once. So it is with hx_template_text, whose reader is tried on one text, and on texts that are wrong in one line.
#![tactic(auto)]

#[cfg(test)]
mod templates;
#[cfg(test)]
mod walks;
