//! Where the lines of an input end: the one reader of line feeds.
//!
//! [`Lines`] goes over the lines of some bytes, [`first_line`] is the first of them, and [`text_of`] what a line says. What reads an input
//! in pieces goes over the lines of each piece.
//!
//! The crate owns no state. It knows no language, and no limit of a line.
#![tactic(auto)]

mod lines;

pub use crate::lines::{Line, Lines, first_line, text_of, without_return};
