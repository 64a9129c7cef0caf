//! Pictures: what a run did, or operations on a line of ticks, painted on a sheet of SVG.
//!
//! [`paint_timeline`] paints a [`Timeline`], and [`paint`] a [`Record`]. `rows` and `band` find which pages share a row, and the stretches
//! of columns in which a row stays the same. `plan` says where everything is, and `picture` draws it with the `pen` on a `sheet`. `class`
//! has the names of the style sheet, and `memory` notes where memory ran out. `docs/DRAW.md` says what each colour and each mark means.
//!
//! A `sheet` is an element tree that is written as it grows. Elements are opened and closed and text is written in any order; at the end
//! the sheet closes what is still open. So its text is always that of a tree of elements: each is closed, and each text and each value of
//! an attribute is escaped (`escape`, `laws`). `specs/Trees.antt` defines that text. `name` has the names of elements and attributes, and
//! `tags` writes their tags.
//!
//! The crate knows no world: who records a run is its caller.
#![tactic(auto)]

mod band;
mod class;
mod escape;
pub mod laws;
mod memory;
mod name;
mod pen;
mod picture;
mod plan;
pub mod record;
mod rows;
mod sheet;
pub mod state;
mod tags;
mod text;
mod waits;

pub use crate::picture::paint;
pub use crate::picture::timeline::{Bar, Timeline, paint_timeline};
pub use crate::record::Record;
pub use crate::state::State;
