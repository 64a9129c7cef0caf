//! Tests of lines and of what reads them: what lines say, and how outcomes and progress are printed (`grammar`); and readers and writers
//! that take pieces, fail or stop, lines at the limit of their length, and a hundred thousand reads (`engine` and `frames`).
//!
//! A test is a table of texts or cases with what is wanted of them, and one loop plays it. Where memory is refused the call is made again,
//! so a test passes whichever allocation is refused. What a script or a transcript prints that is read and written whole is a story of the
//! crate `stories`.
#![tactic(auto)]

#[cfg(test)]
mod entries;
#[cfg(test)]
mod many;
#[cfg(test)]
mod outcomes;
#[cfg(test)]
mod pieces;
#[cfg(test)]
mod script_lines;
#[cfg(test)]
mod streams;
