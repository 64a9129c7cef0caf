//! Tests of tools above `engine` over readers and writers that take pieces or fail, and with memory refused: `listings` of `lint`, `taps` of
//! `wiretap`, `explorations` of `explore`, `expectations` of `expected`, and `finishes` of `finishing`. What the tools write of whole inputs
//! is compared on the program, by `bench/check/programs.py`. `faults` has the texts of all faults, also of the crates below.
//!
//! A test is a table of inputs with what is wanted of them, and one loop plays it. Where memory is refused the call is made again, so a
//! test passes whichever allocation is refused. The modules share one crate, since the gate reads and links all libraries once for each
//! crate of tests.
#![tactic(auto)]

#[cfg(test)]
mod expectations;
#[cfg(test)]
mod explorations;
#[cfg(test)]
mod faults;
#[cfg(test)]
mod finishes;
#[cfg(test)]
mod listings;
#[cfg(test)]
mod taps;
