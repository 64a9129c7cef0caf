//! Tests of frames: which are well formed, and the texts that `page_stream` writes; what `frame_decoder` reads; and the bytes in flight
//! (`wires`).
//!
//! A test is a table of frames or calls with the bytes or answers that are wanted, worked out by hand, and one loop plays it. Where memory
//! is refused it looks that nothing has changed, and makes the call again. So a test passes whichever allocation is refused.
#![tactic(auto)]

#[cfg(test)]
mod decoder;
#[cfg(test)]
mod parts;
#[cfg(test)]
mod texts;
#[cfg(test)]
mod well_formed;
#[cfg(test)]
mod wire;
