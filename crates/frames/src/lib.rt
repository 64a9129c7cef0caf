//! A stream of frames, handed to one destination.
//!
//! [`run_frames`] reads a stream of frames of either version, hands each to a new destination, and writes a line for each: what the
//! destination took, or why it refused the frame. Frames that the destination sends back are dropped. A [`FramesFault`] says what ended
//! the stream early. `specs/Answers.antt` defines the answers of a destination to frames, and `specs/Endings.antt` the output for a whole
//! stream. `docs/SCRIPT.md` has the lines, and `docs/FORMATS.md` the frames.
//!
//! The crate names no file, no command line and no exit status: readers and writers are its callers'.
#![tactic(auto)]

mod fault;
mod print;
mod reader;
mod run;
mod taker;

pub use crate::fault::FramesFault;
pub use crate::run::run_frames;
