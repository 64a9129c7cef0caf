//! `Destination`, call by call. No wire: frames are handed to it, and those that it answers are looked at.

mod bad_frames;
mod breaks;
mod calls;
mod phases;
pub mod play;
mod stories;
