//! `Source`, call by call. No wire: the frames that it sends are looked at, and those that come back are handed to it.

mod asked;
mod breaks;
pub mod calls;
mod phases;
mod play;
mod rebuilds;
mod rounds;
mod runs;
