//! Tests of a guest on one host: address spaces and the calls of userfaultfd(2) (`uffd_ioctl`), the host on which a transcript is checked
//! (`hosts`), commands of processors (`guest`), messages (`vcpu`), and the log of the pages that are sent (`dirty_log`).
//!
//! A test is a table of calls with the answers that are wanted, worked out by hand. One loop for each type plays a table; where a call
//! is refused it looks that the object is as before, and where memory was refused it makes the call again. So a test passes
//! whichever allocation is refused.
#![tactic(auto)]

#[cfg(test)]
mod assembled;
#[cfg(test)]
mod commands;
#[cfg(test)]
mod dirty_logs;
#[cfg(test)]
mod handlers;
#[cfg(test)]
mod lent;
#[cfg(test)]
mod map_calls;
#[cfg(test)]
mod moves;
#[cfg(test)]
mod objects;
#[cfg(test)]
mod parts;
#[cfg(test)]
mod spaces;
