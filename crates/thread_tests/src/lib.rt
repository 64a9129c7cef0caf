//! Tests of what threads share: claims of pages (`pusher`), a world under one lock (`rig`), whole runs in threads (`threads`), and the
//! guest of `docs/THREADS.md`.
//!
//! The answers that are wanted were worked out by hand. Where memory is refused the call is made again, so a test passes whichever
//! allocation is refused.
#![tactic(auto)]

#[cfg(test)]
mod claims;
#[cfg(test)]
mod rigs;
#[cfg(test)]
mod runs;
#[cfg(test)]
mod two_processors;
#[cfg(test)]
mod writers;
