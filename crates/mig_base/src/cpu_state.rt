//! The state of a processor of the guest.

use crate::{Command, Reply};

/// The state of a processor of the guest.
#[derive(Clone, Copy, Debug, PartialEq, Eq)]
pub enum CpuState {
    /// It has no command under way.
    Idle,
    /// It sleeps on the page of a load or a store.
    Asleep(Command),
    /// It was woken, and has to try its load or store again.
    Woken(Command),
    /// It is in a map call, which returns `reply` once `left` more of its messages have been read.
    InCall { reply: Reply, left: u8 },
}
