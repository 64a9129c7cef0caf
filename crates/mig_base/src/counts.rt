//! What a migration counts.

/// The counts of a world. `rounds` begins at the number with which the world was made. No break and no resumption resets a count. Counts
/// of 64 bits stop at their greatest value.
#[derive(Clone, Copy, Debug, PartialEq, Eq)]
pub struct Counts {
    /// Rounds of pre-copy made.
    pub rounds: u32,
    /// Pages that the source has sent, on either wire.
    pub sent: u64,
    /// Copies that the destination has installed.
    pub installed: u64,
    /// Copies that the destination has dropped.
    pub dropped: u64,
    /// Page faults that the handlers of both nodes have read.
    pub faults: u64,
}
