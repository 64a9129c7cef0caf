//! How the finishing of a script ends.

/// How it ends without a fault.
#[derive(Clone, Copy, Debug, PartialEq, Eq)]
pub enum Ending {
    /// The lines that were written complete the migration.
    Complete,
    /// The migration needs a Start or a Resume, and the epoch is the last. Nothing is written.
    NoEpoch,
}
