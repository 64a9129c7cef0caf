//! The phases of the two nodes, as QEMU's postcopy document has them (docs/devel/migration/postcopy.rst, "Postcopy states" and
//! "Postcopy recovery"), and how far a migration has come.

/// The phases of the source.
#[derive(Clone, Copy, Debug, PartialEq, Eq)]
pub enum SourcePhase {
    /// No migration has begun.
    Idle,
    /// A migration has begun, and the source runs the processors.
    Precopy,
    /// The source has stopped its processors for good, and sends what is owed.
    Stopped,
    /// The source has noticed that the channel is broken, and has not taken a Recv since.
    Paused,
    /// The migration is complete, and the source has released its memory.
    Released,
}

/// The phases of the destination.
#[derive(Clone, Copy, Debug, PartialEq, Eq)]
pub enum DestPhase {
    /// It knows of no migration.
    Idle,
    /// It keeps the copies of pages that come.
    Advised,
    /// It has dropped the copies that are out of date, and waits for the package.
    Discarding,
    /// It runs the processors.
    Running,
    /// It has noticed that the channel is broken, and has not taken a Resume since. If it has run the processors, they continue.
    Paused,
    /// It runs the processors, and nothing more comes.
    Ended,
}

/// How far the destination had come when the channel broke.
#[derive(Clone, Copy, Debug, PartialEq, Eq)]
pub enum Received {
    /// It has not run the processors.
    NotRun,
    /// It has run the processors, and may still be owed pages.
    Running,
    /// It has taken End, so nothing more is sent.
    Ended,
}

/// How far a migration has come.
#[derive(Clone, Copy, Debug, PartialEq, Eq)]
pub enum WorldPhase {
    /// No migration was started.
    Idle,
    /// The source runs the processors, and sends its memory in rounds.
    Precopy,
    /// The source has stopped and the destination does not run yet.
    Switching,
    /// The destination runs the processors.
    Postcopy,
    /// The destination alone holds the memory.
    Complete,
}
