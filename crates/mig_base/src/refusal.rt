//! Why a step of a migration is refused.

ghost use Rattle.std.specs.Prelude.{◌≡◌};

use crate::NoMemory;

/// Why a step is refused. A refused step changes nothing. If several reasons apply, the first of this list is given, and `NoMemory` comes
/// last. The numbers are fixed names of the reasons and not that order: 17 comes between 11 and 12. One exception to the order: a Deliver
/// needs memory to read the frame that it completes, so it may return `NoMemory` before `InstallFirst` and `UrgentFirst`.
#[derive(Clone, Copy, Debug, PartialEq, Eq)]
pub enum Refusal {
    /// The guest has no such processor.
    NoCpu = 1,
    /// The processor has a command under way already.
    Busy = 2,
    /// The processor has no load or store to retry.
    NotAsleep = 3,
    /// The processor still sleeps.
    NotWoken = 4,
    /// A node is not in a phase that allows the step.
    Phase = 5,
    /// The channel is broken.
    Broken = 6,
    /// The channel is not broken.
    NotBroken = 7,
    /// The ticket is of another epoch.
    StaleEpoch = 8,
    /// There is no frame, page, message, fault, copy or request for the step to take.
    NothingThere = 9,
    /// An event of the address space is unread.
    Changing = 10,
    /// A copy that has arrived has to be installed first.
    InstallFirst = 11,
    /// Frames of the urgent wire have to be taken first.
    UrgentFirst = 17,
    /// The source does not have the page.
    PageNotSendable = 12,
    /// The page is not owed, or was pushed in this epoch.
    NotRemaining = 13,
    /// Owed pages are still to be pushed.
    PagesLeft = 14,
    /// A count is at its greatest value.
    CountUsed = 15,
    /// Out of memory: an allocation failed.
    NoMemory = 16,
}

impl From<NoMemory> for Refusal {
    ghost use Rattle.mig_base.specs.declared.refusal.Refusal.{Refusal};

    ghost from_gives = { λ _ refusal. refusal ≡ Refusal.NoMemory };

    fn from(_refused: NoMemory) -> Self {
        Refusal::NoMemory
    }
}
