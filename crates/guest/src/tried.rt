//! The result of a command.

use mig_base::Entry;
use mig_base::effect::Effect;

/// The result of a command that was begun or tried again.
#[derive(Clone, Copy, Debug, PartialEq, Eq)]
pub struct Tried {
    /// The effect of the step.
    pub effect: Effect,
    /// Its entry in the transcript, `None` if the processor sleeps. A map call that continues has its entry at once.
    pub entry: Option<Entry>,
}
