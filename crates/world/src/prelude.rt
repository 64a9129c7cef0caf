//! The names that a driver of a world needs: `use world::prelude::{Step, World}`.

pub use crate::world::World;
pub use mig_base::command::{Command, Place};
pub use mig_base::counts::Counts;
pub use mig_base::cpu_state::CpuState;
pub use mig_base::effect::Effect;
pub use mig_base::phase::{DestPhase, Received, SourcePhase, WorldPhase};
pub use mig_base::refusal::Refusal;
pub use mig_base::schedule::{Side, Step, Ticket};
pub use mig_base::{
    Addr, Entry, Errno, MAX_CPUS, Message, NoMemory, PAGE_SIZE, PageNo, PageSet, Prot, Reply,
};
