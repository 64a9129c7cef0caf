//! The type that callers see: the destination of a migration.

ghost use Rattle.std.specs.Prelude.{◌≡◌, ◌↔◌, true, false, length, IfOk, Err};
ghost use Rattle.mig_model.specs.Destination as machine;
ghost use Rattle.vcpu.specs.Answers.{is_count};
ghost use Rattle.mig_model.specs.Bounds.{AreFewPages, AreListed};
ghost use Rattle.mig_model.specs.Owed.{origins};
ghost use Rattle.fault_handler.specs.Requests.{StandOnce};

mod commands;
mod frames;
mod handler;
mod installs;
mod laws;
mod recovery;

use crate::arrival::{Arrival, are_same_arrivals, copy_arrivals};
use crate::kept::Kept;
use crate::requests::Requests;
use mig_base::phase::DestPhase;
use mig_base::{NoMemory, PageNo};
use owed_pages::Owed;
use std::alloc::Global;
use std::collections::VecDeque;
use std::marker::Model;
use uffd_ioctl::{PageFault, Space, are_same_faults, copy_faults};
use vcpu::{Cpus, NewFault};

/// The destination of a migration.
///
/// A call that is refused changes nothing. If several refusals apply, the first counts, in the order of
/// [`mig_base::refusal::Refusal`] or of [`mig_base::fault::TakeFault`]. `NoMemory` comes after all others, and the same call may
/// succeed later.
#[derive(Drop)]
pub struct Destination {
    alloc: Global,
    phase: DestPhase,
    has_run: bool,
    ended: bool,
    epoch: u32,
    kept: Kept,
    space: Space,
    cpus: Cpus,
    held: VecDeque<PageFault>,
    owed: Owed,
    requests: Requests,
    arrivals: VecDeque<Arrival>,
    urgent_taken: u64,
    installed: u64,
    dropped: u64,
    faults: u64,
}

impl Model for Destination {
    ghost use Rattle.mig_model.specs.Destination as machine;
    ghost use Rattle.fault_handler.specs.Codes.{coded_destination};
    ghost use Rattle.fault_handler.specs.Order.{HasPages, IsInOrder};

    ghost Value = { machine.Destination };

    ghost coded = { coded_destination };

    ghost view = { λ d. record { phase = d.phase; has_run = d.has_run; ended = d.ended; epoch = d.epoch; kept = d.kept; guest = record { space = d.space; cpus = d.cpus }; held = d.held.items; owed = d.owed; requests = d.requests; arrivals = d.arrivals.items; urgent_taken = d.urgent_taken; installed = d.installed; dropped = d.dropped; faults = d.faults } };

    ghost invariant = { λ d. IsInOrder d.has_run d.space d.owed × HasPages d.owed d.requests };
}

impl Destination {
    /// A destination of `cpus` idle processors, with no migration and nothing mapped. `NoCpu` is returned unless there are 1 to 16 processors,
    /// and then `NoMemory` if memory is refused.
    pub fn new(alloc: Global, cpus: u8) -> Result<Self, NewFault>
        ensures ok { IfOk result (λ destination. destination ≡ machine.first_destination cpus) }
        ensures no_cpu { (result ≡ Err NewFault.NoCpu) ↔ (is_count cpus ≡ false) }
    {
        let cpus = Cpus::new(alloc, cpus)?;
        Ok(Destination {
            alloc,
            phase: DestPhase::Idle,
            has_run: false,
            ended: false,
            epoch: 0,
            kept: Kept::new(alloc),
            space: Space::new(alloc),
            cpus,
            held: VecDeque::new(alloc),
            owed: Owed::empty(alloc),
            requests: Requests::new(alloc),
            arrivals: VecDeque::new(alloc),
            urgent_taken: 0,
            installed: 0,
            dropped: 0,
            faults: 0,
        })
    }

    /// An equal destination, in memory of its own. `NoMemory` if that cannot be allocated.
    pub fn copy(&self) -> Result<Self, NoMemory>
        ensures { IfOk result (λ copy. copy ≡ self.now) }
    {
        let held = copy_faults(self.alloc, &self.held)?;
        let requests = self.requests.copy(self.alloc)?;
        let arrivals = copy_arrivals(self.alloc, &self.arrivals)?;
        let cpus = self.cpus.copy()?;
        let owed = self.owed.copy()?;
        let kept = self.kept.copy()?;
        Ok(Destination {
            alloc: self.alloc,
            phase: self.phase,
            has_run: self.has_run,
            ended: self.ended,
            epoch: self.epoch,
            kept,
            space: self.space.duplicate()?,
            cpus,
            held,
            owed,
            requests,
            arrivals,
            urgent_taken: self.urgent_taken,
            installed: self.installed,
            dropped: self.dropped,
            faults: self.faults,
        })
    }

    /// Whether both destinations are the same: their progress, their guests, the pages and faults that they hold or owe, and their counts.
    pub fn is_same(&self, other: &Self) -> bool
        ensures { (result ≡ true) ↔ (self.now ≡ other.now) }
    {
        self.phase == other.phase
            && self.has_run == other.has_run
            && self.ended == other.ended
            && self.epoch == other.epoch
            && self.urgent_taken == other.urgent_taken
            && self.installed == other.installed
            && self.dropped == other.dropped
            && self.faults == other.faults
            && self.cpus.is_same(&other.cpus)
            && are_same_faults(&self.held, &other.held)
            && self.requests.is_same(&other.requests)
            && self.owed.is_same(&other.owed)
            && are_same_arrivals(&self.arrivals, &other.arrivals)
            && self.kept.is_same(&other.kept)
            && self.space.is_same(&other.space)
    }

    /// Its phase.
    pub fn phase(&self) -> DestPhase
        ensures { result ≡ self.now.phase }
    {
        self.phase
    }

    /// Whether it has taken a Package: the processors run here from then on, also once it is paused or ended.
    pub fn has_run(&self) -> bool
        ensures { result ≡ self.now.has_run }
    {
        self.has_run
    }

    /// The epoch of the last Advise or Resume that it took, and 0 before the first.
    pub fn epoch(&self) -> u32
        ensures { result ≡ self.now.epoch }
    {
        self.epoch
    }

    /// The owed table: the pages that it still has to get, each with its page at the source.
    pub fn owed(&self) -> &Owed
        ensures owed { result.now ≡ self.now.owed }
        ensures few { AreFewPages (origins self.now.owed) }
    {
        &self.owed
    }

    /// The pages of the source that it has requested and not installed yet, each once, in the order of their requests.
    pub fn requests(&self) -> &[PageNo]
        ensures pages { result.now ≡ self.now.requests }
        ensures once { StandOnce self.now.requests }
        ensures mapped { AreListed self.now.requests }
    {
        self.requests.as_slice()
    }

    /// The address space of its guest.
    pub fn space(&self) -> &Space
        ensures { result.now ≡ self.now.guest.space }
    {
        &self.space
    }

    /// The processors of its guest.
    pub fn cpus(&self) -> &Cpus
        ensures { result.now ≡ self.now.guest.cpus }
    {
        &self.cpus
    }

    /// The number of copies that wait to be installed.
    pub fn arrivals(&self) -> usize
        ensures { result ≡ length self.now.arrivals }
    {
        self.arrivals.len()
    }

    /// The number of copies that were installed. It stops at its greatest value.
    pub fn installed(&self) -> u64
        ensures { result ≡ self.now.installed }
    {
        self.installed
    }

    /// The number of copies that were dropped, since their pages were owed nowhere. It stops at its greatest value.
    pub fn dropped(&self) -> u64
        ensures { result ≡ self.now.dropped }
    {
        self.dropped
    }

    /// The number of page faults that were read. It stops at its greatest value.
    pub fn faults(&self) -> u64
        ensures { result ≡ self.now.faults }
    {
        self.faults
    }
}
