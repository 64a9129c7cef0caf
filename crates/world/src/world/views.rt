//! The getters of a world.

ghost use Rattle.std.specs.Prelude.{◌≡◌, ◌≤◌, length, IfOk};
ghost use Rattle.std.specs.Option.{option_map};
ghost use Rattle.mig_base.specs.declared.phase.WorldPhase.{WorldPhase};
ghost use Rattle.mig_model.specs.Guest.{counted};
ghost use Rattle.mig_model.specs.Source.{not_clean};
ghost use Rattle.mig_base.specs.Userfault.{changing, next_message};
ghost use Rattle.mig_model.specs.Views as views;
ghost use Rattle.world.specs.Answers.{has_sent_end, in_flight_len};
ghost use Rattle.world.specs.Headline.{IsMoved};

use super::World;
use crate::parts::bytes_on;
use dirty_log::DirtyLog;
use mig_base::counts::Counts;
use mig_base::cpu_state::CpuState;
use mig_base::phase::{DestPhase, SourcePhase};
use mig_base::refusal::Refusal;
use mig_base::{MAX_CPUS, Message, NoMemory, PageNo, PageSet, WorldPhase};
use owed_pages::Owed;
use uffd_ioctl::Space;
use wires::Wire;

impl World {
    /// How far the migration has come, whether or not its channel is broken.
    pub fn phase(&self) -> WorldPhase
        ensures phase { result ≡ views.phase_of self.now }
        ensures complete { result ≡ WorldPhase.Complete → IsMoved self.now }
    {
        match self.parts.source.phase() {
            SourcePhase::Released => WorldPhase::Complete,
            _ if self.parts.destination.has_run() => WorldPhase::Postcopy,
            _ if self.parts.source.has_switched() => WorldPhase::Switching,
            SourcePhase::Idle => WorldPhase::Idle,
            _ => WorldPhase::Precopy,
        }
    }

    /// The number of owed pages: once the destination has run, those that it still needs; before, those that the last Package owed, and 0
    /// before the switch.
    pub fn owed_left(&self) -> u32
        ensures { result ≡ views.owed_left self.now }
    {
        if self.parts.destination.has_run() {
            self.parts.destination.owed().len()
        } else {
            self.parts.source.packaged()
        }
    }

    /// The rounds made, the pages sent, the copies installed and dropped, and the page faults read at both nodes.
    pub fn counts(&self) -> Counts
        ensures { result ≡ views.counts_of self.now }
    {
        let source = &self.parts.source;
        let destination = &self.parts.destination;
        Counts {
            rounds: source.rounds(),
            sent: source.pages_sent(),
            installed: destination.installed(),
            dropped: destination.dropped(),
            faults: source.faults().saturating_add(destination.faults()),
        }
    }

    /// The epoch of the source. A push names the epoch for which it was decided.
    pub fn epoch(&self) -> u32
        ensures { result ≡ self.now.source.epoch }
    {
        self.parts.source.epoch()
    }

    /// The owed pages that were not sent yet in this epoch.
    pub fn remaining(&self) -> &PageSet
        ensures { result.now ≡ self.now.source.remaining }
    {
        self.parts.source.remaining()
    }

    /// The phase of the source.
    pub fn source_phase(&self) -> SourcePhase
        ensures { result ≡ self.now.source.phase }
    {
        self.parts.source.phase()
    }

    /// The wire to the destination, which lends the bytes of its frames.
    pub fn forward(&self) -> &Wire
        ensures { result.now.wire ≡ self.now.forward }
    {
        &self.parts.forward
    }

    /// The wire back to the source.
    pub fn back(&self) -> &Wire
        ensures { result.now.wire ≡ self.now.back }
    {
        &self.parts.back
    }

    /// The urgent wire to the destination, for pages that were requested.
    pub fn urgent(&self) -> &Wire
        ensures { result.now.wire ≡ self.now.urgent }
    {
        &self.parts.urgent
    }

    /// Whether the link between the nodes is up.
    pub fn is_up(&self) -> bool
        ensures { result ≡ self.now.up }
    {
        self.parts.up
    }

    /// How far the destination is.
    pub fn destination_phase(&self) -> DestPhase
        ensures { result ≡ self.now.destination.phase }
    {
        self.parts.destination.phase()
    }

    /// Whether the source has stopped, and has sent End in its epoch.
    pub fn has_sent_end(&self) -> bool
        ensures { result ≡ has_sent_end self.now.source }
    {
        self.parts.has_sent_end()
    }

    /// How many events of map calls the source's handler has not read yet. While there are any, steps are refused as `Changing`.
    pub fn source_events(&self) -> usize
        ensures { result ≡ changing self.now.source.guest.space.object }
    {
        self.parts.source.space().changing()
    }

    /// The same at the destination.
    pub fn destination_events(&self) -> usize
        ensures { result ≡ changing self.now.destination.guest.space.object }
    {
        self.parts.destination.space().changing()
    }

    /// The message that the source's handler reads next, a page fault or an event, if one waits.
    pub fn source_message(&self) -> Option<Message>
        ensures { result ≡ option_map (λ noted.
            noted.message) (next_message self.now.source.guest.space.object) }
    {
        self.parts.source.space().next_message()
    }

    /// The same at the destination.
    pub fn destination_message(&self) -> Option<Message>
        ensures { result ≡ option_map (λ noted.
            noted.message) (next_message self.now.destination.guest.space.object) }
    {
        self.parts.destination.space().next_message()
    }

    /// How many faults the source's handler has read and not resolved yet.
    pub fn source_held(&self) -> usize
        ensures { result ≡ length self.now.source.log.held }
    {
        self.parts.source.log().held()
    }

    /// How many copies wait at the destination to be installed.
    pub fn arrivals(&self) -> usize
        ensures { result ≡ length self.now.destination.arrivals }
    {
        self.parts.destination.arrivals()
    }

    /// The pages of the source that the destination has asked for and not got, in the order in which it first asked.
    pub fn requests(&self) -> &[PageNo]
        ensures { result.now ≡ self.now.destination.requests }
    {
        self.parts.destination.requests()
    }

    /// How many requests have reached the source and were not served yet.
    pub fn asked(&self) -> usize
        ensures { result ≡ length self.now.source.asked }
    {
        self.parts.source.asked()
    }

    /// The present pages of the source that are not clean, as a set of its own: those that a round would have to send, and a Switch
    /// would owe. `NoMemory` where there is no room for the set.
    pub fn dirty_pages(&self) -> Result<PageSet, NoMemory>
        ensures { IfOk result (λ pages. pages ≡ not_clean self.now.source) }
    {
        self.parts.source.log().dirty(self.parts.source.space())
    }

    /// The address space of the guest at the source.
    pub fn source_space(&self) -> &Space
        ensures { result.now ≡ self.now.source.guest.space }
    {
        self.parts.source.space()
    }

    /// The same at the destination.
    pub fn destination_space(&self) -> &Space
        ensures { result.now ≡ self.now.destination.guest.space }
    {
        self.parts.destination.space()
    }

    /// What the source knows of its pages: which are clean, and which were sent in this epoch.
    pub fn dirty_log(&self) -> &DirtyLog
        ensures { result.now ≡ self.now.source.log }
    {
        self.parts.source.log()
    }

    /// The pages that the destination still needs, each with its page at the source.
    pub fn owed(&self) -> &Owed
        ensures { result.now ≡ self.now.destination.owed }
    {
        self.parts.destination.owed()
    }

    /// The number of bytes of the frames in flight to the destination, those of the first that have come among them: a header of 12
    /// bytes and a body each. The count stops at its greatest value.
    pub fn forward_bytes(&self) -> u64
        ensures { result ≡ counted 0 (in_flight_len self.now.forward.frames) }
    {
        bytes_on(&self.parts.forward)
    }

    /// The same of the wire back.
    pub fn back_bytes(&self) -> u64
        ensures { result ≡ counted 0 (in_flight_len self.now.back.frames) }
    {
        bytes_on(&self.parts.back)
    }

    /// The same of the urgent wire.
    pub fn urgent_bytes(&self) -> u64
        ensures { result ≡ counted 0 (in_flight_len self.now.urgent.frames) }
    {
        bytes_on(&self.parts.urgent)
    }

    /// The number of processors of the guest.
    pub fn cpus(&self) -> u8
        ensures count { result ≡ length self.now.source.guest.cpus }
        ensures range { (1 ≤ result) × (result ≤ MAX_CPUS) }
    {
        self.parts.source.cpus().count()
    }

    /// The state of a processor, at the destination once that has run, and at the source before. `NoCpu` if there is no such processor.
    pub fn cpu_state(&self, cpu: u8) -> Result<CpuState, Refusal>
        ensures { result ≡ views.cpu_state self.now cpu }
    {
        self.parts.cpus().state(cpu)
    }
}
