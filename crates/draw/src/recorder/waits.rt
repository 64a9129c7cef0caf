//! Processors: which of them wait, and who must act.

use super::tracks::note;
use super::{Recorder, include, page_of};
use diagram::State;
use diagram::record::Change;
use mig_base::cpu_state::CpuState;
use mig_base::phase::{DestPhase, SourcePhase};
use mig_base::schedule::Side;
use mig_base::{PageNo, PageSet, WorldPhase};

impl Recorder {
    /// Whether the channel is broken, or a node has not gone on since it was.
    fn is_down(&self) -> bool {
        !self.world.is_up()
            || matches!(self.world.destination_phase(), DestPhase::Paused)
            || matches!(self.world.source_phase(), SourcePhase::Paused)
    }

    /// The node that runs the processors.
    pub(super) fn node(&self) -> Side {
        match self.world.phase() {
            WorldPhase::Postcopy | WorldPhase::Complete => Side::Destination,
            _ => Side::Source,
        }
    }

    /// Who must act for a processor that sleeps on a page.
    fn cause(&self, page: PageNo) -> State {
        if matches!(self.world.phase(), WorldPhase::Switching) {
            return State::Stopped;
        }
        if matches!(self.node(), Side::Source) {
            return State::Handler;
        }
        let Some(origin) = self.world.owed().origin(page) else {
            return State::Handler;
        };
        if self.came.contains(origin) {
            State::Install
        } else if self.flying.contains(origin) {
            State::OnWire
        } else if self.is_down() {
            State::NoLink
        } else if self.asking.contains(origin) {
            State::Request
        } else if self.world.requests().contains(&origin) {
            State::AtSource
        } else {
            State::Handler
        }
    }

    /// The state of a processor, and the page for which it waits.
    fn processor(&self, cpu: u8) -> (State, PageNo) {
        match self.world.cpu_state(cpu) {
            Ok(CpuState::Asleep(command)) => {
                let page = page_of(command);
                (self.cause(page), page)
            }
            Ok(CpuState::Woken(command)) => (State::Woken, page_of(command)),
            Ok(CpuState::InCall { .. }) => (State::InCall, 0),
            _ => (State::Blank, 0),
        }
    }

    /// Notes the state of a processor, and the page on which it sleeps at the destination.
    fn watch(&mut self, cpu: u8) {
        let (state, about) = self.processor(cpu);
        let change = Change {
            line: self.line,
            row: u32::from(cpu),
            state,
            about,
        };
        let kept = note(&mut self.record.processors, change).is_ok();
        self.keep(kept);
        let sleeps = !matches!(state, State::Blank | State::Woken | State::InCall);
        if sleeps && matches!(self.node(), Side::Destination) {
            let kept = include(&mut self.sleeping, about);
            self.keep(kept);
        }
    }

    /// Notes the states of all processors.
    pub(super) fn watch_processors(&mut self) {
        self.sleeping = PageSet::new(self.alloc);
        for cpu in 0..self.world.cpus() {
            self.watch(cpu);
        }
    }
}
