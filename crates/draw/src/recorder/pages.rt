//! Pages: what each is at the source and at the destination.

use super::tracks::{note, state_of};
use super::{Before, Recorder, end_of, page_at, page_of};
use area_map::AreaMap;
use diagram::State;
use diagram::record::{Change, Dot, Move};
use mig_base::cpu_state::CpuState;
use mig_base::effect::Effect;
use mig_base::phase::SourcePhase;
use mig_base::schedule::{Side, Step};
use mig_base::{Addr, Area, Command, HIGH_PAGE, Message, NoMemory, PageNo, Reply, WorldPhase};

/// The page after the last area.
fn end_of_areas(areas: &[Area]) -> PageNo {
    match areas.last() {
        Some(last) => last.first.saturating_add(last.count).min(HIGH_PAGE),
        None => 0,
    }
}

impl Recorder {
    /// What a present page of the source is.
    fn present_at_source(&self, page: PageNo) -> State {
        let log = self.world.dirty_log();
        let switched = matches!(
            self.world.phase(),
            WorldPhase::Switching | WorldPhase::Postcopy
        );
        let was = state_of(&self.record.source, page);
        if self.world.remaining().contains(page) {
            State::Unpushed
        } else if switched && matches!(was, State::Unpushed | State::Pushed) {
            // Clean or not, it was owed: the destination may have kept no copy.
            State::Pushed
        } else if log.clean().contains(page) || (switched && matches!(was, State::Clean)) {
            State::Clean
        } else if switched {
            State::Pushed
        } else if log.ever_sent().contains(page) {
            State::Dirty
        } else {
            State::Unsent
        }
    }

    /// What a page of the source is.
    fn page_at_source(&self, page: PageNo) -> State {
        if matches!(self.world.source_phase(), SourcePhase::Released) {
            State::Blank
        } else if self.world.source_space().page(page).is_some() {
            self.present_at_source(page)
        } else if self.source_areas.prot_at(page).is_some() {
            State::Empty
        } else {
            State::Blank
        }
    }

    /// What a missing page of a destination that runs is.
    fn missing_at_destination(&self, page: PageNo) -> State {
        let sleeps = self.sleeping.contains(page);
        match self.world.owed().origin(page) {
            Some(origin) if self.came.contains(origin) => State::Came,
            _ if sleeps => State::SleptOn,
            Some(_) => State::Owed,
            None if self.destination_areas.prot_at(page).is_some() => State::Empty,
            None => State::Blank,
        }
    }

    /// What a page of the destination is.
    fn page_at_destination(&self, page: PageNo) -> State {
        let now = state_of(&self.record.destination, page);
        if matches!(self.node(), Side::Source) {
            return now;
        }
        if self.world.destination_space().page(page).is_none() {
            return self.missing_at_destination(page);
        }
        match now {
            State::Kept => State::InPlace,
            State::InPlace | State::Installed => now,
            _ => State::Made,
        }
    }

    /// Notes the state of a page.
    fn note(&mut self, node: Side, page: PageNo, state: State) {
        let change = Change {
            line: self.line,
            row: page,
            state,
            about: 0,
        };
        let kept = match node {
            Side::Source => note(&mut self.record.source, change).is_ok(),
            Side::Destination => note(&mut self.record.destination, change).is_ok(),
        };
        self.keep(kept);
    }

    /// Asks the world for the pages from `first` on and before `end`, and notes what they are.
    fn look(&mut self, node: Side, first: PageNo, end: PageNo) {
        for page in first..end.min(self.high) {
            let state = match node {
                Side::Source => self.page_at_source(page),
                Side::Destination => self.page_at_destination(page),
            };
            self.note(node, page, state);
        }
    }

    /// Asks for one page.
    fn look_at(&mut self, node: Side, page: PageNo) {
        self.look(node, page, page.saturating_add(1))
    }

    /// Asks for the pages of a range of bytes.
    fn look_in(&mut self, node: Side, addr: Addr, len: u64) {
        self.look(node, page_at(addr), end_of(addr, len))
    }

    /// The mapped pages of a node.
    fn areas_of(&self, node: Side) -> Result<AreaMap, NoMemory> {
        match node {
            Side::Source => self.world.source_space().areas(),
            Side::Destination => self.world.destination_space().areas(),
        }
    }

    /// Asks for the mapped pages of a node.
    fn look_at_areas(&mut self, node: Side) {
        let Ok(areas) = self.areas_of(node) else {
            self.whole = false;
            return;
        };
        self.high = self.high.max(end_of_areas(areas.areas()));
        match node {
            Side::Source => self.source_areas = areas,
            Side::Destination => self.destination_areas = areas,
        }
    }

    /// Lets a page of the destination keep what it is where it moves to.
    fn carry_page(&mut self, from: PageNo, to: PageNo) {
        let state = state_of(&self.record.destination, from);
        if matches!(state, State::InPlace | State::Installed) {
            self.note(Side::Destination, to, state);
        }
    }

    /// Notes that a mapping has moved, if it has, and lets its pages keep what they are where they move to: the world is asked after that.
    fn carry(&mut self, old: Addr, new: Addr, len: u64) {
        if old == new {
            return;
        }
        let (from, to) = (page_at(old), page_at(new));
        let count = end_of(old, len).saturating_sub(from);
        let side = self.node();
        let one = Move {
            line: self.line,
            from,
            to,
            side,
        };
        let kept = self.record.moves.push(one).is_ok();
        self.keep(kept);
        if side == Side::Source {
            return;
        }
        for at in 0..count {
            self.carry_page(from.saturating_add(at), to.saturating_add(at));
        }
    }

    /// Notes what a map call that gave a reply has done.
    fn see_call(&mut self, node: Side, command: Command, reply: Reply) {
        self.look_at_areas(node);
        match (command, reply) {
            (Command::Mmap { addr_len, .. }, Reply::At(addr)) => self.look_in(node, addr, addr_len),
            (Command::Munmap { addr, len } | Command::DontNeed { addr, len }, _) => {
                self.look_in(node, addr, len)
            }
            (
                Command::Mremap {
                    addr,
                    old_len,
                    new_len,
                    ..
                },
                Reply::At(to),
            ) => {
                self.carry(addr, to, old_len);
                self.look_in(node, addr, old_len);
                self.look_in(node, to, new_len)
            }
            _ => {}
        }
    }

    /// Notes that a processor went to sleep on a page.
    fn see_asleep(&mut self, node: Side, cpu: u8, page: PageNo) {
        let dot = Dot {
            line: self.line,
            page,
            cpu,
            side: node,
        };
        let kept = self.record.dots.push(dot).is_ok();
        self.keep(kept);
        self.look_at(node, page);
    }

    /// Notes what a command has done that was answered, or whose call continues.
    pub(super) fn see_commands(&mut self, before: Before, effect: Effect) {
        let node = self.node();
        let Some(command) = before.command else {
            return;
        };
        match effect {
            Effect::Asleep { cpu } => self.see_asleep(node, cpu, page_of(command)),
            Effect::Answered { .. } if command.is_access() => self.look_at(node, page_of(command)),
            Effect::Answered { reply, .. } => self.see_call(node, command, reply),
            Effect::InCall { cpu, .. } => match self.world.cpu_state(cpu) {
                Ok(CpuState::InCall { reply, .. }) => self.see_call(node, command, reply),
                _ => {}
            },
            _ => {}
        }
    }

    /// Notes what an event that was read has changed.
    fn see_event(&mut self, node: Side, event: Message) {
        match event {
            Message::PageFault { addr, .. } => self.look_at(node, page_at(addr)),
            Message::Remap { from, to, len } => {
                self.look_in(node, from, len);
                self.look_in(node, to, len)
            }
            Message::Remove { start, end } | Message::Unmap { start, end } => {
                self.look(node, page_at(start), page_at(end))
            }
        }
    }

    /// Notes what a handler has done.
    pub(super) fn see_handlers(&mut self, before: Before, effect: Effect) {
        let node = match before.step {
            Step::SourceRead | Step::SourceAct => Side::Source,
            _ => Side::Destination,
        };
        match effect {
            Effect::ReadEvent { event } | Effect::ReadLast { event, .. } => {
                self.see_event(node, event)
            }
            Effect::Unprotected { addr }
            | Effect::Zeroed { addr }
            | Effect::Woke { addr }
            | Effect::Forgot { addr } => self.look_at(node, page_at(addr)),
            _ => {}
        }
    }

    /// Notes what has changed at the source.
    pub(super) fn see_source(&mut self, effect: Effect) {
        match effect {
            Effect::SentPage { addr } | Effect::SentZero { addr } => {
                self.look_at(Side::Source, page_at(addr))
            }
            Effect::SentRun { addr, pages } => {
                let first = page_at(addr);
                self.look(Side::Source, first, first.saturating_add(pages))
            }
            Effect::Switched { .. }
            | Effect::TookRecv { .. }
            | Effect::TookDone
            | Effect::Resumed { .. } => self.look(Side::Source, 0, HIGH_PAGE),
            _ => {}
        }
    }

    /// The copy of a page of the source has come.
    fn copy_came(&mut self, page: PageNo) {
        if matches!(self.node(), Side::Source) {
            return self.note(Side::Destination, page, State::Kept);
        }
        match self.world.owed().home(page) {
            Some(home) => self.look_at(Side::Destination, home),
            None => {}
        }
    }

    /// Copies of neighbouring pages have arrived.
    fn copies_came(&mut self, first: PageNo, pages: u32) {
        for page in first..first.saturating_add(pages) {
            self.copy_came(page);
        }
    }

    /// Notes that the destination drops a copy.
    fn note_drop(&mut self, page: PageNo) {
        let kept = self.record.drops.push((self.line, page)).is_ok();
        self.keep(kept);
    }

    /// Whether a page has a copy at the destination, which may be stale: that of a page that is not clean at the source, or all of them.
    fn is_stale(&self, page: PageNo, all: bool) -> bool {
        matches!(state_of(&self.record.destination, page), State::Kept)
            && (all || !self.world.dirty_log().clean().contains(page))
    }

    /// The destination drops the copies whose pages were stored to since they were sent, or all of them.
    fn discard(&mut self, all: bool) {
        for page in 0..self.high {
            if self.is_stale(page, all) {
                self.note(Side::Destination, page, State::Blank);
                self.note_drop(page);
            }
        }
    }

    /// Notes what has changed at the destination.
    pub(super) fn see_destination(&mut self, effect: Effect) {
        match effect {
            Effect::TookPage { addr } | Effect::TookZero { addr } => {
                self.copies_came(page_at(addr), 1)
            }
            Effect::TookRun { addr, pages } => self.copies_came(page_at(addr), pages),
            Effect::TookDiscard { .. } => self.discard(false),
            Effect::TookResume if matches!(self.node(), Side::Source) => self.discard(true),
            Effect::TookPackage { .. } => {
                self.look_at_areas(Side::Destination);
                self.look(Side::Destination, 0, HIGH_PAGE)
            }
            Effect::Installed { addr, .. } => {
                self.note(Side::Destination, page_at(addr), State::Installed)
            }
            Effect::Dropped { origin } => self.note_drop(page_at(origin)),
            _ => {}
        }
    }
}
