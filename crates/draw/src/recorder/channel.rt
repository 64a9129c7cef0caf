//! Frames: which are put on a wire, taken and lost.

use super::frames::{InFlight, frames_after};
use super::tracks::{lose, take};
use super::{Recorder, exclude, include, page_at};
use diagram::record::{End, Flight, Kind};
use mig_base::effect::Effect;
use mig_base::schedule::{Side, Step};
use mig_base::{PageNo, PageSet};
use page_stream::Frame;

/// A wire: that to the destination, the urgent one beside it, or that back.
#[derive(Clone, Copy)]
enum WireName {
    Forward,
    Urgent,
    Back,
}

/// The wire from which a step delivers a frame, if it does.
fn delivers(step: Step) -> Option<WireName> {
    match step {
        Step::Deliver { .. } => Some(WireName::Forward),
        Step::DeliverUrgent { .. } => Some(WireName::Urgent),
        Step::DeliverBack { .. } => Some(WireName::Back),
        _ => None,
    }
}

/// What is shown of a frame: its kind, the first page that it has or names, and how many these are.
fn shown(frame: &Frame) -> (Kind, PageNo, u32) {
    match frame {
        Frame::Advise => (Kind::Advise, 0, 0),
        Frame::Page { page, .. } => (Kind::Page, *page, 1),
        Frame::Zero { page } => (Kind::Zero, *page, 1),
        Frame::Run { first, pages } => {
            let count = pages.len().min(u32::MAX as usize) as u32;
            (Kind::Page, *first, count)
        }
        Frame::Discard { .. } => (Kind::Discard, 0, 0),
        Frame::Package { .. } => (Kind::Package, 0, 0),
        Frame::End { .. } => (Kind::Finish, 0, 0),
        Frame::Resume => (Kind::Resume, 0, 0),
        Frame::Request { page } => (Kind::Request, *page, 1),
        Frame::Recv { .. } => (Kind::Received, 0, 0),
        Frame::Done => (Kind::Done, 0, 0),
    }
}

impl Recorder {
    /// Notes a frame that was put on a wire.
    fn put(&mut self, wire: WireName, frame: &Frame) {
        let (kind, page, pages) = shown(frame);
        let flight = Flight {
            kind,
            page,
            pages,
            sent: self.line,
            ended: self.line,
            end: End::Open,
        };
        let lane = match wire {
            WireName::Forward => &mut self.record.forward,
            WireName::Urgent => &mut self.record.urgent,
            WireName::Back => &mut self.record.back,
        };
        let kept = lane.flights.push(flight).is_ok();
        self.keep(kept);
        let kept = match frame {
            Frame::Page { .. } | Frame::Zero { .. } => include(&mut self.flying, page),
            Frame::Request { .. } => include(&mut self.asking, page),
            _ => true,
        };
        self.keep(kept);
    }

    /// Notes the frames on a wire after its first `known` bytes.
    fn see_put_on(&mut self, wire: WireName, known: u64) {
        let bytes = match wire {
            WireName::Forward => self.world.forward(),
            WireName::Urgent => self.world.urgent(),
            WireName::Back => self.world.back(),
        };
        match frames_after(self.alloc, bytes, known) {
            Ok(frames) => {
                for (_, frame) in &frames {
                    self.put(wire, frame);
                }
            }
            Err(_) => self.whole = false,
        }
    }

    /// Notes the frames that a step has put on the wires.
    pub(super) fn see_put(&mut self, before: InFlight) {
        let now = InFlight::of(&self.world);
        if now.forward > before.forward {
            self.see_put_on(WireName::Forward, before.forward);
        }
        if now.urgent > before.urgent {
            self.see_put_on(WireName::Urgent, before.urgent);
        }
        if now.back > before.back {
            self.see_put_on(WireName::Back, before.back);
        }
    }

    /// Notes that the copy of a page of the source has come.
    fn land(&mut self, page: PageNo) {
        exclude(&mut self.flying, page);
        if matches!(self.node(), Side::Destination) {
            let kept = include(&mut self.came, page);
            self.keep(kept);
        }
    }

    /// The first frame in flight on a wire is taken.
    fn take(&mut self, wire: WireName) {
        match wire {
            WireName::Forward => take(&mut self.record.forward, self.line),
            WireName::Urgent => take(&mut self.record.urgent, self.line),
            WireName::Back => take(&mut self.record.back, self.line),
        }
    }

    /// Notes the page or the request that an effect has taken, and the copy that it has installed or dropped.
    fn see_landed(&mut self, effect: Effect) {
        match effect {
            Effect::TookPage { addr } | Effect::TookZero { addr } => self.land(page_at(addr)),
            Effect::TookRequest { addr } => exclude(&mut self.asking, page_at(addr)),
            Effect::Installed { origin, .. } | Effect::Dropped { origin } => {
                exclude(&mut self.came, page_at(origin));
            }
            _ => {}
        }
    }

    /// Notes the frame that a step has taken, and what that changed.
    pub(super) fn see_taken(&mut self, step: Step, effect: Effect) {
        self.see_landed(effect);
        if let Some(wire) = delivers(step)
            && !matches!(effect, Effect::Moved { .. })
        {
            self.take(wire);
        }
    }

    /// All frames in flight are lost. Returns how many pages and how many requests.
    pub(super) fn lose(&mut self) -> (u32, u32) {
        let line = self.line;
        self.flying = PageSet::new(self.alloc);
        self.asking = PageSet::new(self.alloc);
        let forward = lose(&mut self.record.forward, line);
        let urgent = lose(&mut self.record.urgent, line);
        let requests = lose(&mut self.record.back, line);
        (forward.saturating_add(urgent), requests)
    }
}
