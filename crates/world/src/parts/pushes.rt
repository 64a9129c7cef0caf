//! Post-copy at the source: owed pages are sent, in the background or because they were requested.

ghost use Rattle.std.specs.Prelude.{◌≡◌, ◌<◌, ◌∷◌, []};
ghost use Rattle.mig_base.specs.declared.schedule.Step.{Step};
ghost use Rattle.mig_model.specs.Bounds.{IsFrame};
ghost use Rattle.mig_model.specs.Runs.{Happens};
ghost use Rattle.mig_model.specs.Wire.{wire_with};
ghost use Rattle.dirty_log.specs.Sending.{frame_sent};
ghost use Rattle.world.specs.Worlds.{IsWorld, world_of};

use super::Parts;
use dirty_log::PageContent;
use mig_base::PageNo;
use mig_base::effect::Effect;
use mig_base::refusal::Refusal;
use mig_base::schedule::{Step, Ticket};
use page_stream::Frame;
use wires::Wire;

impl Parts {
    /// The source sends an owed page.
    pub(super) fn push(&mut self, ticket: Ticket) -> Result<Effect, Refusal>
        requires { IsWorld (world_of self.old) }
        ensures { Happens (world_of self.old) (Step.Push ticket) result (world_of self.new) }
    {
        if !self.up || self.forward.reserve(1).is_err() {
            return Err(self.refused(Step::Push(ticket)));
        }
        let epoch = self.source.epoch();
        let (effect, sent) = self.source.push(ticket)?;
        send_page(&mut self.forward, epoch, ticket.page, sent);
        Ok(effect)
    }

    /// The source sends an owed page on the urgent wire.
    pub(super) fn push_urgent(&mut self, ticket: Ticket) -> Result<Effect, Refusal>
        requires { IsWorld (world_of self.old) }
        ensures { Happens (world_of self.old) (Step.PushUrgent ticket) result (world_of self.new) }
    {
        if !self.up || self.urgent.reserve(1).is_err() {
            return Err(self.refused(Step::PushUrgent(ticket)));
        }
        let epoch = self.source.epoch();
        let (effect, sent) = self.source.push_urgent(ticket)?;
        send_page(&mut self.urgent, epoch, ticket.page, sent);
        Ok(effect)
    }

    /// The source dequeues the oldest request of the destination; it sends nothing. It takes no memory.
    pub(super) fn serve(&mut self) -> Result<Effect, Refusal>
        requires { IsWorld (world_of self.old) }
        ensures { Happens (world_of self.old) Step.Serve result (world_of self.new) }
    {
        if !self.up {
            return Err(self.refused(Step::Serve));
        }
        self.source.serve()
    }

    /// The source sends End: nothing more is sent.
    pub(super) fn end(&mut self) -> Result<Effect, Refusal>
        requires { IsWorld (world_of self.old) }
        ensures { Happens (world_of self.old) Step.End result (world_of self.new) }
    {
        if !self.up || self.forward.reserve(1).is_err() {
            return Err(self.refused(Step::End));
        }
        let (effect, frame) = self.source.end()?;
        self.forward.push(self.source.epoch(), frame);
        Ok(effect)
    }
}

/// Puts a page that the source sends on a wire that has room for it. Its bytes are written from where they stand.
pub(super) fn send_page(wire: &mut Wire, epoch: u32, page: PageNo, sent: PageContent)
    requires well_formed { IsFrame (frame_sent page sent) }
    requires room { 0 < wire.old.room }
    ensures { wire.new.wire ≡ wire_with wire.old.wire epoch (frame_sent page sent.entry ∷ []) }
{
    match sent {
        PageContent::Zero => wire.push(epoch, Frame::Zero { page }),
        PageContent::Page(bytes) => wire.push_page(epoch, page, bytes),
    }
}
