//! Pre-copy and the switch: steps of the source, which send on the wire to the destination.

ghost use Rattle.mig_base.specs.declared.schedule.Step.{Step};
ghost use Rattle.mig_model.specs.Runs.{Happens};
ghost use Rattle.world.specs.Worlds.{IsWorld, world_of};

use super::Parts;
use super::pushes::send_page;
use mig_base::effect::Effect;
use mig_base::refusal::Refusal;
use mig_base::schedule::Step;

impl Parts {
    /// A migration begins: the source sends Advise.
    pub(super) fn start(&mut self) -> Result<Effect, Refusal>
        requires { IsWorld (world_of self.old) }
        ensures { Happens (world_of self.old) Step.Start result (world_of self.new) }
    {
        if self.forward.reserve(1).is_err() {
            return Err(self.refused(Step::Start));
        }
        let (effect, frame) = self.source.start()?;
        self.forward.push(self.source.epoch(), frame);
        Ok(effect)
    }

    /// A round of pre-copy begins.
    pub(super) fn round(&mut self) -> Result<Effect, Refusal>
        requires { IsWorld (world_of self.old) }
        ensures { Happens (world_of self.old) Step.Round result (world_of self.new) }
    {
        self.source.round()
    }

    /// The source sends the next page of its round.
    pub(super) fn send(&mut self) -> Result<Effect, Refusal>
        requires { IsWorld (world_of self.old) }
        ensures { Happens (world_of self.old) Step.Send result (world_of self.new) }
    {
        if !self.up || self.forward.reserve(1).is_err() {
            return Err(self.refused(Step::Send));
        }
        let epoch = self.source.epoch();
        let (effect, page, sent) = self.source.send_next()?;
        send_page(&mut self.forward, epoch, page, sent);
        Ok(effect)
    }

    /// The source sends the next pages of its round, at most `count`, in one frame.
    pub(super) fn send_run(&mut self, count: u8) -> Result<Effect, Refusal>
        requires { IsWorld (world_of self.old) }
        ensures { Happens (world_of self.old) (Step.SendRun count) result (world_of self.new) }
    {
        if !self.up || self.forward.reserve(1).is_err() {
            return Err(self.refused(Step::SendRun { count }));
        }
        let (effect, frame) = self.source.send_run(count)?;
        self.forward.push(self.source.epoch(), frame);
        Ok(effect)
    }

    /// The source stops its processors for good, and sends Discard and Package.
    pub(super) fn switch(&mut self) -> Result<Effect, Refusal>
        requires { IsWorld (world_of self.old) }
        ensures { Happens (world_of self.old) Step.Switch result (world_of self.new) }
    {
        if !self.up || self.forward.reserve(2).is_err() {
            return Err(self.refused(Step::Switch));
        }
        let (effect, discard, package) = self.source.switch()?;
        let epoch = self.source.epoch();
        self.forward.push(epoch, discard);
        self.forward.push(epoch, package);
        Ok(effect)
    }
}
