//! The fault handlers of both nodes, and the installing of copies.

ghost use Rattle.mig_base.specs.declared.schedule.Step.{Step};
ghost use Rattle.mig_model.specs.Runs.{Happens};
ghost use Rattle.world.specs.Worlds.{IsWorld, world_of};

use super::Parts;
use crate::frames::send_back;
use mig_base::effect::Effect;
use mig_base::refusal::Refusal;
use mig_base::schedule::Step;

impl Parts {
    /// The handler of the source reads the next message.
    pub(super) fn source_read(&mut self) -> Result<Effect, Refusal>
        requires { IsWorld (world_of self.old) }
        ensures { Happens (world_of self.old) Step.SourceRead result (world_of self.new) }
    {
        self.source.read()
    }

    /// The handler of the source resolves the first fault that it holds.
    pub(super) fn source_act(&mut self) -> Result<Effect, Refusal>
        requires { IsWorld (world_of self.old) }
        ensures { Happens (world_of self.old) Step.SourceAct result (world_of self.new) }
    {
        self.source.act()
    }

    /// The handler of the destination reads the next message.
    pub(super) fn destination_read(&mut self) -> Result<Effect, Refusal>
        requires { IsWorld (world_of self.old) }
        ensures { Happens (world_of self.old) Step.DestRead result (world_of self.new) }
    {
        self.destination.read()
    }

    /// The handler of the destination resolves the first fault that it holds. A request that it sends is lost while the link is down; the
    /// destination remembers it, and repeats it after a Resume.
    pub(super) fn destination_act(&mut self) -> Result<Effect, Refusal>
        requires { IsWorld (world_of self.old) }
        ensures { Happens (world_of self.old) Step.DestAct result (world_of self.new) }
    {
        if self.back.reserve(1).is_err() {
            return Err(self.refused(Step::DestAct));
        }
        let (effect, request) = self.destination.act()?;
        send_back(&mut self.back, self.up, self.destination.epoch(), request);
        Ok(effect)
    }

    /// The first arrival is installed, or dropped.
    pub(super) fn install(&mut self) -> Result<Effect, Refusal>
        requires { IsWorld (world_of self.old) }
        ensures { Happens (world_of self.old) Step.Install result (world_of self.new) }
    {
        self.destination.install()
    }
}
