//! Broken channels, and the resume after them.

ghost use Rattle.std.specs.Prelude.{◌≡◌};
ghost use Rattle.mig_base.specs.declared.schedule.Step.{Step};
ghost use Rattle.mig_model.specs.Destination.{is_dest_paused};
ghost use Rattle.mig_model.specs.Migration.{answer};
ghost use Rattle.mig_model.specs.NodeSteps.{checked};
ghost use Rattle.mig_model.specs.Runs.{Happens};
ghost use Rattle.mig_model.specs.Source.{is_under_way};
ghost use Rattle.world.specs.Worlds.{IsWorld, world_of};

use super::Parts;
use mig_base::effect::Effect;
use mig_base::phase::{DestPhase, SourcePhase};
use mig_base::refusal::Refusal;
use mig_base::schedule::{Side, Step};

impl Parts {
    /// The channel breaks: all frames in flight are lost. It takes no memory.
    pub(super) fn break_link(&mut self) -> Result<Effect, Refusal>
        requires { IsWorld (world_of self.old) }
        ensures { Happens (world_of self.old) Step.Break result (world_of self.new) }
    {
        self.check_break()?;
        self.forward.clear();
        self.back.clear();
        self.urgent.clear();
        self.up = false;
        Ok(Effect::Broken)
    }

    /// A side notices that the channel is broken. It takes no memory.
    pub(super) fn notice(&mut self, side: Side) -> Result<Effect, Refusal>
        requires { IsWorld (world_of self.old) }
        ensures { Happens (world_of self.old) (Step.Notice side) result (world_of self.new) }
    {
        if self.up {
            return Err(self.refused(Step::Notice(side)));
        }
        match side {
            Side::Source => self.source.notice(),
            Side::Destination if !self.is_under_way() => Err(Refusal::Phase),
            Side::Destination => self.destination.notice(),
        }
    }

    /// Both sides continue over a new channel, in the next epoch: the source sends Resume.
    pub(super) fn resume(&mut self) -> Result<Effect, Refusal>
        requires { IsWorld (world_of self.old) }
        ensures { Happens (world_of self.old) Step.Resume result (world_of self.new) }
    {
        if self.up || !self.is_dest_paused() || self.forward.reserve(1).is_err() {
            return Err(self.refused(Step::Resume));
        }
        let (effect, frame) = self.source.resume()?;
        self.forward.push(self.source.epoch(), frame);
        self.up = true;
        Ok(effect)
    }

    /// Whether the channel can break.
    pub(super) fn check_break(&self) -> Result<(), Refusal>
        ensures { result ≡ checked (answer (world_of self.now) Step.Break) }
    {
        if !self.is_under_way() {
            return Err(Refusal::Phase);
        }
        self.while_up(Ok(()))
    }

    /// Whether a side can notice that the channel is broken.
    pub(super) fn check_notice(&self, side: Side) -> Result<(), Refusal>
        ensures { result ≡ checked (answer (world_of self.now) (Step.Notice side)) }
    {
        match side {
            Side::Source => self.while_down(self.source.check_notice()),
            Side::Destination if !self.is_under_way() => Err(Refusal::Phase),
            Side::Destination => self.while_down(self.destination.check_notice()),
        }
    }

    /// Whether both sides can continue.
    pub(super) fn check_resume(&self) -> Result<(), Refusal>
        ensures { result ≡ checked (answer (world_of self.now) Step.Resume) }
    {
        if !self.is_dest_paused() {
            return Err(Refusal::Phase);
        }
        self.while_down(self.source.check_resume())
    }

    /// Whether a migration has started and is not complete.
    fn is_under_way(&self) -> bool
        ensures { result ≡ is_under_way self.now.source }
    {
        match self.source.phase() {
            SourcePhase::Idle | SourcePhase::Released => false,
            _ => true,
        }
    }

    /// Whether the destination has noticed the break, and has not taken a Resume since.
    fn is_dest_paused(&self) -> bool
        ensures { result ≡ is_dest_paused self.now.destination.phase }
    {
        self.destination.phase() == DestPhase::Paused
    }
}
