//! Deliveries: bytes reach a node, which takes the frame that they complete, and sends its answers.

ghost use Rattle.std.specs.Prelude.{◌≡◌, ok_or};
ghost use Rattle.mig_base.specs.declared.refusal.Refusal as refusals;
ghost use Rattle.mig_base.specs.declared.schedule.Step.{Step};
ghost use Rattle.mig_model.specs.Migration.{has_started};
ghost use Rattle.mig_model.specs.NodeSteps.{checked, first_of, in_phase, while_up};
ghost use Rattle.mig_model.specs.Runs.{Happens};
ghost use Rattle.world.specs.Worlds.{IsWorld, world_of};

use super::Parts;
use crate::frames::{receive, receive_back, receive_urgent};
use mig_base::effect::Effect;
use mig_base::phase::SourcePhase;
use mig_base::refusal::Refusal;
use wires::Wire;

impl Parts {
    /// `n` bytes of the wire to the destination arrive, and the destination takes the frame that they complete.
    pub(super) fn deliver(&mut self, n: u64) -> Result<Effect, Refusal>
        requires { IsWorld (world_of self.old) }
        ensures { Happens (world_of self.old) (Step.Deliver n) result (world_of self.new) }
    {
        self.ensure_in_flight(self.has_started(), &self.forward)?;
        let Ok(arrived) = self.forward.arrive(n) else {
            return Err(Refusal::NoMemory);
        };
        let Some(sent) = arrived else {
            return Ok(Effect::Moved { bytes: n });
        };
        // A frame that is refused stays the first, with the same number of its bytes arrived as before.
        let effect = receive(&mut self.destination, &mut self.back, sent)?;
        self.forward.drop_first();
        Ok(effect)
    }

    /// `n` bytes of the wire back arrive at the source, which takes the frame that they complete.
    pub(super) fn deliver_back(&mut self, n: u64) -> Result<Effect, Refusal>
        requires { IsWorld (world_of self.old) }
        ensures { Happens (world_of self.old) (Step.DeliverBack n) result (world_of self.new) }
    {
        self.ensure_in_flight(self.has_started(), &self.back)?;
        let Ok(arrived) = self.back.arrive(n) else {
            return Err(Refusal::NoMemory);
        };
        let Some(sent) = arrived else {
            return Ok(Effect::Moved { bytes: n });
        };
        let Ok(effect) = receive_back(&mut self.source, &mut self.forward, &sent) else {
            return Err(Refusal::NoMemory);
        };
        self.back.drop_first();
        Ok(effect)
    }

    /// `n` bytes of the urgent wire arrive at the destination, which takes the frame that they complete.
    pub(super) fn deliver_urgent(&mut self, n: u64) -> Result<Effect, Refusal>
        requires { IsWorld (world_of self.old) }
        ensures { Happens (world_of self.old) (Step.DeliverUrgent n) result (world_of self.new) }
    {
        self.ensure_in_flight(self.destination.has_run(), &self.urgent)?;
        let Ok(arrived) = self.urgent.arrive(n) else {
            return Err(Refusal::NoMemory);
        };
        let Some(sent) = arrived else {
            return Ok(Effect::Moved { bytes: n });
        };
        let Ok(effect) = receive_urgent(&mut self.destination, sent) else {
            return Err(Refusal::NoMemory);
        };
        self.urgent.drop_first();
        Ok(effect)
    }

    /// Whether bytes of a wire can arrive: `Phase` unless the phase allows it, then `Broken` unless the link is up, then `NothingThere`
    /// if nothing is in flight.
    pub(super) fn ensure_in_flight(&self, allowed: bool, wire: &Wire) -> Result<(), Refusal>
        ensures { result ≡ checked
            (while_up self.now.up
            (in_phase allowed
            (ok_or (first_of wire.now.wire.frames) refusals.Refusal.NothingThere))) }
    {
        if !allowed {
            return Err(Refusal::Phase);
        }
        if !self.up {
            return Err(Refusal::Broken);
        }
        if wire.is_empty() {
            return Err(Refusal::NothingThere);
        }
        Ok(())
    }

    /// Whether a migration has begun.
    pub(super) fn has_started(&self) -> bool
        ensures { result ≡ has_started (world_of self.now) }
    {
        self.source.phase() != SourcePhase::Idle
    }
}
