//! The calls of a destination for a broken channel and the recovery from it. None takes memory.

ghost use Rattle.std.specs.Prelude.{◌≡◌, Err, IfOk, IfErr, OnErr};
ghost use Rattle.mig_model.specs.Destination.{destination_paused, received_of};
ghost use Rattle.mig_model.specs.DestinationSteps.{pause};
ghost use Rattle.mig_model.specs.NodeSteps.{acted, checked};

use super::Destination;
use mig_base::effect::Effect;
use mig_base::phase::{DestPhase, Received};
use mig_base::refusal::Refusal;
use mig_base::schedule::Side;

impl Destination {
    /// How far it has come, as a Recv reports it.
    pub fn received(&self) -> Received
        ensures { result ≡ received_of self.now }
    {
        match (self.has_run, self.ended) {
            (false, _) => Received::NotRun,
            (true, false) => Received::Running,
            (true, true) => Received::Ended,
        }
    }

    /// Notices that the channel is broken, and pauses: it waits for a Resume. If it has run, its processors run on. Refused as `Phase` if
    /// it is paused already.
    ///
    /// A destination alone cannot see the source. The caller knows that the channel is broken, and that the source has begun the migration
    /// and has not been released: otherwise the machine refuses a Notice as `NotBroken` or `Phase`.
    pub fn notice(&mut self) -> Result<Effect, Refusal>
        ensures made { IfOk result (λ effect. pause self.old ≡ acted effect self.new) }
        ensures refused { IfErr result (λ refusal. pause self.old ≡ Err refusal) }
        ensures err { OnErr result (self.new ≡ self.old) }
    {
        self.check_notice()?;
        self.pause();
        Ok(Effect::Noticed {
            side: Side::Destination,
        })
    }

    /// Whether [`Destination::notice`] would pause the destination, or how it would be refused.
    pub fn check_notice(&self) -> Result<(), Refusal>
        ensures { result ≡ checked (pause self.now) }
    {
        match self.phase {
            DestPhase::Paused => Err(Refusal::Phase),
            _ => Ok(()),
        }
    }

    /// Pauses the destination, since the channel is broken: it waits for a Resume. If it has run, its processors continue.
    pub fn pause(&mut self)
        ensures { self.new ≡ destination_paused self.old }
    {
        self.phase = DestPhase::Paused;
    }
}
