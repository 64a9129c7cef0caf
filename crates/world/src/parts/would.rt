//! Why a step is refused: the nodes' checks, the link, and what the parts show. Phase comes first, then the link, then all else, and lack
//! of memory last.

ghost use Rattle.std.specs.Prelude.{◌≡◌, ◌∷◌, List, Ok, get_or};
ghost use Rattle.mig_base.specs.declared.command.Command.{Command};
ghost use Rattle.mig_base.specs.declared.schedule.Step.{Step};
ghost use Rattle.mig_model.specs.Faults.{is_end};
ghost use Rattle.mig_model.specs.Guest.{counted};
ghost use Rattle.mig_model.specs.Migration.{answer, has_started};
ghost use Rattle.mig_model.specs.NodeSteps as steps;
ghost use Rattle.mig_model.specs.NodeSteps.{IsRefusedFor, checked};
ghost use Rattle.mig_model.specs.Wire.{Sent};
ghost use Rattle.frame_decoder.specs.Streams.{texts};
ghost use Rattle.frame_decoder.specs.declared.version.Version.TheVariants.{Two};
ghost use Rattle.world.specs.Answers.{has_sent_end, in_flight_len};
ghost use Rattle.world.specs.Worlds.{IsWorld, world_of};

use super::Parts;
use mig_base::phase::SourcePhase;
use mig_base::refusal::Refusal;
use mig_base::schedule::Step;
use wires::Wire;

/// The bytes of an End: a header, and a count.
const END_LEN: u64 = 12 + 4;

/// The tag of an End, the second byte of its text.
const END_TAG: u8 = 0x06;

impl Parts {
    /// Why a step is not made for which there is no room, or no link: its own refusal, and `NoMemory` where it has none.
    pub(super) fn refused(&self, step: Step) -> Refusal
        requires { IsWorld (world_of self.now) }
        ensures { IsRefusedFor (answer (world_of self.now) step) result }
    {
        match self.would(step) {
            Ok(()) => Refusal::NoMemory,
            Err(refusal) => refusal,
        }
    }

    /// Whether a step would be made; memory is not considered. Takes no memory.
    pub(crate) fn would(&self, step: Step) -> Result<(), Refusal>
        requires { IsWorld (world_of self.now) }
        ensures { result ≡ checked (answer (world_of self.now) step) }
    {
        match step {
            Step::Issue { cpu, .. } => self.check_issue(cpu),
            Step::Retry { cpu } => self.check_retry(cpu),
            Step::Start => self.source.check_start(),
            Step::Round => self.source.check_round(),
            Step::Send => self.while_up(self.source.check_send()),
            Step::SendRun { count } => self.while_up(self.source.check_run(count)),
            Step::SourceRead => self.source.check_read(),
            Step::SourceAct => self.source.check_act(),
            Step::Switch => self.while_up(self.source.check_switch()),
            Step::Deliver { n } => self.check_deliver(n),
            Step::DeliverBack { .. } => self.ensure_in_flight(self.has_started(), &self.back),
            Step::DestRead => self.destination.check_read(),
            Step::DestAct => self.destination.check_act(),
            Step::Install => self.destination.check_install(),
            Step::Push(ticket) => self.while_up(self.source.check_push(ticket)),
            Step::PushUrgent(ticket) => self.while_up(self.source.check_push(ticket)),
            Step::DeliverUrgent { .. } => {
                self.ensure_in_flight(self.destination.has_run(), &self.urgent)
            }
            Step::Serve => self.while_up(self.source.check_serve()),
            Step::End => self.while_up(self.source.check_end()),
            Step::Break => self.check_break(),
            Step::Notice(side) => self.check_notice(side),
            Step::Resume => self.check_resume(),
        }
    }

    /// The result of a check for a step that needs the link: `Phase` comes first, then `Broken` while the link is down, then all else.
    pub(super) fn while_up(&self, checked: Result<(), Refusal>) -> Result<(), Refusal>
        ensures { result ≡ steps.while_up self.now.up checked }
    {
        match checked {
            Err(Refusal::Phase) => Err(Refusal::Phase),
            _ if !self.up => Err(Refusal::Broken),
            _ => checked,
        }
    }

    /// The same for a step that needs a broken link: `NotBroken` while it is up.
    pub(super) fn while_down(&self, checked: Result<(), Refusal>) -> Result<(), Refusal>
        ensures { result ≡ steps.while_down self.now.up checked }
    {
        match checked {
            Err(Refusal::Phase) => Err(Refusal::Phase),
            _ if self.up => Err(Refusal::NotBroken),
            _ => checked,
        }
    }

    /// Whether a processor can begin a command.
    fn check_issue(&self, cpu: u8) -> Result<(), Refusal>
        ensures { (command : Command) →
            result ≡ checked (answer (world_of self.now) (Step.Issue cpu command)) }
    {
        self.cpus().ensure_idle(cpu)?;
        if !self.runs() {
            return Err(Refusal::Phase);
        }
        Ok(())
    }

    /// Whether a processor can try its load or store again.
    fn check_retry(&self, cpu: u8) -> Result<(), Refusal>
        ensures { result ≡ checked (answer (world_of self.now) (Step.Retry cpu)) }
    {
        let _command = self.cpus().woken(cpu)?;
        if !self.runs() {
            return Err(Refusal::Phase);
        }
        Ok(())
    }

    /// Whether bytes can arrive at the destination. A frame that they complete must wait only if it is End.
    fn check_deliver(&self, n: u64) -> Result<(), Refusal>
        requires { IsWorld (world_of self.now) }
        ensures { result ≡ checked (answer (world_of self.now) (Step.Deliver n)) }
    {
        self.ensure_in_flight(self.has_started(), &self.forward)?;
        if !is_end_first(&self.forward) {
            return Ok(());
        }
        if n < END_LEN - self.forward.held() {
            return Ok(());
        }
        if self.destination.arrivals() > 0 {
            return Err(Refusal::InstallFirst);
        }
        if !self.urgent.is_empty() {
            return Err(Refusal::UrgentFirst);
        }
        Ok(())
    }

    /// Whether the source has stopped, and has sent End in its epoch.
    pub(crate) fn has_sent_end(&self) -> bool
        ensures { result ≡ has_sent_end self.now.source }
    {
        match self.source.phase() {
            SourcePhase::Stopped => is_out_of_phase(self.source.check_end()),
            _ => false,
        }
    }
}

/// Whether a step is refused for a wrong phase.
fn is_out_of_phase(checked: Result<(), Refusal>) -> bool
    ensures { result ≡ steps.is_out_of_phase checked }
{
    match checked {
        Err(Refusal::Phase) => true,
        _ => false,
    }
}

/// Whether the first frame in flight is End.
fn is_end_first(wire: &Wire) -> bool
    ensures { (sent : Sent) (rest : List Sent) → wire.now.wire.frames ≡ sent ∷ rest →
        result ≡ is_end sent.frame }
{
    byte_at(wire, 1) == END_TAG
}

/// The byte at a place of the bytes in flight, counted from 0, or 0 past their end.
fn byte_at(wire: &Wire, place: usize) -> u8
    ensures { result ≡ get_or (texts Two wire.now.wire.frames) place 0 }
{
    let mut left = place;
    for index in 0..wire.pieces() {
        let piece = wire.piece(index);
        if left < piece.len() {
            return piece[left];
        }
        left -= piece.len();
    }
    0
}

/// How many bytes the frames in flight on a wire have. It goes over the pieces in which they lie, and stops at the greatest count.
pub(crate) fn bytes_on(wire: &Wire) -> u64
    ensures { result ≡ counted 0 (in_flight_len wire.now.wire.frames) }
{
    let mut bytes = 0u64;
    for index in 0..wire.pieces() {
        bytes = bytes.saturating_add(wire.piece(index).len() as u64);
    }
    bytes
}
