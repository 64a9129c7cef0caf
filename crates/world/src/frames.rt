//! How the nodes of a world take frames, and a frame that the destination sends back.

ghost use Rattle.std.specs.Prelude.{◌≡◌, ◌≤◌, ◌⊎◌, None, Err, length, map, option_to_list, IfOk, IfErr, OnOk, OnErr};
ghost use Rattle.std.specs.Option.{IfSome};
ghost use Rattle.mig_base.specs.declared.refusal.Refusal as refusals;
ghost use Rattle.mig_model.specs.Bounds.{IsFrame};
ghost use Rattle.mig_model.specs.Destination as to;
ghost use Rattle.mig_model.specs.DestinationSteps as destinations;
ghost use Rattle.mig_model.specs.Faults.{frame_fault, urgent_fault};
ghost use Rattle.mig_model.specs.NodeSteps as steps;
ghost use Rattle.mig_model.specs.Source as from;
ghost use Rattle.mig_model.specs.SourceSteps as sources;
ghost use Rattle.mig_model.specs.Wire as machine;
ghost use Rattle.page_stream.specs.Frames.{frame_of};
ghost use Rattle.precopy.specs.Back.{source_fault};

use fault_handler::Destination;
use mig_base::NoMemory;
use mig_base::effect::Effect;
use mig_base::fault::TakeFault;
use mig_base::refusal::Refusal;
use page_stream::Frame;
use precopy::Source;
use wires::{Sent, Wire};

/// The destination takes a frame, and sends its answers on the wire back. A frame that it refuses changes nothing.
pub(crate) fn receive(
    destination: &mut Destination,
    back: &mut Wire,
    sent: Sent,
) -> Result<Effect, Refusal>
    requires frame { IsFrame (frame_of sent.frame) }
    requires right { frame_fault destination.old sent.epoch (frame_of sent.frame) ≡ None }
    ensures took { IfOk result (λ effect.
        destinations.take destination.old sent.epoch (frame_of sent.frame) ≡
        steps.sent effect (to.destination_answers destination.old (frame_of sent.frame))
        destination.new) }
    ensures answered { OnOk result (back.new.wire ≡
        machine.wire_with back.old.wire destination.new.epoch
        (to.destination_answers destination.old (frame_of sent.frame))) }
    ensures refused { IfErr result (λ refusal.
        (refusal ≡ refusals.Refusal.NoMemory) ⊎
        (destinations.take destination.old sent.epoch (frame_of sent.frame) ≡ Err refusal)) }
    ensures err { OnErr result ((destination.new ≡ destination.old) ×
        (back.new.wire ≡ back.old.wire)) }
{
    let effect = sent.frame.effect();
    let answers = destination.answers(&sent.frame)?;
    back.reserve(answers.len())?;
    match destination.take(sent.epoch, sent.frame) {
        Ok(()) => {
            back.push_all(destination.epoch(), answers);
            Ok(effect)
        }
        Err(TakeFault::InstallFirst) => Err(Refusal::InstallFirst),
        Err(TakeFault::UrgentFirst) => Err(Refusal::UrgentFirst),
        // No frame in flight is out of place, of another epoch or bad.
        Err(_) => Err(Refusal::NoMemory),
    }
}

/// The source takes a frame that came back, and sends what it answers. `NoMemory` changes nothing.
pub(crate) fn receive_back(
    source: &mut Source,
    forward: &mut Wire,
    sent: &Sent,
) -> Result<Effect, NoMemory>
    requires frame { IsFrame (frame_of sent.now.frame) }
    requires right { source_fault source.old sent.now.epoch (frame_of sent.now.frame) ≡ None }
    ensures took { IfOk result (λ effect.
        sources.take source.old (frame_of sent.now.frame) ≡
        steps.sent effect (from.source_answers source.old (frame_of sent.now.frame)) source.new) }
    ensures answered { OnOk result (forward.new.wire ≡
        machine.wire_with forward.old.wire source.new.epoch
        (from.source_answers source.old (frame_of sent.now.frame))) }
    ensures err { OnErr result ((source.new ≡ source.old) × (forward.new.wire ≡ forward.old.wire)) }
{
    let answers = source.answers(&sent.frame)?;
    forward.reserve(answers.len())?;
    let Ok(()) = source.take(sent.epoch, &sent.frame) else {
        return Err(NoMemory);
    };
    forward.push_all(source.epoch(), answers);
    Ok(sent.frame.effect())
}

/// The destination takes a frame of the urgent wire. `NoMemory` changes nothing.
pub(crate) fn receive_urgent(destination: &mut Destination, sent: Sent) -> Result<Effect, NoMemory>
    requires frame { IsFrame (frame_of sent.frame) }
    requires right { urgent_fault destination.old sent.epoch (frame_of sent.frame) ≡ None }
    ensures took { IfOk result (λ effect.
        destinations.take_urgent destination.old (frame_of sent.frame) ≡
        steps.acted effect destination.new) }
    ensures err { OnErr result (destination.new ≡ destination.old) }
{
    let effect = sent.frame.effect();
    match destination.take_urgent(sent.epoch, sent.frame) {
        Ok(()) => Ok(effect),
        Err(_) => Err(NoMemory),
    }
}

/// Puts the frame of the destination, if any, on a wire that has room for it; while the link is down it is lost.
pub(crate) fn send_back(wire: &mut Wire, up: bool, epoch: u32, frame: Option<Frame>)
    requires well_formed { IfSome frame (λ frame. IsFrame (frame_of frame)) }
    requires room { length (option_to_list frame) ≤ wire.old.room }
    ensures { wire.new.wire ≡
        machine.wire_if up wire.old.wire epoch (map frame_of (option_to_list frame)) }
{
    match frame {
        Some(frame) if up => wire.push(epoch, frame),
        _ => {}
    }
}
