//! How many bytes are in flight.

ghost use Rattle.std.specs.Prelude.{◌≡◌, length, IfOk};
ghost use Rattle.mig_model.specs.Guest.{counted};
ghost use Rattle.frame_decoder.specs.Streams.{texts};
ghost use Rattle.frame_decoder.specs.declared.version.Version.TheVariants.{Two};
ghost use Rattle.world.specs.Answers.{in_flight_len};
ghost use Rattle.wiretap.specs.Moves.{AreMarks};

use crate::fault::TapFault;
use engine::RunFault;
use wires::Wire;
use world::World;

/// The number of bytes in flight on each wire of a world.
#[derive(Clone, Copy)]
pub(crate) struct Marks {
    pub(crate) forward: u64,
    pub(crate) back: u64,
    pub(crate) urgent: u64,
}

/// The number of bytes in flight on a wire, of which this is the count, if that has not stopped at its greatest value.
fn exact(wire: &Wire, count: u64) -> Result<u64, TapFault>
    requires { count ≡ counted 0 (in_flight_len wire.now.wire.frames) }
    ensures { IfOk result (λ known. known ≡ length (texts Two wire.now.wire.frames)) }
{
    let _pieces = wire.pieces();
    if count == u64::MAX {
        return Err(TapFault::Run(RunFault::NoMemory));
    }
    Ok(count)
}

impl Marks {
    /// The counts of a world.
    pub(crate) fn of(world: &World) -> Result<Marks, TapFault>
        ensures { IfOk result (λ marks. AreMarks world.now marks) }
    {
        Ok(Marks {
            forward: exact(world.forward(), world.forward_bytes())?,
            back: exact(world.back(), world.back_bytes())?,
            urgent: exact(world.urgent(), world.urgent_bytes())?,
        })
    }
}
