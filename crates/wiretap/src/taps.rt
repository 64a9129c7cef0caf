//! The writers of the wires.

ghost use Rattle.std.specs.Prelude.{◌≡◌, drop, OnOk, IfErr};
ghost use Rattle.std.specs.Io.KnownBytes.{Appends};
ghost use Rattle.frame_decoder.specs.Streams.{texts};
ghost use Rattle.frame_decoder.specs.declared.version.Version.TheVariants.{Two};
ghost use Rattle.wiretap.specs.declared.fault.TapFault.TheVariants.{Wire as OfWire};
ghost use Rattle.wiretap.specs.Traffic.{Gets};
ghost use Rattle.wiretap.specs.Moves.{bytes_in_flight};

use crate::fault::{Channel, TapFault};
use crate::marks::Marks;
use engine::RunFault;
use engine::line_runner::write_out;
use std::io::Write;
use wires::Wire;
use world::World;

/// A writer for each wire.
#[derive(Drop)]
pub struct Taps<T: Drop> {
    /// Gets what is put on the wire to the destination.
    pub forward: T,
    /// Gets what is put on the wire back to the source.
    pub back: T,
    /// Gets what is put on the urgent wire to the destination.
    pub urgent: T,
}

/// Writes the bytes in flight on a wire after the first `known`.
fn write_behind<W: Write>(writer: &mut W, wire: &Wire, known: u64) -> Result<(), RunFault>
    ensures { OnOk result
        (Appends (W.contents writer.old) (W.contents writer.new)
        (drop known (texts Two wire.now.wire.frames))) }
{
    let mut left = known;
    for index in 0..wire.pieces() {
        let piece = wire.piece(index);
        let skipped = left.min(piece.len() as u64);
        write_out(writer, &piece[skipped as usize..])?;
        left -= skipped;
    }
    Ok(())
}

/// The same, for the writer of that wire.
fn write_put<W: Write>(
    writer: &mut W,
    wire: &Wire,
    known: u64,
    channel: Channel,
) -> Result<(), TapFault>
    ensures ok { OnOk result
        (Appends (W.contents writer.old) (W.contents writer.new)
        (drop known (texts Two wire.now.wire.frames))) }
    ensures fault { IfErr result (λ fault. fault ≡ OfWire channel) }
{
    match write_behind(writer, wire, known) {
        Ok(()) => Ok(()),
        Err(_) => Err(TapFault::Wire(channel)),
    }
}

impl<T: Write + Drop> Taps<T> {
    /// Writes what a line has put on the wires of a world, which had that many bytes before it.
    pub(crate) fn write_all_put(&mut self, world: &World, before: Marks) -> Result<(), TapFault>
        ensures { OnOk result
            (Gets T.contents self.old self.new (bytes_in_flight before world.now)) }
    {
        write_put(
            &mut self.forward,
            world.forward(),
            before.forward,
            Channel::Forward,
        )?;
        write_put(&mut self.back, world.back(), before.back, Channel::Back)?;
        write_put(
            &mut self.urgent,
            world.urgent(),
            before.urgent,
            Channel::Urgent,
        )
    }
}
