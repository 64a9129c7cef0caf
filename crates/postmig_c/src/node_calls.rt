//! The frames that wait in a node, of either kind.

ghost use Rattle.std.specs.Prelude.{◌≡◌, ◌≢◌, ◌⊎◌, [], IfOk};
ghost use Rattle.frame_decoder.specs.Streams.{texts};
ghost use Rattle.frame_decoder.specs.declared.version.Version.TheVariants.{Two};
ghost use Rattle.mig_model.specs.Wire.{empty_wire};
ghost use Rattle.postmig_c.specs.NodeCalls.{HasNoNode, TellsWire, drained};
ghost use Rattle.postmig_c.specs.Room.{Fills, IsTooLong};

use crate::handle::{Content, Handle};
use crate::room::hand_over;
use crate::status::{DONE, NO_FRAME, NO_MEMORY, NOT_OPEN};
use mig_base::NoMemory;
use nodes::{Posting, Traced};
use std::alloc::Global;
use wires::Wire;

/// The texts of the frames on a wire, one after the other.
fn texts_on(alloc: Global, wire: &Wire) -> Result<Vec<u8>, NoMemory>
    ensures { IfOk result (λ bytes. bytes.items ≡ texts Two wire.now.wire.frames) }
{
    let mut bytes = Vec::new(alloc);
    for index in 0..wire.pieces() {
        bytes.extend_from_slice(wire.piece(index))?;
    }
    Ok(bytes)
}

/// Writes the texts of the frames on a wire, if there are some and they fit.
fn show_wire(alloc: Global, wire: &Wire, out: &mut [u8], written: &mut usize) -> u32
    ensures all { result ≡ 0 → Fills (texts Two wire.now.wire.frames) written.new out.new }
    ensures long { result ≡ 1 → IsTooLong (texts Two wire.now.wire.frames) written.new out.new }
    ensures none { result ≡ 6 → wire.now.wire.frames ≡ [] }
    ensures range { (result ≡ 0) ⊎ (result ≡ 1) ⊎ (result ≡ 4) ⊎ (result ≡ 6) }
{
    if wire.is_empty() {
        return NO_FRAME;
    }
    match texts_on(alloc, wire) {
        Ok(bytes) => hand_over(&bytes, out, written),
        Err(NoMemory) => NO_MEMORY,
    }
}

/// Takes the frames that wait in a node.
fn take_sent<N>(
    alloc: Global,
    node: &mut Traced<Posting<N>>,
    out: &mut [u8],
    written: &mut usize,
) -> u32
    ensures all { result ≡ 0 → Fills (texts Two node.old.node.wire.frames) written.new out.new }
    ensures taken { result ≡ 0 → node.new ≡
        record node.old { node = record node.old.node { wire = empty_wire } } }
    ensures long { result ≡ 1 →
        IsTooLong (texts Two node.old.node.wire.frames) written.new out.new }
    ensures none { result ≡ 6 → node.old.node.wire.frames ≡ [] }
    ensures kept { result ≢ 0 → node.new ≡ node.old }
    ensures range { (result ≡ 0) ⊎ (result ≡ 1) ⊎ (result ≡ 4) ⊎ (result ≡ 6) }
{
    let status = show_wire(alloc, node.node().sent(), out, written);
    if status == DONE {
        node.drop_sent();
    }
    status
}

/// Takes the frames that wait in a node, and writes their texts, one after the other. If `out` is too short they still wait, and `written`
/// is the length that is needed.
#[unsafe(no_mangle)]
pub extern "C" fn postmig_node_frame(
    alloc: Global,
    handle: &mut Handle,
    out: &mut [u8],
    written: &mut usize,
) -> u32
    ensures all { result ≡ 0 →
        TellsWire handle.old.content (λ wire. Fills (texts Two wire.frames) written.new out.new) }
    ensures taken { result ≡ 0 → handle.new.content ≡ drained handle.old.content }
    ensures long { result ≡ 1 →
        TellsWire handle.old.content (λ wire.
        IsTooLong (texts Two wire.frames) written.new out.new) }
    ensures none { result ≡ 6 → TellsWire handle.old.content (λ wire. wire.frames ≡ []) }
    ensures not_open { result ≡ 2 → HasNoNode handle.old.content }
    ensures kept { result ≢ 0 → handle.new.content ≡ handle.old.content }
    ensures range { (result ≡ 0) ⊎ (result ≡ 1) ⊎ (result ≡ 2) ⊎ (result ≡ 4) ⊎ (result ≡ 6) }
{
    let Some(mut content) = handle.take(alloc) else {
        return NOT_OPEN;
    };
    let status = match &mut *content {
        Content::Source(node) => take_sent(alloc, node, out, written),
        Content::Destination(node) => take_sent(alloc, node, out, written),
        _ => NOT_OPEN,
    };
    *handle = Handle::of(content);
    status
}
