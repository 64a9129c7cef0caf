//! The trace of a node, of either kind.

ghost use Rattle.std.specs.Prelude.{◌≡◌, ◌≢◌, ◌⊎◌};
ghost use Rattle.std.specs.declared.option.Option.TheVariants.{None as Nothing};
ghost use Rattle.nodes.specs.Traces.{line_text, lines_in, without_line};
ghost use Rattle.postmig_c.specs.NodeCalls.{HasNoNode};
ghost use Rattle.postmig_c.specs.Room.{Fills, IsTooLong};
ghost use Rattle.postmig_c.specs.Traces.{HasLongLine, ShowsLine, TellsTrace, turned, with_trace};

use crate::handle::{Content, Handle};
use crate::room::hand_over;
use crate::status::{DONE, NO_MEMORY, NO_TRACE, NOT_OPEN};
use mig_base::NoMemory;
use nodes::{TraceLine, Traced};
use std::alloc::Global;

/// Begins or ends the trace of a node.
fn turn<N>(alloc: Global, node: &mut Traced<N>, on: bool)
    ensures { node.new ≡ record node.old { trace = turned on node.old.trace } }
{
    if on {
        node.begin_trace();
    } else {
        node.end_trace(alloc);
    }
}

/// Begins the trace of a node, without a line, or ends it and drops the lines that wait. A trace that is on stays as it is when it is begun
/// again.
#[unsafe(no_mangle)]
pub extern "C" fn postmig_node_trace(alloc: Global, handle: &mut Handle, on: bool) -> u32
    ensures turned { result ≡ 0 →
        TellsTrace handle.old.content (λ trace.
        handle.new.content ≡ with_trace handle.old.content (turned on trace)) }
    ensures not_open { result ≡ 2 → HasNoNode handle.old.content }
    ensures kept { result ≢ 0 → handle.new.content ≡ handle.old.content }
    ensures range { (result ≡ 0) ⊎ (result ≡ 2) }
{
    let Some(mut content) = handle.take(alloc) else {
        return NOT_OPEN;
    };
    let status = match &mut *content {
        Content::Source(node) => {
            turn(alloc, node, on);
            DONE
        }
        Content::Destination(node) => {
            turn(alloc, node, on);
            DONE
        }
        _ => NOT_OPEN,
    };
    *handle = Handle::of(content);
    status
}

/// Says how many lines wait in the trace of a node: 0 without one.
#[unsafe(no_mangle)]
pub extern "C" fn postmig_node_trace_count(
    alloc: Global,
    handle: &mut Handle,
    lines: &mut usize,
) -> u32
    ensures count { result ≡ 0 →
        TellsTrace handle.old.content (λ trace. lines.new ≡ lines_in trace) }
    ensures not_open { result ≡ 2 → HasNoNode handle.old.content }
    ensures same { handle.new.content ≡ handle.old.content }
    ensures range { (result ≡ 0) ⊎ (result ≡ 2) }
{
    let Some(content) = handle.take(alloc) else {
        return NOT_OPEN;
    };
    let status = match &*content {
        Content::Source(source) => {
            *lines = source.line_count();
            DONE
        }
        Content::Destination(destination) => {
            *lines = destination.line_count();
            DONE
        }
        _ => NOT_OPEN,
    };
    *handle = Handle::of(content);
    status
}

/// Writes a line, if it fits.
fn show_line(alloc: Global, line: TraceLine, out: &mut [u8], written: &mut usize) -> u32
    ensures all { result ≡ 0 → Fills (line_text line) written.new out.new }
    ensures long { result ≡ 1 → IsTooLong (line_text line) written.new out.new }
    ensures range { (result ≡ 0) ⊎ (result ≡ 1) ⊎ (result ≡ 4) }
{
    let mut text = String::new(alloc);
    match line.print(&mut text) {
        Ok(()) => hand_over(text.as_bytes(), out, written),
        Err(NoMemory) => NO_MEMORY,
    }
}

/// Takes the first line of the trace of a node.
fn take_line<N>(alloc: Global, node: &mut Traced<N>, out: &mut [u8], written: &mut usize) -> u32
    ensures all { result ≡ 0 → ShowsLine node.old.trace written.new out.new }
    ensures taken { result ≡ 0 →
        node.new ≡ record node.old { trace = without_line node.old.trace } }
    ensures long { result ≡ 1 → HasLongLine node.old.trace written.new out.new }
    ensures off { result ≡ 14 → node.old.trace ≡ Nothing }
    ensures kept { result ≢ 0 → node.new ≡ node.old }
    ensures range { (result ≡ 0) ⊎ (result ≡ 1) ⊎ (result ≡ 4) ⊎ (result ≡ 14) }
{
    if !node.has_trace() {
        return NO_TRACE;
    }
    let Some(line) = node.first_line() else {
        *written = 0;
        return DONE;
    };
    let status = show_line(alloc, line, out, written);
    if status == DONE {
        node.drop_line();
    }
    status
}

/// Takes the first line that waits in the trace of a node, and writes it with its line feed; `written` is 0 if none waits. If `out` is too
/// short the line still waits, and `written` is its length.
#[unsafe(no_mangle)]
pub extern "C" fn postmig_node_trace_take(
    alloc: Global,
    handle: &mut Handle,
    out: &mut [u8],
    written: &mut usize,
) -> u32
    ensures all { result ≡ 0 →
        TellsTrace handle.old.content (λ trace. ShowsLine trace written.new out.new) }
    ensures taken { result ≡ 0 →
        TellsTrace handle.old.content (λ trace.
        handle.new.content ≡ with_trace handle.old.content (without_line trace)) }
    ensures long { result ≡ 1 →
        TellsTrace handle.old.content (λ trace. HasLongLine trace written.new out.new) }
    ensures off { result ≡ 14 → TellsTrace handle.old.content (λ trace. trace ≡ Nothing) }
    ensures not_open { result ≡ 2 → HasNoNode handle.old.content }
    ensures kept { result ≢ 0 → handle.new.content ≡ handle.old.content }
    ensures range { (result ≡ 0) ⊎ (result ≡ 1) ⊎ (result ≡ 2) ⊎ (result ≡ 4) ⊎ (result ≡ 14) }
{
    let Some(mut content) = handle.take(alloc) else {
        return NOT_OPEN;
    };
    let status = match &mut *content {
        Content::Source(node) => take_line(alloc, node, out, written),
        Content::Destination(node) => take_line(alloc, node, out, written),
        _ => NOT_OPEN,
    };
    *handle = Handle::of(content);
    status
}
