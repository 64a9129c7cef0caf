//! `Wire`, call by call.

use crate::parts::holds;
use mig_base::NoMemory;
use page_stream::Frame;
use std::process::Abort;
use wires::Wire;

/// A call with its arguments.
#[derive(Clone, Copy)]
enum Call {
    /// Reserves room for a frame, and sends an End in an epoch that announces this number of urgent frames: 16 bytes.
    Send(u32, u32),
    /// This number of bytes come.
    Arrive(u64),
    /// The first frame is taken off.
    Drop,
    Clear,
}

use Call::{Arrive, Clear, Drop, Send};

#[derive(Clone, Copy, PartialEq, Eq)]
enum Answer {
    Done,
    /// No frame is complete.
    Waits,
    /// The epoch of the frame that is complete, and what it tells.
    Came(u32, u32),
}

use Answer::{Came, Done, Waits};

fn told(frame: &Frame) -> u32 {
    match frame {
        Frame::End { urgent } => *urgent,
        _ => 0,
    }
}

fn send(wire: &mut Wire, epoch: u32, urgent: u32) -> Result<Answer, NoMemory> {
    wire.reserve(1)?;
    wire.push(epoch, Frame::End { urgent });
    Ok(Done)
}

fn arrive(wire: &mut Wire, n: u64) -> Result<Answer, NoMemory> {
    match wire.arrive(n) {
        Ok(Some(sent)) => Ok(Came(sent.epoch, told(&sent.frame))),
        Ok(None) => Ok(Waits),
        Err(NoMemory) => Err(NoMemory),
    }
}

fn make(wire: &mut Wire, call: Call) -> Result<Answer, NoMemory> {
    match call {
        Send(epoch, urgent) => return send(wire, epoch, urgent),
        Arrive(n) => return arrive(wire, n),
        Drop => wire.drop_first(),
        Clear => wire.clear(),
    }
    Ok(Done)
}

/// Makes a call, and once more where memory was refused.
fn make_again(
    rt: &impl Abort,
    wire: &mut Wire,
    call: Call,
    row: usize,
) -> Result<Answer, NoMemory> {
    let before = wire.is_empty();
    match make(wire, call) {
        Ok(answer) => Ok(answer),
        Err(NoMemory) => {
            holds(rt, wire.is_empty() == before, "refused", row);
            make(wire, call)
        }
    }
}

/// Plays a table.
fn play(rt: &impl Abort, wire: &mut Wire, steps: &[(Call, Answer)]) {
    for (i, (call, wanted)) in steps.iter().enumerate() {
        let answer = make_again(rt, wire, *call, i);
        holds(rt, answer == Ok(*wanted), "step", i);
    }
}

static IN_ORDER: [(Call, Answer); 17] = [
    (Arrive(0), Waits),
    (Drop, Done),
    (Send(1, 7), Done),
    (Send(1, 8), Done),
    (Send(2, 9), Done),
    (Arrive(0), Waits),
    (Arrive(15), Waits),
    // With one byte more it is complete. It stays until it is taken off.
    (Arrive(1), Came(1, 7)),
    (Arrive(1), Came(1, 7)),
    (Arrive(0), Waits),
    (Drop, Done),
    // None of the next frame has arrived.
    (Arrive(15), Waits),
    (Arrive(u64::MAX), Came(1, 8)),
    (Drop, Done),
    (Arrive(u64::MAX), Came(2, 9)),
    (Drop, Done),
    (Arrive(u64::MAX), Waits),
];

#[test]
fn frames_in_their_order(rt: HostRuntime) {
    let mut wire = Wire::new(rt.alloc());
    assert!(&rt; wire.is_empty());
    play(&rt, &mut wire, &IN_ORDER);
    assert!(&rt; wire.is_empty());
}

/// A frame that is taken off before its bytes have arrived leaves none of them.
static CUT_OFF: [(Call, Answer); 6] = [
    (Send(1, 7), Done),
    (Send(2, 8), Done),
    (Arrive(15), Waits),
    (Drop, Done),
    (Arrive(15), Waits),
    (Arrive(1), Came(2, 8)),
];

#[test]
fn a_frame_that_is_cut_off(rt: HostRuntime) {
    let mut wire = Wire::new(rt.alloc());
    play(&rt, &mut wire, &CUT_OFF);
}

static BROKEN: [(Call, Answer); 9] = [
    (Send(1, 7), Done),
    (Send(1, 8), Done),
    (Arrive(3), Waits),
    (Clear, Done),
    (Arrive(u64::MAX), Waits),
    (Send(2, 9), Done),
    (Arrive(15), Waits),
    (Arrive(1), Came(2, 9)),
    (Drop, Done),
];

#[test]
fn a_wire_that_breaks(rt: HostRuntime) {
    let mut wire = Wire::new(rt.alloc());
    play(&rt, &mut wire, &BROKEN);
    assert!(&rt; wire.is_empty());
}
