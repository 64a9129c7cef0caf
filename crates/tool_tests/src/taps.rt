//! The crate `wiretap`: bytes of wires that were worked out by hand, and readers and writers that take pieces, fail or stop.
//!
//! `bench/compare/wires.py` compares the wires of many scripts with their output.

use engine::{Mode, RunFault, Setup, run_script};
use std::alloc::{AllocError, Global};
use std::process::Abort;
use std::test::Fail;
use test_kit::{OneByte, Pieces};
use wiretap::{Channel, TapFault, Taps};

/// A page of zeros is sent and lost, then two are owed: one is pushed, and the other one requested.
const SCRIPT: &[u8] = b"cpu 0 mmap 8192 rw
cpu 0 store 0x10000 1 0
cpu 1 store 0x11000 1 0
start
round
send
break
notice source
notice dest
resume
deliver
back
switch
deliver
deliver
cpu 0 load 0x11000 1
dread
dact
back
serve
upush 0x11000
push 0x10000
end
udeliver
install
deliver
install
deliver
back";

/// Advise and Zero of epoch 1; of epoch 2 Resume, Discard, Package, Zero and End: 12, 16, 12, 16, 40, 16 and 16 bytes.
const FORWARD: &[u8] =
    b"\x02\x01\x00\x00\x00\x00\x00\x01\x00\x00\x00\x00\x02\x03\x00\x00\x00\x00\x00\x01\x00\x00\x00\x04\x00\x00\x00\x10\x02\x07\x00\x00\x00\x00\x00\x02\x00\x00\x00\x00\x02\x04\x00\x00\x00\x00\x00\x02\x00\x00\x00\x04\x00\x00\x00\x00\x02\x05\x00\x00\x00\x00\x00\x02\x00\x00\x00\x1c\x00\x00\x00\x01\x00\x00\x00\x10\x00\x00\x00\x02\x02\x00\x00\x00\x01\x00\x00\x00\x10\x00\x00\x00\x02\x02\x00\x00\x02\x03\x00\x00\x00\x00\x00\x02\x00\x00\x00\x04\x00\x00\x00\x10\x02\x06\x00\x00\x00\x00\x00\x02\x00\x00\x00\x04\x00\x00\x00\x01";

/// Recv, Request and Done: 17, 16 and 12 bytes.
const BACK: &[u8] =
    b"\x02\x82\x00\x00\x00\x00\x00\x02\x00\x00\x00\x05\x00\x00\x00\x00\x00\x02\x81\x00\x00\x00\x00\x00\x02\x00\x00\x00\x04\x00\x00\x00\x11\x02\x83\x00\x00\x00\x00\x00\x02\x00\x00\x00\x00";

/// Zero.
const URGENT: &[u8] = b"\x02\x03\x00\x00\x00\x00\x00\x02\x00\x00\x00\x04\x00\x00\x00\x11";

/// No case writes more bytes.
const MOST: usize = 2_000;

const LINES: Setup = Setup {
    cpus: 2,
    mode: Mode::Lines,
};

/// The write of each writer that fails, counted from 1, if one does: of the output, forward, back, and of the urgent wire.
type Failing = [u32; 4];

/// How a run ended, and what it wrote.
#[derive(Drop)]
struct Ended {
    fault: Option<TapFault>,
    output: Vec<u8>,
    forward: Vec<u8>,
    back: Vec<u8>,
    urgent: Vec<u8>,
}

/// A writer with room, on the second try if the first is refused memory: then no write is refused any.
fn writer(alloc: Global, fails_at: u32) -> Result<OneByte, AllocError> {
    let bytes = match Vec::with_capacity(alloc, MOST) {
        Ok(room) => room,
        Err(AllocError) => Vec::with_capacity(alloc, MOST)?,
    };
    Ok(OneByte {
        bytes,
        fails_at,
        writes: 0,
        most: MOST,
    })
}

/// How the script of two processors ends that is read in pieces of a size.
fn played_once(alloc: Global, size: usize, failing: Failing) -> Result<Ended, AllocError> {
    let mut reader = Pieces {
        bytes: SCRIPT,
        size,
        fails_at: 0,
        reads: 0,
    };
    let [output, forward, back, urgent] = failing;
    let mut output = writer(alloc, output)?;
    let mut taps = Taps {
        forward: writer(alloc, forward)?,
        back: writer(alloc, back)?,
        urgent: writer(alloc, urgent)?,
    };
    let outcome = taps.run_tapped(alloc, &mut reader, &mut output, LINES);
    let Taps {
        forward,
        back,
        urgent,
    } = taps;
    Ok(Ended {
        fault: outcome.err(),
        output: output.bytes,
        forward: forward.bytes,
        back: back.bytes,
        urgent: urgent.bytes,
    })
}

/// The same. It is played again if memory is refused: then fronts of the bytes were written.
fn played(rt: &impl Abort, alloc: Global, size: usize, failing: Failing) -> Result<Ended, Fail> {
    let played = played_once(alloc, size, failing)?;
    if played.fault == Some(TapFault::Run(RunFault::NoMemory)) {
        assert!(rt; FORWARD.starts_with(&played.forward));
        assert!(rt; BACK.starts_with(&played.back));
        assert!(rt; URGENT.starts_with(&played.urgent));
        return Ok(played_once(alloc, size, failing)?);
    }
    Ok(played)
}

/// What `run_script` writes.
fn printed(alloc: Global) -> Result<Vec<u8>, AllocError> {
    for _ in 0..2 {
        let mut output = writer(alloc, 0)?;
        let mut reader = SCRIPT;
        if run_script(alloc, &mut reader, &mut output, LINES).is_ok() {
            return Ok(output.bytes);
        }
    }
    Err(AllocError)
}

#[test]
fn the_wires_of_a_run(rt: HostRuntime) -> Result<(), Fail> {
    let output = printed(rt.alloc())?;
    assert!(rt; output.ends_with(b"took end\ntook done\n"));
    for size in [1, 7, 50_000] {
        let played = played(&rt, rt.alloc(), size, [0; 4])?;
        assert_eq!(rt; played.fault, None);
        assert_eq!(rt; played.forward.as_slice(), FORWARD);
        assert_eq!(rt; played.back.as_slice(), BACK);
        assert_eq!(rt; played.urgent.as_slice(), URGENT);
        assert_eq!(rt; played.output.as_slice(), output.as_slice());
    }
    Ok(())
}

#[test]
fn each_writer_fails(rt: HostRuntime) -> Result<(), Fail> {
    for at in [1u32, 12, 13, 16] {
        let count = at.saturating_sub(1);
        let size = 50_000;
        let one = played(&rt, rt.alloc(), size, [0, at, 0, 0])?;
        assert_eq!(rt; one.fault, Some(TapFault::Wire(Channel::Forward)));
        assert!(rt; one.forward.len() == count as usize && FORWARD.starts_with(&one.forward));
        assert!(rt; one.back.is_empty());
        let one = played(&rt, rt.alloc(), size, [0, 0, at, 0])?;
        assert_eq!(rt; one.fault, Some(TapFault::Wire(Channel::Back)));
        assert!(rt; one.back.len() == count as usize && BACK.starts_with(&one.back));
        let one = played(&rt, rt.alloc(), size, [0, 0, 0, at])?;
        assert_eq!(rt; one.fault, Some(TapFault::Wire(Channel::Urgent)));
        assert!(rt; one.urgent.len() == count as usize && URGENT.starts_with(&one.urgent));
    }
    Ok(())
}

#[test]
fn the_output_fails(rt: HostRuntime) -> Result<(), Fail> {
    // The line of `start` fails; the frame that it put is not written.
    let one = played(&rt, rt.alloc(), 50_000, [50, 0, 0, 0])?;
    assert_eq!(rt; one.fault, Some(TapFault::Run(RunFault::WriteFault)));
    assert_eq!(rt; one.output.len(), 49);
    assert!(rt; one.forward.is_empty());
    Ok(())
}
