//! Writers that take a byte at a time, none, or fail. A run that is refused memory is made once more.

use engine::RunFault;
use std::alloc::Global;
use std::io;
use std::io::Write;
use std::sync::Wait;
use std::test::Fail;
use std::thread::Threads;
use threads::{Scenario, run_threads};

/// Takes one byte at a time, and no more than this many. Then it fails, or takes none.
#[derive(Drop)]
struct Narrow {
    bytes: Vec<u8>,
    most: usize,
    fails: bool,
}

impl Write for Narrow {
    fn write(&mut self, buf: &[u8]) -> io::Result<usize> {
        match buf.first() {
            Some(byte) if self.bytes.len() < self.most => {
                self.bytes.push(*byte)?;
                Ok(1)
            }
            _ if self.fails => Err(io::Error::from(io::ErrorKind::Other)),
            _ => Ok(0),
        }
    }

    fn flush(&mut self) -> io::Result<()> {
        Ok(())
    }
}

/// A run of one processor with one store and one load: whether nothing was found wrong. It is made once more if it was refused memory and
/// has written nothing.
fn run<R: Threads + Wait + Sync>(
    rt: &R,
    alloc: Global,
    out: &mut Narrow,
) -> Result<bool, RunFault> {
    match run_once(rt, alloc, out) {
        Err(RunFault::NoMemory) if out.bytes.is_empty() => run_once(rt, alloc, out),
        ended => ended,
    }
}

fn run_once<R: Threads + Wait + Sync>(
    rt: &R,
    alloc: Global,
    out: &mut Narrow,
) -> Result<bool, RunFault> {
    let scenario = Scenario {
        cpus: 1,
        calls: 1,
        cut: false,
    };
    match run_threads(rt, alloc, out, scenario) {
        Ok(run) => Ok(run.fault.is_none()),
        Err(fault) => Err(fault),
    }
}

/// Whether the report of a run ends where such a writer does.
fn is_cut_off<R: Threads + Wait + Sync>(rt: &R, alloc: Global, most: usize, fails: bool) -> bool {
    let wanted = "cpu 0 calls 3\ntranscript 3\nclose ok\n".as_bytes();
    let mut out = Narrow {
        bytes: Vec::new(alloc),
        most,
        fails,
    };
    let answer = run(rt, alloc, &mut out);
    if most < wanted.len() {
        answer == Err(RunFault::WriteFault) && wanted.starts_with(&out.bytes)
    } else {
        answer == Ok(true) && out.bytes.as_slice() == wanted
    }
}

#[test]
fn a_write_that_takes_none_or_fails(rt: HostRuntime) -> Result<(), Fail> {
    assert!(rt; is_cut_off(&rt, rt.alloc(), 0, false));
    assert!(rt; is_cut_off(&rt, rt.alloc(), 5, true));
    assert!(rt; is_cut_off(&rt, rt.alloc(), 100, false));
    Ok(())
}
