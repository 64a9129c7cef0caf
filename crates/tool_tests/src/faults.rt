//! The text of each fault, as `Display` writes it. Numbers stand for all others.
//!
//! `bench/check/faults.py` finds a fault that has no line here.

use call_log::LogFault;
use engine::RunFault;
use frame_decoder::StreamFault;
use frames::FramesFault;
use mig_base::fault::{BackFault, RebuildFault, TakeFault};
use mig_base::{Errno, NoMemory, Reply, Wake};
use nodes::FrameFault;
use page_table::PutFault;
use report::CheckFault;
use rig::CloseFault;
use std::alloc::{AllocError, Global};
use std::fmt;
use std::fmt::{Debug, Display, Write};
use std::test::Fail;
use uffd_ioctl::{CopyFault, IoctlFault};
use vcpu::NewFault;
use wiretap::{Channel, TapFault};

/// The faults of a space, of a guest and of frames.
const OF_NODES: &str = "\
NoMemory: no memory
PutFault::Present: the page is present
PutFault::NoMemory: no memory
NewFault::NoCpu: a guest has 1 to 16 processors
NewFault::NoMemory: no memory
IoctlFault::Errno(Eperm): operation not permitted
IoctlFault::Errno(Enoent): the range is not registered for this call as one area
IoctlFault::Errno(Eagain): the range is not done: read the waiting events, then go on from the first page left
IoctlFault::Errno(Enomem): out of memory
IoctlFault::Errno(Efault): bad address
IoctlFault::Errno(Eexist): the first page of the range is already present
IoctlFault::Errno(Einval): the object is not enabled for this call, or its range or mode is not valid
IoctlFault::NoMemory: out of memory
CopyFault { copied: 4096, fault: NoMemory, wake: Nobody }: out of memory after 4096 bytes
StreamFault::BadTag: unknown version or tag
StreamFault::BadLength: bad length of a frame
StreamFault::BadField: bad field in a frame
StreamFault::NoMemory: no memory
TakeFault::OutOfPlace: no such frame may come now
TakeFault::StaleEpoch: the frame is of another epoch
TakeFault::BadFrame: the contents of the frame do not fit what the destination has
TakeFault::InstallFirst: a copy that has arrived has to be installed first
TakeFault::UrgentFirst: frames of the urgent wire have to be taken first
TakeFault::NoMemory: out of memory
BackFault::OutOfPlace: no such frame may come now
BackFault::StaleEpoch: the frame is of another epoch
BackFault::NoMemory: out of memory
RebuildFault::BadOwed: the Recv contradicts the source
RebuildFault::NoMemory: out of memory
FrameFault::NotAFrame: the bytes are not those of one frame
FrameFault::OutOfPlace: no such frame may come now
FrameFault::StaleEpoch: the frame is of another epoch
FrameFault::BadFrame: the contents of the frame do not fit what the destination has
FrameFault::BadOwed: the Recv contradicts the source
FrameFault::InstallFirst: a copy that has arrived has to be installed first
FrameFault::UrgentFirst: frames of the urgent wire have to be taken first
FrameFault::NoMemory: out of memory
";

/// The faults of what runs, checks and reads, and of what closes a rig.
const OF_TOOLS: &str = "\
CheckFault::Wrong { index: 3, expected: Done }: entry 3: one flat memory answers otherwise
CheckFault::NoMemory: no memory
CloseFault::Answers(1): the answers of processor 1 are not those of its seat
CloseFault::Claims: a page of the claims is lost
RunFault::Line(17): line 17: not a script line
RunFault::ReadFault: read fault
RunFault::WriteFault: write fault
RunFault::NoMemory: no memory
FramesFault::Stream(BadTag): stream fault BadTag
FramesFault::Stream(BadLength): stream fault BadLength
FramesFault::Stream(BadField): stream fault BadField
FramesFault::Stream(NoMemory): stream fault NoMemory
FramesFault::Truncated: truncated stream
FramesFault::ReadFault: read fault
FramesFault::WriteFault: write fault
FramesFault::NoMemory: no memory
TapFault::Run(Line(17)): line 17: not a script line
TapFault::Run(NoMemory): no memory
TapFault::Wire(Forward): write fault
LogFault::NotALog: not a log: the first line is not 'uffdlog 1'
LogFault::StraceOutput: not a log, but what strace writes
LogFault::Packed: not a log, but packed: unpack it, as by 'zcat FILE | ./postmig audit'
LogFault::Empty: not a log: it is empty
LogFault::ReadFault: read fault
LogFault::WriteFault: write fault
LogFault::NoMemory: no memory
";

/// A text with room for the lines. Where memory is refused it is asked for again.
fn with_room(alloc: Global) -> Result<String, AllocError> {
    match String::with_capacity(alloc, 4096) {
        Ok(text) => Ok(text),
        Err(_) => String::with_capacity(alloc, 4096),
    }
}

/// Writes a line for each fault of a type: the name of the type, what `Debug` writes of the fault, and its text.
fn put<F: Debug + Display>(text: &mut String, of: &str, faults: &[F]) -> fmt::Result {
    for fault in faults {
        write!(text, "{of}{fault:?}: {fault}\n")?;
    }
    Ok(())
}

fn put_memory(text: &mut String) -> fmt::Result {
    put(text, "", &[NoMemory])?;
    put(text, "PutFault::", &[PutFault::Present, PutFault::NoMemory])?;
    put(text, "NewFault::", &[NewFault::NoCpu, NewFault::NoMemory])
}

fn put_calls(text: &mut String) -> fmt::Result {
    let errnos = [
        Errno::Eperm,
        Errno::Enoent,
        Errno::Eagain,
        Errno::Enomem,
        Errno::Efault,
        Errno::Eexist,
        Errno::Einval,
    ];
    for errno in errnos {
        put(text, "IoctlFault::", &[IoctlFault::Errno(errno)])?;
    }
    put(text, "IoctlFault::", &[IoctlFault::NoMemory])?;
    let stopped = CopyFault {
        copied: 4096,
        fault: IoctlFault::NoMemory,
        wake: Wake::Nobody,
    };
    put(text, "", &[stopped])
}

fn put_frames(text: &mut String) -> fmt::Result {
    put(
        text,
        "TakeFault::",
        &[
            TakeFault::OutOfPlace,
            TakeFault::StaleEpoch,
            TakeFault::BadFrame,
            TakeFault::InstallFirst,
            TakeFault::UrgentFirst,
            TakeFault::NoMemory,
        ],
    )?;
    let back = [
        BackFault::OutOfPlace,
        BackFault::StaleEpoch,
        BackFault::NoMemory,
    ];
    put(text, "BackFault::", &back)?;
    let rebuilt = [RebuildFault::BadOwed, RebuildFault::NoMemory];
    put(text, "RebuildFault::", &rebuilt)
}

fn put_nodes(text: &mut String) -> fmt::Result {
    put(
        text,
        "FrameFault::",
        &[
            FrameFault::NotAFrame,
            FrameFault::OutOfPlace,
            FrameFault::StaleEpoch,
            FrameFault::BadFrame,
            FrameFault::BadOwed,
            FrameFault::InstallFirst,
            FrameFault::UrgentFirst,
            FrameFault::NoMemory,
        ],
    )
}

const STREAM_FAULTS: [StreamFault; 4] = [
    StreamFault::BadTag,
    StreamFault::BadLength,
    StreamFault::BadField,
    StreamFault::NoMemory,
];

fn put_frame_streams(text: &mut String) -> fmt::Result {
    for fault in STREAM_FAULTS {
        put(text, "FramesFault::", &[FramesFault::Stream(fault)])?;
    }
    put(
        text,
        "FramesFault::",
        &[
            FramesFault::Truncated,
            FramesFault::ReadFault,
            FramesFault::WriteFault,
            FramesFault::NoMemory,
        ],
    )
}

fn put_runs(text: &mut String) -> fmt::Result {
    let wrong = CheckFault::Wrong {
        index: 3,
        expected: Reply::Done,
    };
    put(text, "CheckFault::", &[wrong, CheckFault::NoMemory])?;
    let closed = [CloseFault::Answers(1), CloseFault::Claims];
    put(text, "CloseFault::", &closed)?;
    put(
        text,
        "RunFault::",
        &[
            RunFault::Line(17),
            RunFault::ReadFault,
            RunFault::WriteFault,
            RunFault::NoMemory,
        ],
    )
}

fn put_taps_and_logs(text: &mut String) -> fmt::Result {
    put(
        text,
        "TapFault::",
        &[
            TapFault::Run(RunFault::Line(17)),
            TapFault::Run(RunFault::NoMemory),
            TapFault::Wire(Channel::Forward),
        ],
    )?;
    put(
        text,
        "LogFault::",
        &[
            LogFault::NotALog,
            LogFault::StraceOutput,
            LogFault::Packed,
            LogFault::Empty,
            LogFault::ReadFault,
            LogFault::WriteFault,
            LogFault::NoMemory,
        ],
    )
}

#[test]
fn faults_of_nodes(rt: HostRuntime) -> Result<(), Fail> {
    let mut text = with_room(rt.alloc())?;
    put_memory(&mut text)?;
    put_calls(&mut text)?;
    put(&mut text, "StreamFault::", &STREAM_FAULTS)?;
    put_frames(&mut text)?;
    put_nodes(&mut text)?;
    assert!(rt; text.as_str() == OF_NODES, "{text}");
    Ok(())
}

#[test]
fn faults_of_tools(rt: HostRuntime) -> Result<(), Fail> {
    let mut text = with_room(rt.alloc())?;
    put_runs(&mut text)?;
    put_frame_streams(&mut text)?;
    put_taps_and_logs(&mut text)?;
    assert!(rt; text.as_str() == OF_TOOLS, "{text}");
    Ok(())
}
