//! What may happen next in the world of a migration. A list of these is a schedule.

use crate::{Command, PageNo};

/// One step of a world: one event of a processor, a handler, a pusher, a delivery or the channel.
#[derive(Clone, Copy, Debug, PartialEq, Eq)]
pub enum Step {
    /// A processor issues a command.
    Issue { cpu: u8, command: Command },
    /// A processor that was woken tries its command again.
    Retry { cpu: u8 },
    /// The source begins a migration: it registers its pages, and sends Advise.
    Start,
    /// The source begins a round of pre-copy: QEMU's bitmap sync.
    Round,
    /// The source sends the least page of the round.
    Send,
    /// The source sends the least page of the round and those that follow it in the round without a gap, at most `count` of them, in
    /// one frame. A count of 0 is taken as 1, and one above [`MAX_RUN`](crate::MAX_RUN) as that.
    SendRun { count: u8 },
    /// The source's handler reads the next message of its userfault object.
    SourceRead,
    /// The source's handler resolves the first fault that it has read.
    SourceAct,
    /// The source stops its processors for good, and hands them over.
    Switch,
    /// At most `n` bytes reach the destination, and none past the first frame that they complete, which it takes.
    Deliver { n: u64 },
    /// At most `n` bytes reach the source, and none past the first frame that they complete, which it takes.
    DeliverBack { n: u64 },
    /// The destination's handler reads the next message of its userfault object.
    DestRead,
    /// The destination's handler resolves the first fault that it has read.
    DestAct,
    /// The destination installs the first copy that has arrived.
    Install,
    /// The source sends an owed page on the wire to the destination.
    Push(Ticket),
    /// The source sends an owed page on the urgent wire.
    PushUrgent(Ticket),
    /// At most `n` bytes of the urgent wire reach the destination, and none past the first frame that they complete, which it takes.
    DeliverUrgent { n: u64 },
    /// The source dequeues the oldest request of the destination, and sends nothing.
    Serve,
    /// The source sends End: nothing more follows.
    End,
    /// The channel breaks, and what is in flight is lost.
    Break,
    /// A side notices that the channel is broken.
    Notice(Side),
    /// Both sides continue over a new channel, in the next epoch.
    Resume,
}

/// A page to be pushed, and the epoch for which it was claimed.
#[derive(Clone, Copy, Debug, PartialEq, Eq)]
pub struct Ticket {
    pub epoch: u32,
    pub page: PageNo,
}

/// A side of the channel.
#[derive(Clone, Copy, Debug, PartialEq, Eq)]
pub enum Side {
    /// The source's.
    Source,
    /// The destination's.
    Destination,
}
