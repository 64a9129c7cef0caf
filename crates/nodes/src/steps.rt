//! The steps of each node, as calls.

use mig_base::Command;
use mig_base::schedule::Ticket;

/// A step of a source. Each is the step of `mig_base::schedule::Step` of the same name.
#[derive(Clone, Copy, Debug, PartialEq, Eq)]
pub enum SourceStep {
    /// A processor makes a command.
    Issue { cpu: u8, command: Command },
    /// A processor that was woken makes its load or store again.
    Retry { cpu: u8 },
    /// A migration begins.
    Start,
    /// A round of pre-copy begins.
    Round,
    /// The least page of the round was sent.
    Send,
    /// The least page of the round and those that follow it without a gap, at most `most`, were sent in one frame.
    RunSent { most: u8 },
    /// The handler reads a message.
    Read,
    /// The handler resolves the first fault that it has read.
    Act,
    /// The processors stop for good.
    Switch,
    /// An owed page was sent.
    Push(Ticket),
    /// An owed page was sent on the urgent wire.
    PushUrgent(Ticket),
    /// The oldest request is dequeued.
    Serve,
    /// Nothing more is sent.
    End,
    /// The source notices that the channel is broken.
    Notice,
    /// The next epoch begins, over a new channel.
    Resume,
}

/// A step of a destination, other than the taking of a frame.
#[derive(Clone, Copy, Debug, PartialEq, Eq)]
pub enum DestinationStep {
    /// A processor makes a command.
    Issue { cpu: u8, command: Command },
    /// A processor that was woken makes its load or store again.
    Retry { cpu: u8 },
    /// The handler reads a message.
    Read,
    /// The handler resolves the first fault that it has read.
    Act,
    /// The first copy that has arrived is installed.
    Install,
    /// The destination notices that the channel is broken.
    Notice,
}
