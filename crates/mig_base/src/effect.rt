//! What an accepted step of a migration did, as its caller sees it.

use crate::phase::Received;
use crate::schedule::Side;
use crate::{Addr, Message, Reply};

/// What an accepted step did. Each address is the first of a page, in bytes.
#[derive(Clone, Copy, Debug, PartialEq, Eq)]
pub enum Effect {
    /// The command of a processor was answered.
    Answered {
        cpu: u8,
        reply: Reply,
    },
    /// A processor sleeps on the page of its load or store.
    Asleep {
        cpu: u8,
    },
    /// A processor is in a map call until `messages` messages have been read.
    InCall {
        cpu: u8,
        messages: u8,
    },
    /// A migration has begun, in this epoch.
    Started {
        epoch: u32,
    },
    /// A round has begun, with `todo` pages to be sent.
    RoundMade {
        round: u32,
        todo: u32,
    },
    /// A page was sent.
    SentPage {
        addr: Addr,
    },
    /// A page of zeros was sent.
    SentZero {
        addr: Addr,
    },
    /// `pages` neighbouring pages were sent, the first of them at the address.
    SentRun {
        addr: Addr,
        pages: u32,
    },
    /// A page fault was read: a write-protect fault, or one of a missing page.
    ReadFault {
        addr: Addr,
        wp: bool,
    },
    /// An event was read, and others of its call are unread.
    ReadEvent {
        event: Message,
    },
    /// The last event of a map call was read, and the processor has its reply.
    ReadLast {
        event: Message,
        cpu: u8,
        reply: Reply,
    },
    /// The protection of a page was cleared.
    Unprotected {
        addr: Addr,
    },
    /// A missing page was made zeros.
    Zeroed {
        addr: Addr,
    },
    /// The sleepers of a page were woken: it is present.
    Woke {
        addr: Addr,
    },
    /// The sleepers of a page were woken: it is no longer mapped, or no longer registered.
    Forgot {
        addr: Addr,
    },
    /// The page of the source at `origin` was requested: it is owed at `addr`.
    Requested {
        origin: Addr,
        addr: Addr,
    },
    /// The source has stopped its processors. It has the destination discard `discard` pages, and owes `owed` pages.
    Switched {
        discard: u32,
        owed: u32,
    },
    /// `bytes` bytes were moved, and completed no frame.
    Moved {
        bytes: u64,
    },
    /// The destination knows of the migration.
    TookAdvise,
    /// The destination has the bytes of a page.
    TookPage {
        addr: Addr,
    },
    /// The destination knows that a page is zeros.
    TookZero {
        addr: Addr,
    },
    /// The destination has the bytes of `pages` neighbouring pages, the first of them at the address.
    TookRun {
        addr: Addr,
        pages: u32,
    },
    /// The destination has dropped its copies of `pages` pages.
    TookDiscard {
        pages: u32,
    },
    /// The destination runs the processors, and is owed `owed` pages.
    TookPackage {
        owed: u32,
    },
    /// The destination knows that nothing more is sent.
    TookEnd,
    /// The destination continues after a break.
    TookResume,
    /// The source knows that a page is requested.
    TookRequest {
        addr: Addr,
    },
    /// The source knows how far the destination has come, and that it needs `pages` pages.
    TookRecv {
        state: Received,
        pages: u32,
    },
    /// The source knows that the destination has everything, and has released its memory.
    TookDone,
    /// A copy was installed at the address, from the page of the source that was owed there.
    Installed {
        addr: Addr,
        origin: Addr,
    },
    /// A copy of a page of the source was dropped: it is owed nowhere.
    Dropped {
        origin: Addr,
    },
    /// The source has dequeued a request for the page at the address.
    Asked {
        addr: Addr,
    },
    /// The source has sent End: nothing more is sent.
    EndSent,
    /// The channel is broken.
    Broken,
    /// A side has noticed that the channel is broken.
    Noticed {
        side: Side,
    },
    /// Both sides continue over a new channel, in this epoch.
    Resumed {
        epoch: u32,
    },
}
