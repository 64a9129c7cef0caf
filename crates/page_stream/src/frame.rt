//! The frames.

use crate::lists::{Pages, Waiting};
use area_map::AreaMap;
use mig_base::phase::Received;
use mig_base::{PageBytes, PageNo, PageSet};

/// A message from one node to the other, after QEMU's postcopy document.
#[derive(Drop)]
pub enum Frame {
    /// A migration begins.
    Advise,
    /// The bytes of a page.
    Page {
        page: PageNo,
        bytes: PageBytes,
    },
    /// A page of zeros.
    Zero {
        page: PageNo,
    },
    /// The bytes of neighbouring pages, starting at `first`.
    Run {
        first: PageNo,
        pages: Pages,
    },
    /// The pages whose copies at the destination are out of date.
    Discard {
        pages: PageSet,
    },
    /// The mapped pages, the owed pages, which are present at the source and still to come, and the outstanding command of each processor.
    /// With it the destination runs.
    Package {
        areas: AreaMap,
        owed: PageSet,
        commands: Waiting,
    },
    /// Nothing more is sent. `urgent` is the number of frames that were put on the urgent wire in this epoch.
    End {
        urgent: u32,
    },
    /// The channel is up again.
    Resume,
    /// Back to the source: the destination asks for a page.
    Request {
        page: PageNo,
    },
    /// Back to the source, as the answer to Resume: how far the destination has come, and the pages that it still needs.
    Recv {
        state: Received,
        owed: PageSet,
    },
    /// Back to the source: nothing more is needed.
    Done,
}
