//! The bytes of `Message`, after `struct uffd_msg` of userfaultfd(2).

use crate::same::same;
use mig_base::Message;

/// The event, and the bytes from the ninth on, eight for each number.
type Bytes = (u8, [u8; 8], [u8; 8], [u8; 8]);

const NOTHING: [u8; 8] = [0; 8];

const LAYOUT: [(Message, Bytes); 6] = [
    (
        Message::PageFault {
            addr: 0x11000,
            write: true,
            wp: false,
            tid: 2,
        },
        (
            0x12,
            [1, 0, 0, 0, 0, 0, 0, 0],
            [0, 0x10, 1, 0, 0, 0, 0, 0],
            [2, 0, 0, 0, 0, 0, 0, 0],
        ),
    ),
    (
        Message::PageFault {
            addr: 0xfedc_b000,
            write: false,
            wp: true,
            tid: 0,
        },
        (
            0x12,
            [2, 0, 0, 0, 0, 0, 0, 0],
            [0, 0xb0, 0xdc, 0xfe, 0, 0, 0, 0],
            NOTHING,
        ),
    ),
    (
        Message::PageFault {
            addr: 0x10000,
            write: true,
            wp: true,
            tid: 0xfedc_ba98,
        },
        (
            0x12,
            [3, 0, 0, 0, 0, 0, 0, 0],
            [0, 0, 1, 0, 0, 0, 0, 0],
            [0x98, 0xba, 0xdc, 0xfe, 0, 0, 0, 0],
        ),
    ),
    (
        Message::Remap {
            from: 0x10000,
            to: 0x2000_0000,
            len: 0x3000,
        },
        (
            0x14,
            [0, 0, 1, 0, 0, 0, 0, 0],
            [0, 0, 0, 0x20, 0, 0, 0, 0],
            [0, 0x30, 0, 0, 0, 0, 0, 0],
        ),
    ),
    (
        Message::Remove {
            start: 0x12000,
            end: 0x1_0000_0000,
        },
        (
            0x15,
            [0, 0x20, 1, 0, 0, 0, 0, 0],
            [0, 0, 0, 0, 1, 0, 0, 0],
            NOTHING,
        ),
    ),
    (
        Message::Unmap {
            start: 0x12000,
            end: 0x13000,
        },
        (
            0x16,
            [0, 0x20, 1, 0, 0, 0, 0, 0],
            [0, 0x30, 1, 0, 0, 0, 0, 0],
            NOTHING,
        ),
    ),
];

#[test]
fn a_message_has_the_bytes_of_uffd_msg(rt: HostRuntime) {
    for (i, (message, (event, first, second, third))) in LAYOUT.iter().enumerate() {
        let mut wanted = [0; 32];
        wanted[0] = *event;
        wanted[8..16].copy_from_slice(first);
        wanted[16..24].copy_from_slice(second);
        wanted[24..].copy_from_slice(third);
        same(&rt, &message.to_bytes(), &wanted, "message", i);
    }
}
