//! Lines below the head of a log.

use std::process::Abort;
use std::test::Fail;
use uffd_log::parse::parse;
use uffd_log::{Answer, Call, Descriptor, Errno, Line, Message, Stamp};

const AT: Stamp = Stamp {
    time: 5493367269793,
    pid: 8608,
    tid: 8800,
};

const ON: Descriptor = Descriptor {
    object: 819552,
    fd: 15,
};

static LINES: [(&'static [u8], Option<Line>); 40] = [
    (
        b"5493367269793 8608 8800 started 8581 /usr/bin/x %20 12",
        Some(Line::Started {
            stamp: AT,
            parent: 8581,
        }),
    ),
    (
        b"5493367269793 8608 8800 forked 8581",
        Some(Line::Forked {
            stamp: AT,
            parent: 8581,
        }),
    ),
    (
        b"5493367269793 8608 8800 exit",
        Some(Line::Exit { stamp: AT }),
    ),
    (
        b"5493367269793 8608 8800 found 819552:15",
        Some(Line::Found { stamp: AT, on: ON }),
    ),
    (
        b"5493367269793 8608 8800 dropped 819552:15",
        Some(Line::Dropped { stamp: AT, on: ON }),
    ),
    (b"lost 3", Some(Line::Lost(3))),
    (
        b"5493367269793 8608 8800 begin 1 open syscall 0x80800",
        Some(Line::Begin {
            stamp: AT,
            number: 1,
            call: Call::Open {
                device: false,
                flags: 0x8_0800,
            },
        }),
    ),
    (
        b"5493367269793 8608 8800 begin 1 open device 0",
        Some(Line::Begin {
            stamp: AT,
            number: 1,
            call: Call::Open {
                device: true,
                flags: 0,
            },
        }),
    ),
    (
        b"5493367269793 8608 8800 end 1 ok 819552:15",
        Some(Line::End {
            stamp: AT,
            number: 1,
            answer: Answer::Opened(ON),
        }),
    ),
    (
        b"5493367269793 8608 8800 end 1 EMFILE",
        Some(Line::End {
            stamp: AT,
            number: 1,
            answer: Answer::Failed {
                errno: Errno::Other,
                bytes: None,
            },
        }),
    ),
    (
        b"5493367269793 8608 8800 begin 3 api 819552:15 0xaa 0x100",
        Some(Line::Begin {
            stamp: AT,
            number: 3,
            call: Call::Api {
                on: ON,
                api: 0xaa,
                features: 0x100,
            },
        }),
    ),
    (
        b"5493367269793 8608 8800 end 3 ok 0x1ffff 0x8000000000000003",
        Some(Line::End {
            stamp: AT,
            number: 3,
            answer: Answer::Features {
                features: 0x1_ffff,
                ioctls: 0x8000_0000_0000_0003,
            },
        }),
    ),
    (
        b"5493367269793 8608 8800 begin 4 register 819552:15 0x7fd5ade00000 0x800000 0x1",
        Some(Line::Begin {
            stamp: AT,
            number: 4,
            call: Call::Register {
                on: ON,
                start: 0x7fd5_ade0_0000,
                len: 0x80_0000,
                mode: 1,
            },
        }),
    ),
    (
        b"5493367269793 8608 8800 end 4 ok 0x13c",
        Some(Line::End {
            stamp: AT,
            number: 4,
            answer: Answer::Value(0x13c),
        }),
    ),
    (
        b"5493367269793 8608 8800 begin 5 scan 819552:15 0x1000 4096",
        Some(Line::Begin {
            stamp: AT,
            number: 5,
            call: Call::Scan {
                on: ON,
                start: 0x1000,
                len: 4096,
            },
        }),
    ),
    (
        b"5493367269793 8608 8800 have 5 0x1000 0x1000 1",
        Some(Line::Have {
            stamp: AT,
            number: 5,
            start: 0x1000,
            len: 0x1000,
            bits: 1,
        }),
    ),
    (
        b"5493367269793 8608 8800 begin 6 read 819552:15 32",
        Some(Line::Begin {
            stamp: AT,
            number: 6,
            call: Call::Read {
                on: ON,
                room: Some(32),
            },
        }),
    ),
    (
        b"5493367269793 8608 8800 begin 6 read 819552:15 -",
        Some(Line::Begin {
            stamp: AT,
            number: 6,
            call: Call::Read { on: ON, room: None },
        }),
    ),
    (
        b"5493367269793 8608 8800 message 6 fault 0x7fd5ade01000 1 8799",
        Some(Line::Read {
            stamp: AT,
            number: 6,
            message: Message::Fault {
                addr: 0x7fd5_ade0_1000,
                flags: 1,
                thread: 8799,
            },
        }),
    ),
    (
        b"5493367269793 8608 8800 message 6 fork 819552:15",
        Some(Line::Read {
            stamp: AT,
            number: 6,
            message: Message::Fork { child: ON },
        }),
    ),
    (
        b"5493367269793 8608 8800 message 6 remove 0x1000 0x3000",
        Some(Line::Read {
            stamp: AT,
            number: 6,
            message: Message::Remove {
                start: 0x1000,
                end: 0x3000,
            },
        }),
    ),
    (
        b"5493367269793 8608 8800 end 6 interrupted",
        Some(Line::End {
            stamp: AT,
            number: 6,
            answer: Answer::Interrupted,
        }),
    ),
    (
        b"5493367269793 8608 8800 begin 7 copy 819552:15 0x1000 0x560bc06ea12c 0x1000 0x0",
        Some(Line::Begin {
            stamp: AT,
            number: 7,
            call: Call::Copy {
                on: ON,
                to: 0x1000,
                from: 0x560b_c06e_a12c,
                len: 0x1000,
                mode: 0,
            },
        }),
    ),
    (
        b"5493367269793 8608 8800 end 7 EEXIST -17",
        Some(Line::End {
            stamp: AT,
            number: 7,
            answer: Answer::Failed {
                errno: Errno::Eexist,
                bytes: None,
            },
        }),
    ),
    (
        b"5493367269793 8608 8800 end 7 EAGAIN 4096",
        Some(Line::End {
            stamp: AT,
            number: 7,
            answer: Answer::Failed {
                errno: Errno::Eagain,
                bytes: Some(4096),
            },
        }),
    ),
    (
        b"5493367269793 8608 8800 begin 8 writeprotect 819552:15 0x1000 0x1000 0x1",
        Some(Line::Begin {
            stamp: AT,
            number: 8,
            call: Call::WriteProtect {
                on: ON,
                start: 0x1000,
                len: 0x1000,
                mode: 1,
            },
        }),
    ),
    (
        b"5493367269793 8608 8800 begin 9 mremap 0x1000 8192 4096 0x1 0x0",
        Some(Line::Begin {
            stamp: AT,
            number: 9,
            call: Call::Mremap {
                addr: 0x1000,
                old_len: 8192,
                new_len: 4096,
                flags: 1,
                target: 0,
            },
        }),
    ),
    (
        b"5493367269793 8608 8800 begin 10 fork",
        Some(Line::Begin {
            stamp: AT,
            number: 10,
            call: Call::Fork,
        }),
    ),
    (b"", None),
    (b" 5493367269793 8608 8800 exit", None),
    (b"5493367269793  8608 8800 exit", None),
    (b"5493367269793 8608 8800 exit ", None),
    (b"5493367269793 0 8800 exit", None),
    (b"5493367269793 8608 2147483648 exit", None),
    (
        b"5493367269793 8608 8800 begin 1 ioctl 819552:15 0xc020aa05",
        None,
    ),
    (
        b"5493367269793 8608 8800 begin 1 close 819552:4294967296",
        None,
    ),
    (b"5493367269793 8608 8800 have 5 0x1000 0x1000 0", None),
    (
        b"5493367269793 8608 8800 begin 4 register 819552:15 0x1000 0x1000",
        None,
    ),
    (b"5493367269793 8608 8800 end 4", None),
    (b"18446744073709551616 8608 8800 exit", None),
];

#[test]
fn lines_of_logs(rt: HostRuntime) -> Result<(), Fail> {
    let mut tokens = Vec::new(rt.alloc());
    for (i, (text, wanted)) in LINES.iter().enumerate() {
        let mut read = parse(&mut tokens, text);
        if read.is_err() {
            read = parse(&mut tokens, text);
        }
        assert!(&rt; read == Ok(*wanted), "line {i}");
    }
    Ok(())
}
