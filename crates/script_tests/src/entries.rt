//! Lines of transcripts.

use grammar::parse::parse;
use grammar::{Language, Line};
use mig_base::{Command, Entry, Errno, Place, Prot, Reply};
use std::process::Abort;
use std::test::Fail;

static ENTRIES: [(&'static [u8], Option<Entry>); 20] = [
    (
        b"0 load 0x10ffc 4 => value 0x11223344",
        Some(Entry {
            cpu: 0,
            command: Command::Load {
                addr: 0x1_0ffc,
                width: 4,
            },
            reply: Reply::Value(0x1122_3344),
        }),
    ),
    (
        b"  255  store 65536 0x8 7   =>  segv  protected ",
        Some(Entry {
            cpu: 255,
            command: Command::Store {
                addr: 0x1_0000,
                width: 8,
                value: 7,
            },
            reply: Reply::Segv { mapped: true },
        }),
    ),
    (
        b"1 load 0x10001 2 => bad access",
        Some(Entry {
            cpu: 1,
            command: Command::Load {
                addr: 0x1_0001,
                width: 2,
            },
            reply: Reply::BadAccess,
        }),
    ),
    (
        b"1 load 0x0 1 => segv unmapped",
        Some(Entry {
            cpu: 1,
            command: Command::Load { addr: 0, width: 1 },
            reply: Reply::Segv { mapped: false },
        }),
    ),
    (
        b"0 mmap 8192 rw fixed 0x10000 => at 0x10000",
        Some(Entry {
            cpu: 0,
            command: Command::Mmap {
                addr_len: 8192,
                prot: Prot::ReadWrite,
                place: Place::Fixed(0x1_0000),
            },
            reply: Reply::At(0x1_0000),
        }),
    ),
    (
        b"0 munmap 0x10000 8192 => done",
        Some(Entry {
            cpu: 0,
            command: Command::Munmap {
                addr: 0x1_0000,
                len: 8192,
            },
            reply: Reply::Done,
        }),
    ),
    (
        b"0 mremap 0x10000 1 2 maymove => refused EFAULT",
        Some(Entry {
            cpu: 0,
            command: Command::Mremap {
                addr: 0x1_0000,
                old_len: 1,
                new_len: 2,
                may_move: true,
                fixed: None,
            },
            reply: Reply::Refused(Errno::Efault),
        }),
    ),
    (
        b"0 dontneed 0x10000 4096 => refused EINVAL",
        Some(Entry {
            cpu: 0,
            command: Command::DontNeed {
                addr: 0x1_0000,
                len: 4096,
            },
            reply: Reply::Refused(Errno::Einval),
        }),
    ),
    (b"0 load 0x10000 8=> done", None),
    (b"0 load 0x10000 8 =>", None),
    (b"0 load 0x10000 8", None),
    (b"0 load 0x10000 8 => done => done", None),
    (b"0 => done", None),
    (b"256 load 0x10000 8 => done", None),
    (b"cpu 0 load 0x10000 8 => done", None),
    (b"0 load 0x10000 8 => refused EIO", None),
    (b"0 load 0x10000 8 => segv", None),
    (b"0 load 0x10000 8 => value", None),
    (b"start", None),
    (b"progress", None),
];

#[test]
fn lines_of_transcripts(rt: HostRuntime) -> Result<(), Fail> {
    let mut tokens = Vec::new(rt.alloc());
    for (i, (text, entry)) in ENTRIES.iter().enumerate() {
        let mut read = parse(Language::Transcript, &mut tokens, text);
        if read.is_err() {
            read = parse(Language::Transcript, &mut tokens, text);
        }
        let wanted = entry.map(Line::Enter);
        assert_eq!(&rt; read, Ok(wanted), "line {i}");
    }
    Ok(())
}
