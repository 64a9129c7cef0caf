//! Lines of a run's output, which are neither scripts nor transcripts.

use crate::line_words::Words;
use crate::wanted::Wanted;

/// How the lines of effects begin, and with which word the others do.
const FRONTS: &[&str] = &[
    "started epoch ",
    "sent page 0x",
    "sent zero 0x",
    "sent run 0x",
    "read fault 0x",
    "read remove 0x",
    "read unmap 0x",
    "read remap 0x",
    "unprotected 0x",
    "zeroed 0x",
    "woke 0x",
    "forgot 0x",
    "requested 0x",
    "switched discard ",
    "moved ",
    "took ",
    "installed 0x",
    "dropped 0x",
    "asked 0x",
    "end sent",
    "broken",
    "paused ",
    "resumed epoch ",
    "refused ",
    "progress phase ",
];

/// Whether a line begins as a processor's reply, or as a round that was planned.
fn is_reply(line: &[u8]) -> bool {
    let mut words = Words::new(line, 0);
    let Some(first) = words.next() else {
        return false;
    };
    words.next();
    let Some(third) = words.next() else {
        return false;
    };
    if first.is(b"round") {
        return third.is(b"todo");
    }
    first.is(b"cpu") && (Wanted::Reply.admits(third.text) || third.is(b"asleep") || third.is(b"in"))
}

/// Whether a line is one of a run's output.
pub(crate) fn is_output(line: &[u8]) -> bool {
    for front in FRONTS {
        if line.starts_with(front.as_bytes()) {
            return true;
        }
    }
    is_reply(line)
}
