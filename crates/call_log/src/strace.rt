//! Whether a text is what strace writes, and so no log yet.

use memchr::memchr;

/// Whether a line looks like one of strace's: after a process and a time, which may be missing, comes a call's name with its arguments, and
/// what it returned.
pub(crate) fn is_of_strace(line: &[u8]) -> bool {
    let Some(open) = memchr(b'(', line) else {
        return false;
    };
    is_beginning(&line[..open]) && has_result(&line[open..])
}

/// Whether these bytes may be before the arguments of a call: a process, a time and the call's name.
fn is_beginning(front: &[u8]) -> bool {
    let (before, name) = match front.iter().rposition(|byte| *byte == b' ') {
        Some(blank) => (&front[..blank], &front[blank + 1..]),
        None => (b"".as_slice(), front),
    };
    !name.is_empty()
        && name.iter().all(|byte| is_of_name(*byte))
        && before.iter().all(|byte| is_of_stamp(*byte))
}

/// Whether a byte may be of a call's name.
fn is_of_name(byte: u8) -> bool {
    matches!(byte, b'a'..=b'z' | b'0'..=b'9' | b'_')
}

/// Whether a byte may be of a process or a time: `[pid 71]` or `71`, and `1764282000.000001` or `10:21:40`.
fn is_of_stamp(byte: u8) -> bool {
    matches!(
        byte,
        b'0'..=b'9' | b'.' | b':' | b'[' | b']' | b'p' | b'i' | b'd' | b' '
    )
}

/// Whether a call's result is among these bytes, or that it has none yet.
fn has_result(rest: &[u8]) -> bool {
    let mut is_after_blank = false;
    for byte in rest {
        if is_after_blank && matches!(*byte, b'=' | b'<') {
            return true;
        }
        is_after_blank = *byte == b' ';
    }
    false
}
