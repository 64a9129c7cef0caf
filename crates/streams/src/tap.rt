//! Files that get what a command writes beside its output, as what is put on the wires of a run.

use crate::watched::{Watched, say_reason};
use std::fs::{File, Metadata};
use std::io::Write;
use std::os::unix::fs::MetadataExt;
use std::{fs, io};

/// A file that was made, or none, which takes every byte and keeps none.
#[derive(Drop)]
pub enum Tap {
    Nothing,
    File(File),
}

impl Write for Tap {
    fn write(&mut self, buf: &[u8]) -> io::Result<usize> {
        match self {
            Tap::Nothing => Ok(buf.len()),
            Tap::File(file) => file.write(buf),
        }
    }

    fn flush(&mut self) -> io::Result<()> {
        match self {
            Tap::Nothing => Ok(()),
            Tap::File(file) => file.flush(),
        }
    }
}

/// Whether both are one regular file.
fn is_one_file(one: &Metadata, other: &Metadata) -> bool {
    one.is_file() && other.is_file() && one.dev() == other.dev() && one.ino() == other.ino()
}

/// Whether two names are of one file that is regular, or would be made.
fn name_one_file(rt: &HostRuntime, one: &str, other: &str) -> bool {
    match (fs::metadata(rt, one), fs::metadata(rt, other)) {
        (Ok(first), Ok(second)) => is_one_file(&first, &second),
        _ => one == other,
    }
}

/// Whether a file for a wire is the file from which the script is read.
fn is_input(rt: &HostRuntime, input: &str, name: &str) -> bool {
    match (fs::metadata(rt, input), fs::metadata(rt, name)) {
        (Ok(input), Ok(found)) => is_one_file(&input, &found),
        _ => false,
    }
}

/// Says on standard error why no file for a wire is made.
fn say_why_not(rt: &HostRuntime, name: &str, reason: &str) {
    let _ = eprintln!(rt; "write fault");
    let _ = eprintln!(rt; "{name}: {reason}");
}

/// Whether the file for a wire is the input, which is said.
fn taps_input(rt: &HostRuntime, input: &str, name: Option<&str>) -> bool {
    match name {
        Some(name) if is_input(rt, input, name) => {
            say_why_not(rt, name, "the script is read from this file");
            true
        }
        _ => false,
    }
}

/// Whether two wires would share a file, which is said.
fn share_file(rt: &HostRuntime, one: Option<&str>, other: Option<&str>) -> bool {
    match (one, other) {
        (Some(one), Some(other)) if name_one_file(rt, one, other) => {
            say_why_not(rt, one, "two wires cannot be written to one file");
            true
        }
        _ => false,
    }
}

/// Whether each of these files can get what is put on a wire. Says on standard error which cannot: one is the file from which the script is
/// read (none: standard input), or two are one file.
pub fn can_tap(rt: &HostRuntime, input: Option<&str>, names: &[Option<&str>; 3]) -> bool {
    let input = input.unwrap_or("/dev/stdin");
    let [forward, back, urgent] = *names;
    let is_read = taps_input(rt, input, forward)
        || taps_input(rt, input, back)
        || taps_input(rt, input, urgent);
    !is_read
        && !share_file(rt, forward, back)
        && !share_file(rt, forward, urgent)
        && !share_file(rt, back, urgent)
}

/// Makes the file for a wire, if there is one. Says on standard error why it cannot be made.
pub fn make_tap<'a>(rt: &HostRuntime, name: Option<&'a str>) -> Option<Watched<'a, Tap>> {
    let Some(name) = name else {
        return Some(Watched::new("", Tap::Nothing));
    };
    match File::create(rt, name) {
        Ok(file) => Some(Watched::new(name, Tap::File(file))),
        Err(error) => {
            let _ = eprintln!(rt; "write fault");
            let _ = say_reason(rt, name, &error);
            None
        }
    }
}
