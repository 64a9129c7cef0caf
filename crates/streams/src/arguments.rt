//! What is said of arguments that are not text.

use std::env::{Env, FillError};
use std::io;

/// The most bytes of an argument that a message shows.
const LONGEST_SHOWN: usize = 4096;

/// Says on standard error which argument is not UTF-8: its number, and its bytes with those that are not text replaced. An argument of
/// more than 4,096 bytes is skipped.
pub fn name_bad_argument(rt: &HostRuntime) -> io::Result<()> {
    let mut room = [0; LONGEST_SHOWN];
    for number in 1..usize::MAX {
        let shown = match rt.arg(number, &mut room) {
            Ok(len) => &room[..len],
            Err(FillError::TooLong) => continue,
            Err(FillError::NotPresent) => break,
        };
        if str::from_utf8(shown).is_err() {
            let text = String::from_utf8_lossy(rt.alloc(), shown)?;
            eprintln!(rt; "error: argument {number} is not UTF-8: '{text}'")?;
        }
    }
    eprintln!(rt; "\nFor more information, try '--help'.")
}
