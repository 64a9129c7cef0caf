//! The numbers that words say, and those that are printed.

use std::io;
use std::time::Duration;

/// The number that a word says.
pub fn number(word: &str) -> io::Result<u32> {
    match word.parse::<u32>() {
        Ok(number) => Ok(number),
        Err(_) => Err(io::Error::from(io::ErrorKind::InvalidInput)),
    }
}

/// The number of at most 255 that a word says.
pub fn small(word: &str) -> io::Result<u8> {
    match u8::try_from(number(word)?) {
        Ok(number) => Ok(number),
        Err(_) => Err(io::Error::from(io::ErrorKind::InvalidInput)),
    }
}

/// The nanoseconds for each of `count`.
pub fn nanoseconds(time: Duration, count: u32) -> u128 {
    time.as_nanos() / u128::from(count.max(1))
}
