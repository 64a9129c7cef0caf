//! The error of a call that failed. The only reason to expect is that memory ran out.

use mig_base::NoMemory;
use mig_base::refusal::Refusal;
use std::io;

/// A call was refused, or did something else than it is made for.
#[derive(Clone, Copy)]
pub struct Failed;

pub fn call_failed(_: Failed) -> io::Error {
    io::Error::from(io::ErrorKind::OutOfMemory)
}

pub fn refused(_: Refusal) -> io::Error {
    io::Error::from(io::ErrorKind::OutOfMemory)
}

pub fn lacking(_: NoMemory) -> io::Error {
    io::Error::from(io::ErrorKind::OutOfMemory)
}
