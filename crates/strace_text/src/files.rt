//! Which userfault object each descriptor is.

ghost use Rattle.std.specs.Prelude.{◌≤◌, vec_len};

use std::alloc::{AllocError, Global};

/// A descriptor, and the object that it is.
#[derive(Clone, Copy)]
pub(crate) struct On {
    pub(crate) object: u64,
    pub(crate) fd: u64,
}

/// A descriptor of an object, as a process has it.
#[derive(Clone, Copy)]
pub(crate) struct Held {
    pub(crate) fd: u64,
    pub(crate) object: u64,
    /// Whether execve closes it.
    pub(crate) closes: bool,
}

impl Held {
    pub(crate) fn on(self) -> On {
        On {
            object: self.object,
            fd: self.fd,
        }
    }
}

/// The descriptors of a process that are objects, in the order of their numbers.
#[derive(Drop)]
pub(crate) struct Files {
    pub(crate) held: Vec<Held>,
}

impl Files {
    pub(crate) fn new(alloc: Global) -> Files {
        Files {
            held: Vec::new(alloc),
        }
    }

    /// The same descriptors, or those alone that execve does not close.
    pub(crate) fn copy(&self, alloc: Global, survives: bool) -> Result<Files, AllocError> {
        let mut held = Vec::new(alloc);
        for one in &self.held {
            if !survives || !one.closes {
                held.push(*one)?;
            }
        }
        Ok(Files { held })
    }

    pub(crate) fn get(&self, fd: u64) -> Option<Held> {
        for held in &self.held {
            if held.fd == fd {
                return Some(*held);
            }
        }
        None
    }

    /// How many descriptors come before this one.
    fn place(&self, fd: u64) -> usize
        ensures { result ≤ vec_len self.now.held }
    {
        for (at, held) in self.held.iter().enumerate() {
            if held.fd >= fd {
                return at;
            }
        }
        self.held.len()
    }

    /// Puts a descriptor, which may be another object's until now.
    pub(crate) fn put(&mut self, held: Held) -> Result<(), AllocError> {
        self.remove(held.fd);
        let place = self.place(held.fd);
        self.held.insert(place, held)?;
        Ok(())
    }

    pub(crate) fn remove(&mut self, fd: u64) {
        self.held.retain(|held| held.fd != fd);
    }
}
