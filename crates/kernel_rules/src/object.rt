//! Userfault objects, and what was registered with them.

/// A userfault object that is open.
#[derive(Clone, Copy)]
pub struct Object {
    /// The address space that it watches.
    pub space: u64,
    /// The program that opened it, by the line where that began; 0 where the log does not have it.
    pub program: u64,
    /// Whether read(2) waits for a message: O_NONBLOCK is not set.
    pub waits: bool,
    /// What the handshake asked for, if it was made.
    pub features: Option<u64>,
    /// Whether a call of the log has put a page by it.
    pub puts: bool,
}

/// A range of pages that was registered with an object.
#[derive(Clone, Copy)]
pub struct Registration {
    pub object: u64,
    pub first: u64,
    pub count: u64,
}
