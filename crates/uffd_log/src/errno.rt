//! Error numbers.

/// Why a call failed: those that the rules of a userfault object speak of, and all others by their number, where the log has one.
#[derive(Clone, Copy, PartialEq, Eq)]
pub enum Errno {
    Eperm,
    Enoent,
    Esrch,
    Eintr,
    Eagain,
    Enomem,
    Efault,
    Ebusy,
    Eexist,
    Einval,
    /// Another one.
    Other,
}
