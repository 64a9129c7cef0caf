//! What calls are to a log, by their names.

use crate::text::look_up;

/// What a call is to a log.
#[derive(Clone, Copy)]
pub(crate) enum Kind {
    Userfaultfd,
    Ioctl,
    Read,
    Readv,
    Poll,
    Mmap,
    Munmap,
    Madvise,
    Mremap,
    Fork,
    Vfork,
    Execve,
    Close,
    CloseRange,
    Dup,
    Dup2,
    Dup3,
    Fcntl,
    PidfdGetfd,
    Sendmsg,
    Recvmsg,
    /// It may be made with an object, and is none of the language: it waits for it or sends it, or changes nothing.
    Passing,
    /// The end of a thread; it is not a call.
    End,
    Other,
}

static KINDS: [(&str, Kind); 41] = [
    ("userfaultfd", Kind::Userfaultfd),
    ("ioctl", Kind::Ioctl),
    ("read", Kind::Read),
    ("readv", Kind::Readv),
    ("poll", Kind::Poll),
    ("ppoll", Kind::Poll),
    ("mmap", Kind::Mmap),
    ("munmap", Kind::Munmap),
    ("madvise", Kind::Madvise),
    ("mremap", Kind::Mremap),
    ("clone", Kind::Fork),
    ("clone3", Kind::Fork),
    ("fork", Kind::Fork),
    ("vfork", Kind::Vfork),
    ("execve", Kind::Execve),
    ("close", Kind::Close),
    ("close_range", Kind::CloseRange),
    ("dup", Kind::Dup),
    ("dup2", Kind::Dup2),
    ("dup3", Kind::Dup3),
    ("fcntl", Kind::Fcntl),
    ("pidfd_getfd", Kind::PidfdGetfd),
    ("epoll_ctl", Kind::Passing),
    ("epoll_wait", Kind::Passing),
    ("epoll_pwait", Kind::Passing),
    ("epoll_pwait2", Kind::Passing),
    ("select", Kind::Passing),
    ("pselect6", Kind::Passing),
    ("sendmsg", Kind::Sendmsg),
    ("recvmsg", Kind::Recvmsg),
    ("fstat", Kind::Passing),
    ("newfstatat", Kind::Passing),
    ("statx", Kind::Passing),
    ("fstatfs", Kind::Passing),
    ("kcmp", Kind::Passing),
    ("readlink", Kind::Passing),
    ("readlinkat", Kind::Passing),
    ("exit_group", Kind::Passing),
    ("exit", Kind::Passing),
    ("rt_sigprocmask", Kind::Passing),
    ("+++", Kind::End),
];

impl Kind {
    /// The kind of the call that has this name.
    pub(crate) fn of(name: &[u8]) -> Kind {
        look_up(&KINDS, name).unwrap_or(Kind::Other)
    }
}
