//! Flags, as strace prints them.

use crate::number::{decimal, number};
use crate::stop::{Shown, Stop, refused};
use crate::text::{Class, look_up, split_once, trimmed};
use std::alloc::Global;

/// Names of bits, or of values.
#[derive(Clone, Copy)]
pub(crate) enum Names {
    OpenFlags,
    Modes,
    Protections,
    MapFlags,
    RemapFlags,
    Advice,
    Events,
    /// Those of features and ioctls alone, which are read everywhere.
    Features,
}

pub(crate) const CLOSES_ON_EXEC: u64 = 0x80000;

static OPEN_FLAGS: [(&str, u64); 5] = [
    ("O_RDONLY", 0),
    ("O_RDWR", 2),
    ("O_NONBLOCK", 0x800),
    ("O_CLOEXEC", CLOSES_ON_EXEC),
    ("UFFD_USER_MODE_ONLY", 1),
];

static MODES: [(&str, u64); 13] = [
    ("UFFDIO_REGISTER_MODE_MISSING", 1),
    ("UFFDIO_REGISTER_MODE_WP", 2),
    ("UFFDIO_REGISTER_MODE_MINOR", 4),
    ("UFFDIO_COPY_MODE_DONTWAKE", 1),
    ("UFFDIO_COPY_MODE_WP", 2),
    ("UFFDIO_ZEROPAGE_MODE_DONTWAKE", 1),
    ("UFFDIO_WRITEPROTECT_MODE_WP", 1),
    ("UFFDIO_WRITEPROTECT_MODE_DONTWAKE", 2),
    ("UFFDIO_CONTINUE_MODE_DONTWAKE", 1),
    ("UFFDIO_CONTINUE_MODE_WP", 2),
    ("UFFDIO_POISON_MODE_DONTWAKE", 1),
    ("UFFDIO_MOVE_MODE_DONTWAKE", 1),
    ("UFFDIO_MOVE_MODE_ALLOW_SRC_HOLES", 2),
];

static PROTECTIONS: [(&str, u64); 6] = [
    ("PROT_NONE", 0),
    ("PROT_READ", 1),
    ("PROT_WRITE", 2),
    ("PROT_EXEC", 4),
    ("PROT_GROWSDOWN", 0x1000000),
    ("PROT_GROWSUP", 0x2000000),
];

static MAP_FLAGS: [(&str, u64); 18] = [
    ("MAP_FILE", 0),
    ("MAP_SHARED", 1),
    ("MAP_PRIVATE", 2),
    ("MAP_SHARED_VALIDATE", 3),
    ("MAP_FIXED", 0x10),
    ("MAP_ANONYMOUS", 0x20),
    ("MAP_32BIT", 0x40),
    ("MAP_GROWSDOWN", 0x100),
    ("MAP_DENYWRITE", 0x800),
    ("MAP_EXECUTABLE", 0x1000),
    ("MAP_LOCKED", 0x2000),
    ("MAP_NORESERVE", 0x4000),
    ("MAP_POPULATE", 0x8000),
    ("MAP_NONBLOCK", 0x10000),
    ("MAP_STACK", 0x20000),
    ("MAP_HUGETLB", 0x40000),
    ("MAP_SYNC", 0x80000),
    ("MAP_FIXED_NOREPLACE", 0x100000),
];

static REMAP_FLAGS: [(&str, u64); 3] = [
    ("MREMAP_MAYMOVE", 1),
    ("MREMAP_FIXED", 2),
    ("MREMAP_DONTUNMAP", 4),
];

static ADVICE: [(&str, u64); 25] = [
    ("MADV_NORMAL", 0),
    ("MADV_RANDOM", 1),
    ("MADV_SEQUENTIAL", 2),
    ("MADV_WILLNEED", 3),
    ("MADV_DONTNEED", 4),
    ("MADV_FREE", 8),
    ("MADV_REMOVE", 9),
    ("MADV_DONTFORK", 10),
    ("MADV_DOFORK", 11),
    ("MADV_MERGEABLE", 12),
    ("MADV_UNMERGEABLE", 13),
    ("MADV_HUGEPAGE", 14),
    ("MADV_NOHUGEPAGE", 15),
    ("MADV_DONTDUMP", 16),
    ("MADV_DODUMP", 17),
    ("MADV_WIPEONFORK", 18),
    ("MADV_KEEPONFORK", 19),
    ("MADV_COLD", 20),
    ("MADV_PAGEOUT", 21),
    ("MADV_POPULATE_READ", 22),
    ("MADV_POPULATE_WRITE", 23),
    ("MADV_DONTNEED_LOCKED", 24),
    ("MADV_COLLAPSE", 25),
    ("MADV_HWPOISON", 100),
    ("MADV_SOFT_OFFLINE", 101),
];

static EVENTS: [(&str, u64); 12] = [
    ("POLLIN", 1),
    ("POLLPRI", 2),
    ("POLLOUT", 4),
    ("POLLERR", 8),
    ("POLLHUP", 0x10),
    ("POLLNVAL", 0x20),
    ("POLLRDNORM", 0x40),
    ("POLLRDBAND", 0x80),
    ("POLLWRNORM", 0x100),
    ("POLLWRBAND", 0x200),
    ("POLLMSG", 0x400),
    ("POLLRDHUP", 0x2000),
];

/// The features after `UFFD_FEATURE_`.
static FEATURES: [(&str, u64); 17] = [
    ("PAGEFAULT_FLAG_WP", 1),
    ("EVENT_FORK", 2),
    ("EVENT_REMAP", 4),
    ("EVENT_REMOVE", 8),
    ("MISSING_HUGETLBFS", 0x10),
    ("MISSING_SHMEM", 0x20),
    ("EVENT_UNMAP", 0x40),
    ("SIGBUS", 0x80),
    ("THREAD_ID", 0x100),
    ("MINOR_HUGETLBFS", 0x200),
    ("MINOR_SHMEM", 0x400),
    ("EXACT_ADDRESS", 0x800),
    ("WP_HUGETLBFS_SHMEM", 0x1000),
    ("WP_UNPOPULATED", 0x2000),
    ("POISON", 0x4000),
    ("WP_ASYNC", 0x8000),
    ("MOVE", 0x10000),
];

/// The bits of ioctls, after `1<<_UFFDIO_`.
static IOCTL_BITS: [(&str, u64); 10] = [
    ("REGISTER", 1),
    ("UNREGISTER", 2),
    ("WAKE", 4),
    ("COPY", 8),
    ("ZEROPAGE", 0x10),
    ("MOVE", 0x20),
    ("WRITEPROTECT", 0x40),
    ("CONTINUE", 0x80),
    ("POISON", 0x100),
    ("API", 0x8000000000000000),
];

impl Names {
    /// The value of a name.
    fn value(self, word: &[u8]) -> Option<u64> {
        let table: &[(&str, u64)] = match self {
            Names::OpenFlags => &OPEN_FLAGS,
            Names::Modes => &MODES,
            Names::Protections => &PROTECTIONS,
            Names::MapFlags => &MAP_FLAGS,
            Names::RemapFlags => &REMAP_FLAGS,
            Names::Advice => &ADVICE,
            Names::Events => &EVENTS,
            Names::Features => return None,
        };
        look_up(table, word)
    }
}

/// The bits of a word that is one of the names, in one of the ways that strace has for them.
fn bits_of(word: &[u8], names: Names) -> Option<u64> {
    if let Some(size) = word.strip_suffix(b"<<MAP_HUGE_SHIFT") {
        return decimal(size)?.checked_mul(1 << 26);
    }
    if let Some(name) = word.strip_prefix(b"1<<_UFFDIO_") {
        return look_up(&IOCTL_BITS, name);
    }
    match word.strip_prefix(b"UFFD_FEATURE_") {
        Some(name) => look_up(&FEATURES, name),
        None => names.value(word),
    }
}

/// The bits of a word.
fn flag(alloc: Global, word: &[u8], names: Names) -> Result<u64, Stop> {
    if let Some(bits) = bits_of(word, names) {
        return Ok(bits);
    }
    if word.first().is_some_and(u8::is_ascii_digit) && !is_ioctl_bit(word) {
        return number(alloc, word);
    }
    let word = Shown(word);
    Err(refused(format!(in alloc; "unknown flag '{word}'")))
}

/// Whether a word has the form of an ioctl's bit.
fn is_ioctl_bit(word: &[u8]) -> bool {
    match word.strip_prefix(b"1<<_UFFDIO_") {
        Some(name) => !name.is_empty() && Class::Word.has_all(name),
        None => false,
    }
}

/// Without the comments, which strace puts between `/*` and `*/`.
fn without_comments(alloc: Global, text: &[u8]) -> Result<Vec<u8>, Stop> {
    let mut out = Vec::new(alloc);
    let mut rest = text;
    for _ in 0..text.len() {
        let Some((before, comment)) = split_once(rest, b"/*") else {
            break;
        };
        let Some((_, after)) = split_once(comment, b"*/") else {
            break;
        };
        out.extend_from_slice(before)?;
        rest = after;
    }
    out.extend_from_slice(rest)?;
    Ok(out)
}

/// The bits of flags, which stand between bars.
pub(crate) fn flags(alloc: Global, text: &[u8], names: Names) -> Result<u64, Stop> {
    let text = without_comments(alloc, text)?;
    let mut rest = trimmed(&text);
    let mut value = 0;
    for _ in 0..text.len() {
        let Some((word, after)) = split_once(rest, b"|") else {
            break;
        };
        value |= flag(alloc, trimmed(word), names)?;
        rest = after;
    }
    let last = flag(alloc, trimmed(rest), names)?;
    Ok(value | last)
}
