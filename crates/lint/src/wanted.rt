//! What may be in a place of a line.

/// What is expected in a place of a line.
#[derive(Clone, Copy)]
pub(crate) enum Wanted {
    /// The first word of a script line.
    Order,
    Cpu,
    Command,
    Addr,
    Width,
    Value,
    Len,
    OldLen,
    NewLen,
    Protection,
    /// The words for the place of a new mapping, which may be left out.
    Place,
    /// The words for the target of a move, which may be left out.
    Target,
    /// How many pages a run has.
    Count,
    /// How many bytes are moved, which may be left out.
    Bytes,
    /// The address of a page that is pushed.
    Page,
    /// The epoch of a push, which may be left out.
    Epoch,
    Side,
    /// The arrow before a reply.
    Arrow,
    Reply,
    /// Why an access is refused by the mappings.
    Segv,
    Access,
    Errno,
}

impl Wanted {
    /// Its name in the form of a line.
    pub(crate) fn name(self) -> &'static str {
        match self {
            Wanted::Order => "a word",
            Wanted::Cpu => "K",
            Wanted::Command => "COMMAND",
            Wanted::Addr | Wanted::Page => "ADDR",
            Wanted::Width => "WIDTH",
            Wanted::Value => "VALUE",
            Wanted::Len => "LEN",
            Wanted::OldLen => "OLD",
            Wanted::NewLen => "NEW",
            Wanted::Protection => "PROT",
            Wanted::Place => "`fixed` or `noreplace`",
            Wanted::Target => "`maymove` or `fixed`",
            Wanted::Count | Wanted::Bytes => "N",
            Wanted::Epoch => "EPOCH",
            Wanted::Side => "`source` or `dest`",
            Wanted::Arrow => "`=>`",
            Wanted::Reply => "REPLY",
            Wanted::Segv => "`unmapped` or `protected`",
            Wanted::Access => "`access`",
            Wanted::Errno => "ERRNO",
        }
    }

    /// What it is, for one who wrote something else.
    pub(crate) fn phrase(self) -> &'static str {
        match self {
            Wanted::Order => "the first word of a script line",
            Wanted::Cpu => "K, the number of a processor",
            Wanted::Command => "a command of a processor",
            Wanted::Addr => "ADDR, a number",
            Wanted::Page => "ADDR, the address of a page",
            Wanted::Width => "WIDTH, a number of bytes",
            Wanted::Value => "VALUE, a number",
            Wanted::Len => "LEN, a number of bytes",
            Wanted::OldLen => "OLD, a number of bytes",
            Wanted::NewLen => "NEW, a number of bytes",
            Wanted::Protection => "a protection, `none`, `r` or `rw`",
            Wanted::Place => "`fixed` or `noreplace`",
            Wanted::Target => "`maymove` or `fixed`",
            Wanted::Count => "N, a number of pages",
            Wanted::Bytes => "N, a number of bytes; it may be left out",
            Wanted::Epoch => "EPOCH, a number; it may be left out",
            Wanted::Side => "`source` or `dest`",
            Wanted::Arrow => "`=>` and the reply",
            Wanted::Reply => "a reply, `value`, `done`, `at`, `segv`, `bad` or `refused`",
            Wanted::Segv => "`unmapped` or `protected`",
            Wanted::Access => "`access`",
            Wanted::Errno => "an errno, EPERM, ENOENT, EAGAIN, ENOMEM, EFAULT, EEXIST or EINVAL",
        }
    }

    /// The words that it may be; none where it is a number.
    pub(crate) fn choices(self) -> &'static [&'static str] {
        match self {
            Wanted::Order => &[
                "cpu", "retry", "start", "round", "send", "sendrun", "sread", "sact", "switch",
                "deliver", "back", "udeliver", "dread", "dact", "install", "push", "upush",
                "serve", "end", "break", "notice", "resume", "progress",
            ],
            Wanted::Command => &["load", "store", "mmap", "munmap", "mremap", "dontneed"],
            Wanted::Protection => &["none", "r", "rw"],
            Wanted::Place => &["fixed", "noreplace"],
            Wanted::Target => &["maymove", "fixed"],
            Wanted::Side => &["source", "dest"],
            Wanted::Arrow => &["=>"],
            Wanted::Reply => &["value", "done", "at", "segv", "bad", "refused"],
            Wanted::Segv => &["unmapped", "protected"],
            Wanted::Access => &["access"],
            Wanted::Errno => &[
                "EPERM", "ENOENT", "EAGAIN", "ENOMEM", "EFAULT", "EEXIST", "EINVAL",
            ],
            Wanted::Cpu
            | Wanted::Addr
            | Wanted::Width
            | Wanted::Value
            | Wanted::Len
            | Wanted::OldLen
            | Wanted::NewLen
            | Wanted::Count
            | Wanted::Bytes
            | Wanted::Page
            | Wanted::Epoch => &[],
        }
    }

    /// Whether it is a number.
    pub(crate) fn is_number(self) -> bool {
        self.choices().is_empty()
    }

    /// Whether this is one of its words.
    pub(crate) fn admits(self, word: &[u8]) -> bool {
        for choice in self.choices() {
            if choice.as_bytes() == word {
                return true;
            }
        }
        false
    }
}
