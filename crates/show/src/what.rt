//! What is asked for.

use mig_base::Addr;

/// The facts of a world that are shown.
#[derive(Clone, Copy, Debug, PartialEq, Eq)]
pub enum What {
    /// What each processor does, and for which step it waits.
    Cpus,
    /// What the next reads, acts, installs and serves take.
    Queues,
    /// Which pages are owed, and where their copies are.
    Owed,
    /// The frames on the three wires.
    Wires,
    /// The pages of both nodes.
    Pages,
    /// All of these.
    All,
}

impl What {
    /// Each of them.
    pub const ALL: [What; 6] = [
        What::Cpus,
        What::Queues,
        What::Owed,
        What::Wires,
        What::Pages,
        What::All,
    ];

    /// Its name.
    pub fn name(self) -> &'static str {
        match self {
            What::Cpus => "cpus",
            What::Queues => "queues",
            What::Owed => "owed",
            What::Wires => "wires",
            What::Pages => "pages",
            What::All => "all",
        }
    }

    /// The one with this name.
    pub fn named(name: &str) -> Option<What> {
        for what in What::ALL {
            if what.name() == name {
                return Some(what);
            }
        }
        None
    }
}

/// A range of addresses, in bytes: from `start` up to, and without, `end`.
#[derive(Clone, Copy, Debug, PartialEq, Eq)]
pub struct Span {
    pub start: Addr,
    pub end: Addr,
}

/// How the facts are written.
#[derive(Clone, Copy, Debug, PartialEq, Eq)]
pub enum Form {
    /// A line of text for each.
    Lines,
    /// All in one JSON object, in a line of its own.
    Json,
}

/// What is asked for.
#[derive(Clone, Copy)]
pub struct Asked {
    pub what: What,
    pub form: Form,
    /// The number of the last line that is run; that of the last line of the script where none is given.
    pub at: Option<u64>,
    /// The range whose pages are shown; all where none is given.
    pub range: Option<Span>,
}
