//! What is drawn: the states of pages and of processors.

use crate::class::Class;

/// The state of a page at a node, or of a processor, from one line to the next. The states of each band are in the order of their rank:
/// where pages or lines are merged, the last of this list is shown.
#[derive(Clone, Copy, PartialEq, Eq)]
pub enum State {
    /// Nothing is drawn: the page is not mapped, or the processor runs.
    Blank,
    /// The page is mapped and has no contents.
    Empty,
    /// At the source: what was sent is still right.
    Clean,
    /// At the source: the page was pushed.
    Pushed,
    /// At the source: it was not sent in this epoch.
    Unsent,
    /// At the source: it was stored to since it was sent.
    Dirty,
    /// At the source: it is owed and was not pushed.
    Unpushed,
    /// At the destination before it runs: it has a copy.
    Kept,
    /// At the destination: the copy of pre-copy is in place.
    InPlace,
    /// At the destination: a copy was installed after the run.
    Installed,
    /// At the destination: zeros of its own.
    Made,
    /// At the destination: the page is owed.
    Owed,
    /// At the destination: a copy has arrived and is not installed.
    Came,
    /// At the destination: a processor sleeps on the page.
    SleptOn,
    /// A processor is in a map call.
    InCall,
    /// It was woken, and must try again.
    Woken,
    /// The fault waits for its handler.
    Handler,
    /// The copy has arrived, and is not installed.
    Install,
    /// The page is on a wire.
    OnWire,
    /// The request is on the wire.
    Request,
    /// The page was requested, and the source has not pushed it.
    AtSource,
    /// Nobody runs the processors.
    Stopped,
    /// There is no link.
    NoLink,
}

/// The number of states.
pub(crate) const STATES: usize = 23;

/// How a state looks.
#[derive(Clone, Copy)]
pub(crate) struct Look {
    /// Its class in the style sheet.
    pub class: Class,
    /// What it says in a legend, and of a page.
    pub words: &'static str,
    /// The word of a wait's part.
    pub part: &'static str,
    /// Where its rectangle begins in a row, in sixteenths of the row's height.
    pub top: u64,
    /// The height of its rectangle, in sixteenths.
    pub height: u64,
}

/// How a state looks that is not drawn.
const BLANK: Look = Look {
    class: Class::Blank,
    words: "",
    part: "",
    top: 0,
    height: 0,
};

/// How the states look, in the order of [`State::ALL`].
const LOOKS: [Look; STATES] = [
    BLANK,
    Look {
        class: Class::Empty,
        words: "mapped, no contents",
        part: "",
        top: 7,
        height: 1,
    },
    Look {
        class: Class::Clean,
        words: "clean (sent, protected)",
        part: "",
        top: 0,
        height: 14,
    },
    Look {
        class: Class::Pushed,
        words: "pushed",
        part: "",
        top: 0,
        height: 14,
    },
    Look {
        class: Class::Unsent,
        words: "has contents, not sent",
        part: "",
        top: 0,
        height: 14,
    },
    Look {
        class: Class::Dirty,
        words: "stored to since it was sent",
        part: "",
        top: 0,
        height: 14,
    },
    Look {
        class: Class::Owed,
        words: "owed, not pushed",
        part: "",
        top: 0,
        height: 14,
    },
    Look {
        class: Class::Clean,
        words: "copy, before the run",
        part: "",
        top: 6,
        height: 8,
    },
    Look {
        class: Class::Clean,
        words: "copy of pre-copy in place",
        part: "",
        top: 0,
        height: 14,
    },
    Look {
        class: Class::Installed,
        words: "installed",
        part: "",
        top: 0,
        height: 14,
    },
    Look {
        class: Class::Made,
        words: "zeros of its own",
        part: "",
        top: 1,
        height: 12,
    },
    Look {
        class: Class::Owed,
        words: "owed",
        part: "",
        top: 6,
        height: 3,
    },
    Look {
        class: Class::Came,
        words: "has come, not installed",
        part: "",
        top: 5,
        height: 9,
    },
    Look {
        class: Class::Waiting,
        words: "a processor sleeps on it",
        part: "",
        top: 3,
        height: 9,
    },
    Look {
        class: Class::InCall,
        words: "in a map call",
        part: "in call",
        top: 2,
        height: 12,
    },
    Look {
        class: Class::Woken,
        words: "woken: it tries again",
        part: "woken",
        top: 0,
        height: 16,
    },
    Look {
        class: Class::Waiting,
        words: "handler: it has to act",
        part: "handler",
        top: 0,
        height: 16,
    },
    Look {
        class: Class::Came,
        words: "install: the copy has come",
        part: "install",
        top: 0,
        height: 16,
    },
    Look {
        class: Class::OnWire,
        words: "page: on a wire",
        part: "page",
        top: 0,
        height: 16,
    },
    Look {
        class: Class::Request,
        words: "request: on the wire",
        part: "request",
        top: 0,
        height: 16,
    },
    Look {
        class: Class::AtSource,
        words: "source: it has to push",
        part: "source",
        top: 0,
        height: 16,
    },
    Look {
        class: Class::Down,
        words: "stopped: nobody runs it",
        part: "stopped",
        top: 0,
        height: 16,
    },
    Look {
        class: Class::Down,
        words: "no link",
        part: "no link",
        top: 0,
        height: 16,
    },
];

impl State {
    /// All states, in the order of their ranks.
    pub(crate) const ALL: [State; STATES] = [
        State::Blank,
        State::Empty,
        State::Clean,
        State::Pushed,
        State::Unsent,
        State::Dirty,
        State::Unpushed,
        State::Kept,
        State::InPlace,
        State::Installed,
        State::Made,
        State::Owed,
        State::Came,
        State::SleptOn,
        State::InCall,
        State::Woken,
        State::Handler,
        State::Install,
        State::OnWire,
        State::Request,
        State::AtSource,
        State::Stopped,
        State::NoLink,
    ];

    /// The states in the order in which a legend has them: as they follow one another.
    pub(crate) const IN_TURN: [State; STATES] = [
        State::Empty,
        State::Unsent,
        State::Clean,
        State::Dirty,
        State::Unpushed,
        State::Pushed,
        State::Kept,
        State::InPlace,
        State::Owed,
        State::SleptOn,
        State::Came,
        State::Installed,
        State::Made,
        State::Handler,
        State::Request,
        State::AtSource,
        State::OnWire,
        State::Install,
        State::Woken,
        State::NoLink,
        State::Stopped,
        State::InCall,
        State::Blank,
    ];

    /// The states of a processor that waits, in the order in which they come.
    pub(crate) const WAITS: [State; 8] = [
        State::Stopped,
        State::Handler,
        State::Request,
        State::AtSource,
        State::OnWire,
        State::NoLink,
        State::Install,
        State::Woken,
    ];

    /// How it looks.
    pub(crate) fn look(self) -> Look {
        LOOKS.get(self as usize).copied().unwrap_or(BLANK)
    }
}

/// Counts by state: by its place in [`State::ALL`].
#[derive(Clone, Copy)]
pub(crate) struct Counts([u32; STATES]);

impl Counts {
    /// Nothing is counted.
    pub(crate) const NONE: Counts = Counts([0; STATES]);

    /// The count of a state.
    pub(crate) fn of(&self, state: State) -> u32 {
        self.0.get(state as usize).copied().unwrap_or(0)
    }

    /// Adds to the count of a state.
    pub(crate) fn add(&mut self, state: State, more: u32) {
        if let Some(count) = self.0.get_mut(state as usize) {
            *count = count.saturating_add(more);
        }
    }

    /// Takes one from the count of a state.
    pub(crate) fn take(&mut self, state: State) {
        if let Some(count) = self.0.get_mut(state as usize) {
            *count = count.saturating_sub(1);
        }
    }

    /// The last of the states that have a count.
    pub(crate) fn highest(&self) -> State {
        let mut found = State::Blank;
        for state in State::ALL {
            if self.of(state) > 0 {
                found = state;
            }
        }
        found
    }
}
