//! The classes of the style sheet.

/// A class of shapes or of words, or some that go together. Those of a page and of a wait have the name of what it is.
#[derive(Clone, Copy)]
pub(crate) enum Class {
    // A page, or a part of a wait.
    Blank,
    Empty,
    Clean,
    Pushed,
    Unsent,
    Dirty,
    Owed,
    Installed,
    Made,
    Came,
    Waiting,
    InCall,
    Woken,
    OnWire,
    Request,
    AtSource,
    Down,
    // Grounds: of the picture, while nobody runs the processors, while there is no link, and of patterns.
    Ground,
    NobodyRuns,
    NoLink,
    PaleGround,
    StrongGround,
    // Lines: of patterns, thin ones to pages, rails and lesser marks, axles, marks, breaks, and moves.
    WhiteStripes,
    Stripes,
    Lead,
    Rail,
    Axle,
    Mark,
    BreakMark,
    Move,
    // Frames: pages, pages on the urgent wire, requests, others, and lost ones with a cross.
    PageFrame,
    UrgentFrame,
    RequestFrame,
    OtherFrame,
    LostFrame,
    Cross,
    // Disks where a processor goes to sleep.
    Sleep,
    SmallSleep,
    // Words that begin at their place.
    Plain,
    Title,
    Sentence,
    Heading,
    Small,
    Fixed,
    Gray,
    White,
    // Words that end at their place.
    Ending,
    SmallEnding,
    FixedEnding,
    // Words with their middle at their place.
    SmallMiddle,
    BlackMiddle,
    WhiteMiddle,
    // Words with a white edge.
    Edged,
    SmallEdged,
    BoldEdged,
    FixedEdged,
    FixedMiddleEdged,
    BlackMiddleEdged,
    MiddleEdged,
}

/// The number of classes.
const CLASSES: usize = 59;

/// Their names in the style sheet, in the order of [`Class`].
const NAMES: [&str; CLASSES] = [
    "z", "e", "c", "p", "u", "d", "o", "i", "m", "a", "h", "k", "w", "f", "r", "s", "n", "bg",
    "st", "nl", "o1", "o2", "t2", "t1", "g6", "g1", "g2", "g3", "g4", "g5", "lf", "lu", "lq", "lo",
    "ls", "lx", "do", "dd", "", "n1", "n2", "n3", "sm", "mo", "gm", "wl", "en", "sm en", "mo en",
    "sm mi", "bl", "wh", "ha", "sm ha", "n4 ha", "mo ha", "mo mi ha", "bl ha", "mi ha",
];

impl Class {
    /// Its name in the style sheet.
    pub(crate) fn name(self) -> &'static str {
        NAMES.get(self as usize).copied().unwrap_or("")
    }
}
