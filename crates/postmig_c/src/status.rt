//! What a call answers, as the numbers of `include/postmig.h`.

/// The call did what it says.
pub const DONE: u32 = 0;

/// What is to be written does not fit.
pub const NO_ROOM: u32 = 1;

/// The handle has no world, or no decoder.
pub const NOT_OPEN: u32 = 2;

/// The text is not a line, or has one that is not.
pub const NOT_A_LINE: u32 = 3;

/// An allocation failed.
pub const NO_MEMORY: u32 = 4;

/// There are 1 to 16 processors.
pub const NO_CPU: u32 = 5;

/// No frame waits.
pub const NO_FRAME: u32 = 6;

/// Frames wait, and must be taken first.
pub const FRAMES_WAIT: u32 = 7;

/// The version or the tag of a header is not known.
pub const BAD_TAG: u32 = 8;

/// No body of such a frame has the length in its header.
pub const BAD_LENGTH: u32 = 9;

/// Another field has a value that no frame has there.
pub const BAD_FIELD: u32 = 10;

/// The bytes are not those of one frame.
pub const NOT_A_FRAME: u32 = 11;

/// The numbers are not those of a command.
pub const NOT_A_COMMAND: u32 = 12;

/// There is no such page.
pub const NO_PAGE: u32 = 13;

/// The node has no trace.
pub const NO_TRACE: u32 = 14;

/// No question has this number.
pub const NO_QUESTION: u32 = 15;
