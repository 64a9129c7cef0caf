//! Where a line ends.

pub use lines::first_line;
