//! What the commands over scripts have in common: what they read, how they say on standard error why they ended early, and with which exit
//! status.
//!
//! A script may be typed at a terminal, where a wrong line is named and the session continues. `Bounded` ends an input at a line that is
//! too long, and `Scripts` has the scripts of an input, one after the other. `test_files` and `renew_files` play tests. `Painted` makes
//! findings easier to read at a terminal.
#![tactic(auto)]

mod bounded;
mod endings;
mod findings;
mod input;
mod paint;
mod reasons;
mod renewal;
mod scripts;
mod status;
mod tally;
mod terminal;

pub use bounded::{Bounded, LONGEST_LISTED};
pub use endings::{end, end_at_lines, end_lint, end_looked, open_script, say_looked};
pub use input::Script;
pub use paint::{Paint, Painted, paint_for};
pub use reasons::say_wrong_line;
pub use renewal::renew_files;
pub use scripts::Scripts;
pub use status::status_of;
pub use tally::{TestAsks, test_files};
