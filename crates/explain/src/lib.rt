//! What is wrong with a transcript, and why: each entry with another reply than one flat memory's, and the entries before it that
//! decide that reply.
//!
//! [`explain_script`] reads a transcript, and writes the verdict of `engine::check_script`, or with [`Asks`] each wrong entry and
//! the reason of each. What it writes is `specs/Explaining.antt`; the text of a reason is promised to be a text and no more.
//! [`wrong_entries`] finds the wrong entries.
//!
//! All entries are kept, and the number of the line of each. A reason looks back through the entries before the wrong one.
#![tactic(auto)]

mod account;
mod differing;
mod explain;
mod noting;
mod reason;
mod span;
mod stored;
mod stretches;
mod touch;
mod wrong;

pub use crate::explain::{Asks, Verdict, explain_script};
pub use crate::noting::NotingReader;
pub use crate::wrong::{WrongReply, wrong_entries};
