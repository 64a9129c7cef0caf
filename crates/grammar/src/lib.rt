//! The two languages of lines: reading a line of a script or of a transcript, and printing every line.
//!
//! [`parse::parse`] reads the text of a line as a [`Line`]: an [`Order`] of a script, an entry of a transcript, or nothing.
//! [`Language`] says which of the two languages the line is in. An order is a step of a migration, the push of a page, or a report of
//! progress; [`Order::step`] is the step that it makes. [`token`] splits a text into words, each a [`Keyword`] or a number.
//! [`print_order`] prints an order as a line of a script, and [`print_entry`] an entry as a line of a transcript; [`OrderText`] and
//! [`EntryText`] print them inside other texts. [`print_line`] prints the line of a step's outcome, which `mig_base` has the text of, and
//! [`print_progress`] that of a [`Progress`].
//! `specs/Spelling.antt` defines how a line is spelled, `specs/Lines.antt` where lines end, and `specs/Texts.antt` and `specs/Printed.antt`
//! what is printed. [`laws`] says that no text has two meanings, and that what is printed of an order or an entry is read as it.
//!
//! The crate owns no state. It runs nothing, and reads and writes nothing: texts are slices of the caller's, and printed lines are
//! appended to a `String` of the caller's.
#![tactic(auto)]

pub mod keyword;
pub mod laws;
pub mod line;
pub mod order;
mod order_text;
pub mod parse;
mod parse_command;
mod parse_entry;
mod parse_order;
pub mod print;
pub mod progress;
pub mod texts;
pub mod token;

pub use crate::keyword::Keyword;
pub use crate::line::{Language, Line};
pub use crate::order::{ForwardWire, Order};
pub use crate::order_text::{OrderText, print_order};
pub use crate::print::print_line;
pub use crate::progress::{Progress, print_progress};
pub use crate::texts::{EntryText, print_entry};
pub use crate::token::Token;
