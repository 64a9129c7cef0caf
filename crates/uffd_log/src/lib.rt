//! Reading logs of userfaultfd calls: the language `uffdlog 1` of docs/UFFDLOG.md.
//!
//! [`parse::parse`] reads the text of a line below the head as a [`Line`]: a [`Call`] begins or ends, a [`Message`] was read, a
//! descriptor appears, a process begins or ends. [`token`] splits a text into words, each a [`Token`]. `specs/Lines.antt` says which line
//! the tokens are, form by form, and `specs/Words.antt` which token a word is.
//!
//! The crate judges nothing, and compares no line with another. It owns no state, and reads and writes nothing: texts are slices of the
//! caller's.
#![tactic(auto)]

pub mod call;
pub mod errno;
pub mod keyword;
pub mod line;
pub mod parse;
mod parse_answer;
mod parse_call;
pub mod token;

pub use crate::call::{Call, Descriptor, Message};
pub use crate::errno::Errno;
pub use crate::keyword::Keyword;
pub use crate::line::{Answer, Line, Stamp};
pub use crate::token::Token;
