//! The owed table: what the destination of a post-copy migration keeps so that it can resolve page faults.
//!
//! [`Owed`] is the table of the pages that the source still owes. It says which page of the source is to fill which page here,
//! because pages may have moved since the switch. The crate knows no bytes of pages, reads no message and sends no request.
//!
//! Contracts see an `Owed` as a finite map from a page to its page at the source, in the terms of `mig_model` for such a map.
//! The parts of `owed`: `table` (a number, or none, for each page, in leaves that are made when first needed) and `links` (two
//! such tables, one for each direction, with the same pairs). `specs/Tables.antt` and `specs/Owed.antt` define what they show.
#![tactic(auto)]

pub mod owed;

pub use crate::owed::Owed;
