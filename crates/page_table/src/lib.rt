//! The present pages of a host: their bytes, and which of them are write-protected.
//!
//! [`PageTable`] owns the 4096 bytes of each present page, and for each a flag that says whether stores to it are to be
//! caught. Zeros that are put as such ([`PageTable::put_zero`], [`PageTable::replace_by_zeros`]) take no memory until another
//! byte is written. A page that is not present is missing: the table has no bytes for it, and it is not protected.
//!
//! The crate deliberately knows no more. It has no mappings (whether an access is permitted), no registration (which access is
//! a page fault) and no messages (how a page gets from one host to another). A missing page becomes present by
//! [`PageTable::put`], [`PageTable::put_zero`], [`PageTable::put_run`], [`PageTable::move_range`] or [`PageTable::write`] alone, and
//! the last of these changes bytes whether the page is protected or not: the callers keep these rules.
//!
//! Contracts see a table as the record `Pages` of `specs/Views.antt`: `bytes`, a finite map from present pages to their
//! bytes, and `protected`, a finite set of present pages. The same file says what the representation shows; the words for
//! bytes (`zero_page`, `page_at`, `overwrite`) are `mig_base`'s.
//!
//! A table has two levels, so that a look-up is one index and another: up to 1024 places, each for 1024 pages. A place is
//! empty until one of its pages is put; then it has a [`leaf::Leaf`], a list of 1024 pages that may be missing and a set
//! of flags. `specs/Leaves.antt` says what a place and a list of places have for one page. The modules follow: `page` (one
//! page), `leaf` (the lists of 1024), `place` (one place), `table` (all places), `unprotect` (ending the protection of a
//! range), and `page_table` (the type that callers see).
#![tactic(auto)]

mod leaf;
mod page;
pub mod page_table;
mod place;
mod table;
mod unprotect;

pub use crate::page_table::{PageTable, PutFault};
