//! Claims of pages by threads that push them: each starting page is claimed at most once in an epoch.
//!
//! [`Claims`] owns a list of pages, in any order and without a repeat, and one bit for each of them in words that threads share. An
//! index is a position in that list. Each thread claims with a [`ClaimSeat`]. `claim` clears a bit with one fetch-and: the thread that
//! finds it set has the page. No call waits, and only `new`, `split` and `close` take memory.
//!
//! The crate sends nothing and does not know what a page contains. It does not decide who claims which page, or when.
//!
//! Contracts see the claims as their epoch and pages, and a seat as the indexes that it has claimed, those that it has seen
//! claimed, and its share of the claims (`specs/Seats.antt`). Closing with a seat that has the whole share accounts for every page.
//! `specs/Rule.antt` is the rule of the words, which has exactly four kinds of atomic step: the fetch-and of a claim, the load of
//! `is_free`, a split and a join. Its theorem is [`each_index_is_free_or_claimed_once`].
//! The modules follow: `claims` and `seat` (what callers see), `rule` (the rule and its steps), `entries` (the index of a page),
//! `bits`, `flags`, `pages`, and `law`.
#![tactic(auto)]

mod bits;
mod claims;
mod entries;
mod flags;
mod law;
mod pages;
mod rule;
mod seat;

pub use crate::claims::Claims;
pub use crate::law::each_index_is_free_or_claimed_once;
pub use crate::seat::ClaimSeat;
