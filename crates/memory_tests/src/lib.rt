//! Tests of what a host's memory consists of, each by itself: sets of pages and messages (`mig_base`), mapped areas (`area_map`), present
//! pages (`page_table`), the userfault object (`userfault`), processors (`vcpu`), and owed pages (`owed_pages`).
//!
//! A test is a table of calls with the answers that are wanted, worked out by hand. One loop for each type plays a table; where
//! memory is refused it looks that the object is as before, and makes the call again. So a test passes whichever allocation
//! is refused.
#![tactic(auto)]

#[cfg(test)]
mod area_maps;
#[cfg(test)]
mod cpus;
#[cfg(test)]
mod messages;
#[cfg(test)]
mod owed_tables;
#[cfg(test)]
mod page_sets;
#[cfg(test)]
mod page_tables;
#[cfg(test)]
mod ranges;
#[cfg(test)]
mod same;
#[cfg(test)]
mod userfaults;
