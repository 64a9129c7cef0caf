//! Tests of logs of userfaultfd calls: what their lines say (`uffd_log`), which runs they have
//! (`kernel_rules`), and what is found in them (`audit`) and in the text of strace (`trace_audit`).
//!
//! A test is a table of texts with what is wanted of them, and one loop plays it. Where memory is refused the call is made again, so a test
//! passes whichever allocation is refused.
#![tactic(auto)]

#[cfg(test)]
mod log_lines;
#[cfg(test)]
mod runs;
#[cfg(test)]
mod searches;
#[cfg(test)]
mod traces;
#[cfg(test)]
mod verdicts;
