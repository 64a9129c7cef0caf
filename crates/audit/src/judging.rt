//! Judging a log: a run of it is looked for.

use crate::history::History;
use crate::notes::Notes;
use crate::run::Run;
use crate::search::{Search, Unexplained};
use crate::work::{Unjudged, nothing_in};
use call_log::log::Log;
use call_log::pages::PageSize;
use foundation::NoMemory;
use std::alloc::Global;

/// The size of a page of the rules.
pub(crate) const PAGE: PageSize = PageSize(4096);

/// A log that was judged.
#[derive(Drop)]
pub(crate) struct JudgedLog {
    pub(crate) log: Log,
    /// The size of its pages. They are judged as pages of 4,096 bytes.
    pub(crate) size: PageSize,
    pub(crate) notes: Notes,
    pub(crate) unexplained: Vec<Unexplained>,
    /// Why nothing of it could be judged.
    pub(crate) nothing: Option<Unjudged>,
    /// The run that was found.
    pub(crate) run: Run,
    /// What happened in it to the page that is asked for.
    pub(crate) history: History,
}

impl JudgedLog {
    /// Whether a run was found.
    pub(crate) fn has_run(&self) -> bool {
        self.unexplained.is_empty()
    }
}

/// Looks for a run of a log, and notes what happens to a page in it, by its number, if one is asked for. What only the search needs is gone then,
/// with its pages.
pub(crate) fn judge(alloc: Global, log: Log, page: Option<u64>) -> Result<JudgedLog, NoMemory> {
    let nothing = nothing_in(&log);
    let size = log.size;
    let mut log = log;
    log.size = PAGE;
    let mut search = Search::new(alloc, log, page)?;
    search.search()?;
    let Search {
        log,
        kernel,
        unexplained,
        run,
        history,
        ..
    } = search;
    let notes = kernel.finish()?;
    Ok(JudgedLog {
        log,
        size,
        notes,
        unexplained,
        nothing,
        run,
        history,
    })
}
