//! The pages of the source that a destination has asked for.

ghost use Rattle.std.specs.Prelude.{◌≡◌, ◌↔◌, true, false, [], not, IfOk, OnOk, OnErr};
ghost use Rattle.mig_model.specs.Owed.{is_requested, requesting, without_request};
ghost use Rattle.fault_handler.specs.Requests.{StandOnce};

use indexmap::IndexSet;
use mig_base::{NoMemory, PageNo};
use std::alloc::Global;
use std::marker::Model;

/// The pages of the source that were requested and not installed yet, each once, in the order of their first requests.
#[derive(Drop)]
pub struct Requests {
    pages: IndexSet<PageNo>,
}

impl Model for Requests {
    ghost use Rattle.std.specs.Prelude.{ℕ, List};
    ghost use Rattle.std.specs.Coded.{coded_ℕ, coded_list};

    ghost Value = { List ℕ };

    ghost coded = { coded_list coded_ℕ };

    ghost view = { λ requests. requests.pages.keys };
}

impl Requests {
    /// No requests. It takes no memory.
    pub fn new(alloc: Global) -> Self
        ensures { result ≡ [] }
    {
        Requests {
            pages: IndexSet::new(alloc),
        }
    }

    /// The same requests, in memory of their own. `NoMemory` if that cannot be allocated.
    pub fn copy(&self, alloc: Global) -> Result<Self, NoMemory>
        ensures { IfOk result (λ copy. copy ≡ self.now) }
    {
        let pages = self.as_slice();
        let mut copy = Requests::new(alloc);
        for page in pages {
            copy.add(*page)?;
        }
        Ok(copy)
    }

    /// Whether the same pages were requested, in the same order.
    pub fn is_same(&self, other: &Self) -> bool
        ensures { (result ≡ true) ↔ (self.now ≡ other.now) }
    {
        self.as_slice() == other.as_slice()
    }

    /// The pages, in order.
    pub fn as_slice(&self) -> &[PageNo]
        ensures pages { result.now ≡ self.now }
        ensures once { StandOnce self.now }
    {
        self.pages.as_slice()
    }

    /// Appends a page unless it is in the list, and returns whether it is new. `NoMemory` comes for a new page alone, and changes nothing.
    pub fn add(&mut self, origin: PageNo) -> Result<bool, NoMemory>
        ensures new { IfOk result (λ is_new. is_new ≡ not (is_requested self.old origin)) }
        ensures ok { OnOk result (self.new ≡ requesting self.old origin) }
        ensures err { OnErr result (self.new ≡ self.old) }
        ensures absent { OnErr result (is_requested self.old origin ≡ false) }
    {
        let is_new = self.pages.insert(origin)?;
        Ok(is_new)
    }

    /// Removes a page, if it is in the list; the others keep their order. It takes no memory.
    pub fn end(&mut self, origin: PageNo)
        ensures { self.new ≡ without_request self.old origin }
    {
        self.pages.shift_remove(&origin);
    }
}
