//! The pages of a set one after the other, and its runs of neighbouring pages.

ghost use Rattle.std.specs.Prelude.{◌≡◌};
ghost use Rattle.std.specs.FinSet as set;
ghost use Rattle.std.specs.Iterator.{at_most};
ghost use Rattle.mig_base.specs.PageSets.{TakesPage, TakesRun};

use crate::{HIGH_PAGE, PageNo, PageSet, Run};
use std::marker::Model;

/// The pages of a set that are left, ascending. From [`PageSet::iter`]. It takes no memory.
#[derive(Drop)]
pub struct Iter<'a> {
    pages: &'a PageSet,
    from: PageNo,
}

impl<'a> Model for Iter<'a> {
    ghost use Rattle.std.specs.Prelude.{◌≤◌};
    ghost use Rattle.std.specs.FinSet as set;
    ghost use Rattle.std.specs.Ordering.{nat_cmp};
    ghost use Rattle.std.specs.Coded.{coded_ℕ};
    ghost use Rattle.mig_base.specs.PageSets.{from_on};
    ghost use Rattle.mig_base.specs.declared.TheConstants.{HIGH_PAGE};

    ghost Value = { set.FinSet nat_cmp };

    ghost coded = { set.code coded_ℕ };

    ghost view = { λ a. from_on a.pages.now a.from };

    ghost invariant = { λ a. a.from ≤ HIGH_PAGE };
}

impl<'a> Iter<'a> {
    pub(crate) fn new(pages: &'a PageSet) -> Iter<'a>
        ensures { result ≡ pages.now }
    {
        Iter { pages, from: 0 }
    }
}

impl<'a> Iterator for Iter<'a> {
    type Item = PageNo;

    ghost next_gives = { TakesPage };

    ghost remaining = { λ left. at_most (set.len left) };

    fn next(&mut self) -> Option<PageNo> {
        self.pages.ends_by_high_page();
        let page = self.pages.next_member(self.from);
        if page == HIGH_PAGE {
            return None;
        }
        self.from = page + 1;
        Some(page)
    }
}

/// The maximal runs that are left of a set, ascending: none is empty, and none touches the next. From [`PageSet::runs`].
///
/// It skips whole words in which no run begins or ends, and takes no memory.
#[derive(Drop)]
pub struct Runs<'a> {
    pages: &'a PageSet,
    from: PageNo,
}

impl<'a> Model for Runs<'a> {
    ghost use Rattle.std.specs.Prelude.{◌≤◌};
    ghost use Rattle.std.specs.FinSet as set;
    ghost use Rattle.std.specs.Ordering.{nat_cmp};
    ghost use Rattle.std.specs.Coded.{coded_ℕ};
    ghost use Rattle.mig_base.specs.PageSets.{from_on};
    ghost use Rattle.mig_base.specs.declared.TheConstants.{HIGH_PAGE};

    ghost Value = { set.FinSet nat_cmp };

    ghost coded = { set.code coded_ℕ };

    ghost view = { λ a. from_on a.pages.now a.from };

    ghost invariant = { λ a. a.from ≤ HIGH_PAGE };
}

impl<'a> Runs<'a> {
    pub(crate) fn new(pages: &'a PageSet) -> Runs<'a>
        ensures { result ≡ pages.now }
    {
        Runs { pages, from: 0 }
    }
}

impl<'a> Iterator for Runs<'a> {
    type Item = Run;

    ghost next_gives = { TakesRun };

    ghost remaining = { λ left. at_most (set.len left) };

    fn next(&mut self) -> Option<Run> {
        self.pages.ends_by_high_page();
        let first = self.pages.next_member(self.from);
        if first == HIGH_PAGE {
            return None;
        }
        let end = self.pages.next_gap(first);
        self.from = end;
        Some(Run {
            first,
            count: end - first,
        })
    }
}
