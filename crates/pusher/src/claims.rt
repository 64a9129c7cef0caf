//! The claims of one epoch.
ghost use Rattle.std.specs.Prelude.{◌≡◌, ◌≢◌, ℕ, ◌+◌, ◌<◌, ◌⊎◌, [], ◌∷◌, ◌++◌, false, length, slice_index, IfSome, IfNone, IfOk, IfErr, OnErr, AllPairs, All, Contains, IsPermutation, IsTrue, ◌↔◌, map};
ghost use Rattle.pusher.specs.Rule.{AreLeft, IsWhole, known, kept_share, given_share};
ghost use Rattle.pusher.specs.Seats.{IsSeatOf, IsUnclaimed};

use crate::bits::{is_set, mask};
use crate::entries::{find, sorted_entries};
use crate::flags::mark_all;
use crate::pages::{push_flagged, push_free};
use crate::rule::{EachOnce, Fork, Known, Look, Merge, Take};
use crate::seat::ClaimSeat;
use atomic_table::Table;
use mig_base::schedule::Ticket;
use mig_base::{NoMemory, PageNo};
use std::alloc::Global;
use std::marker::Model;

/// A list of pages with a bit for each. The bit is set while its page is free.
#[derive(Drop)]
pub struct Claims {
    epoch: u32,
    pages: Vec<PageNo>,
    by_page: Vec<(PageNo, usize)>,
    table: Table<(), Known, usize, EachOnce, Global>,
}

impl Model for Claims {
    ghost use Rattle.std.specs.Prelude.{◌≡◌, ◌≢◌, ◌+◌, ◌/◌, length, AllPairs};
    ghost use Rattle.pusher.specs.Entries.{IsIndexed};
    ghost use Rattle.pusher.specs.Seats.{Starting, starting_code};

    ghost Value = { Starting };

    ghost coded = { starting_code };

    ghost view = { λ a. record { table = a.table.shared.table_id; epoch = a.epoch; pages = a.pages.items } };

    ghost invariant = { λ a. (a.table.shared.table_id.words ≡ length a.pages.items / 64 + 1) × (a.table.shared.table_id.slots ≡ 0) × (a.table.shared.key ≡ length a.pages.items) × AllPairs ◌≢◌ a.pages.items × IsIndexed a.pages.items a.by_page.items };
}

impl Claims {
    /// Claims of a list of pages, in any order and all free, and a seat that has the whole share. `NoMemory` drops the list.
    pub fn new(
        alloc: Global,
        epoch: u32,
        pages: Vec<PageNo>,
    ) -> Result<(Claims, ClaimSeat), NoMemory>
        requires { AllPairs ◌≢◌ pages.items }
        ensures claims { IfOk result (λ r. (r.0.epoch ≡ epoch) × (r.0.pages ≡ pages.items)) }
        ensures seat { IfOk result (λ r.
            IsSeatOf r.0 r.1 × (r.1.claimed ≡ []) × (r.1.seen ≡ []) × (r.1.share ≡ 0 ∷ [])) }
    {
        let count = pages.len();
        let by_page = sorted_entries(alloc, pages.as_slice())?;
        let Ok(held) = Vec::from_elem(alloc, false, count) else {
            return Err(NoMemory);
        };
        let Ok(words) = Vec::from_elem(alloc, u64::MAX, count / 64 + 1) else {
            return Err(NoMemory);
        };
        let Ok((table, seat)) = Table::of_words(alloc, words.as_slice(), &count) else {
            return Err(NoMemory);
        };
        let claims = Claims {
            epoch,
            pages,
            by_page,
            table,
        };
        Ok((claims, ClaimSeat { seat, held }))
    }

    /// The number of starting pages. No two of them are equal.
    pub fn len(&self) -> usize
        ensures count { result ≡ length self.now.pages }
        ensures distinct { AllPairs ◌≢◌ self.now.pages }
    {
        self.pages.len()
    }

    /// The epoch that each ticket names.
    pub fn epoch(&self) -> u32
        ensures { result ≡ self.now.epoch }
    {
        self.epoch
    }

    /// The page at an index.
    pub fn page(&self, index: usize) -> PageNo
        requires { index < length self.now.pages }
        ensures { result ≡ slice_index self.now.pages index }
    {
        self.pages[index]
    }

    /// The index of a page, or `None` if it is not a starting page. It is a binary search, without an atomic step.
    pub fn index_of(&self, page: PageNo) -> Option<usize>
        ensures some { IfSome result (λ i.
            (i < length self.now.pages) × (slice_index self.now.pages i ≡ page)) }
        ensures none { IfNone result (Contains self.now.pages page → ⊥) }
    {
        find(self.by_page.as_slice(), page)
    }

    /// Claims an index with one fetch-and. `None` if it was claimed before, by this seat or another.
    pub fn claim(&self, seat: &mut ClaimSeat, index: usize) -> Option<Ticket>
        requires seat { IsSeatOf self.now seat.old }
        requires index { index < length self.now.pages }
        ensures seat { IsSeatOf self.now seat.new }
        ensures share { seat.new.share ≡ seat.old.share }
        ensures ticket { IfSome result (λ t.
            (t.epoch ≡ self.now.epoch) × (t.page ≡ slice_index self.now.pages index)) }
        ensures won { IfSome result (λ _.
            (seat.new.claimed ≡ seat.old.claimed ++ index ∷ []) × (seat.new.seen ≡ seat.old.seen)) }
        ensures first { IfSome result (λ _.
            (Contains seat.old.claimed index → ⊥) × (Contains seat.old.seen index → ⊥)) }
        ensures lost { IfNone result ((seat.new.claimed ≡ seat.old.claimed) ×
            (seat.new.seen ≡ seat.old.seen ++ index ∷ [])) }
    {
        let bit = index % 64;
        let found = self
            .table
            .shared
            .fetch_and::<Take>(&mut seat.seat, index / 64, mask(bit));
        if !is_set(found, bit) {
            return None;
        }
        seat.held[index] = true;
        Some(Ticket {
            epoch: self.epoch,
            page: self.pages[index],
        })
    }

    /// Whether an index is free, by one load. If it is, another thread may claim it at once; if it is not, it never becomes free.
    pub fn is_free(&self, seat: &mut ClaimSeat, index: usize) -> bool
        requires seat { IsSeatOf self.now seat.old }
        requires index { index < length self.now.pages }
        ensures seat { IsSeatOf self.now seat.new }
        ensures same { (seat.new.claimed ≡ seat.old.claimed) × (seat.new.share ≡ seat.old.share) }
        ensures seen { (i : ℕ) → Contains seat.old.seen i → Contains seat.new.seen i }
        ensures taken { result ≡ false → Contains seat.new.seen index }
        ensures known { Contains seat.old.claimed index ⊎ Contains seat.old.seen index →
            result ≡ false }
    {
        let found = self.table.shared.load::<Look>(&mut seat.seat, index / 64);
        is_set(found, index % 64)
    }

    /// Whether the seat has claimed an index. It reads no shared word.
    pub fn holds(&self, seat: &ClaimSeat, index: usize) -> bool
        requires seat { IsSeatOf self.now seat.now }
        requires index { index < length self.now.pages }
        ensures { IsTrue result ↔ Contains seat.now.claimed index }
    {
        seat.held[index]
    }

    /// A seat for one more thread, which has claimed nothing and gets half of the first part of this seat's share. `NoMemory` leaves the
    /// seat as it was.
    pub fn split(&self, alloc: Global, seat: &mut ClaimSeat) -> Result<ClaimSeat, NoMemory>
        requires { IsSeatOf self.now seat.old }
        ensures seat { IsSeatOf self.now seat.new }
        ensures same { (seat.new.claimed ≡ seat.old.claimed) × (seat.new.seen ≡ seat.old.seen) }
        ensures new { IfOk result (λ s. IsSeatOf self.now s × (s.claimed ≡ []) × (s.seen ≡ [])) }
        ensures shares { IfOk result (λ s.
            (seat.new.share ≡ kept_share seat.old.share) × (s.share ≡ given_share seat.old.share)) }
        ensures err { OnErr result (seat.new ≡ seat.old) }
    {
        let Ok(held) = Vec::from_elem(alloc, false, self.pages.len()) else {
            return Err(NoMemory);
        };
        let other = self.table.shared.split_seat::<Fork>(&mut seat.seat);
        Ok(ClaimSeat { seat: other, held })
    }

    /// Adds to the seat what another seat has claimed and seen, and its share. The other seat ends.
    pub fn join(&self, seat: &mut ClaimSeat, other: ClaimSeat)
        requires seat { IsSeatOf self.now seat.old }
        requires other { IsSeatOf self.now other }
        ensures seat { IsSeatOf self.now seat.new }
        ensures lists { (seat.new.claimed ≡ seat.old.claimed ++ other.claimed) ×
            (seat.new.seen ≡ seat.old.seen ++ other.seen) ×
            (seat.new.share ≡ seat.old.share ++ other.share) }
    {
        let ClaimSeat {
            seat: other_seat,
            held: other_held,
        } = other;
        self.table
            .shared
            .join_seat::<Merge>(&mut seat.seat, other_seat);
        mark_all(&mut seat.held, other_held.as_slice());
    }

    /// The pages that are free, and those that the seat has claimed, each in the order of their indexes. A page that a seat claimed which
    /// was not joined is in neither list. If memory runs out, it returns both arguments unchanged.
    pub fn close(
        self,
        alloc: Global,
        seat: ClaimSeat,
    ) -> Result<(Vec<PageNo>, Vec<PageNo>), (Claims, ClaimSeat)>
        requires { IsSeatOf self seat }
        ensures left { IfOk result (λ r. All (IsUnclaimed self seat) r.0.items) }
        ensures rule { IfOk result (λ r.
            AreLeft self.pages (known seat.claimed seat.seen seat.share) r.0.items) }
        ensures within { IfOk result (λ _. All (λ i. i < length self.pages) seat.claimed) }
        ensures claimed { IfOk result (λ r.
            IsPermutation (map (slice_index self.pages) seat.claimed) r.1.items) }
        ensures once { IfOk result (λ r. AllPairs ◌≢◌ (r.0.items ++ r.1.items)) }
        ensures whole { IfOk result (λ r. length r.0.items + length r.1.items ≡ length self.pages →
            IsPermutation self.pages (r.0.items ++ r.1.items)) }
        ensures all { IfOk result (λ r. IsWhole seat.share →
            IsPermutation self.pages (r.0.items ++ r.1.items)) }
        ensures err { IfErr result (λ r. (r.0 ≡ self) × (r.1 ≡ seat)) }
    {
        let count = self.pages.len();
        let Ok(mut left) = Vec::with_capacity(alloc, count) else {
            return Err((self, seat));
        };
        let Ok(mut claimed) = Vec::with_capacity(alloc, count) else {
            return Err((self, seat));
        };
        let Claims {
            epoch: _,
            pages,
            by_page: _,
            table,
        } = self;
        let ClaimSeat { seat, held } = seat;
        let closed = table.close_with(seat);
        push_free(&mut left, &closed, pages.as_slice());
        push_flagged(&mut claimed, held.as_slice(), pages.as_slice());
        closed.free();
        Ok((left, claimed))
    }
}
