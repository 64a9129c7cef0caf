//! Pages: addresses of a log as numbers of pages, and ranges of them.

ghost use Rattle.std.specs.Prelude.{◌≡◌, ◌+◌, ◌≤◌, ◌<◌, true};

/// The most pages of a range that is judged: 64 GiB in pages of 4 KiB.
pub const MOST_PAGES: u64 = 1 << 24;

/// The size of a page of a log, in bytes.
#[derive(Clone, Copy, PartialEq, Eq)]
pub struct PageSize(pub u64);

/// A range of pages.
#[derive(Clone, Copy, PartialEq, Eq)]
pub struct Range {
    pub first: u64,
    pub count: u64,
}

impl PageSize {
    /// The page of an address.
    pub fn number(self, addr: u64) -> u64 {
        addr.checked_div(self.0).unwrap_or(0)
    }

    /// The first address of a page.
    pub fn address(self, page: u64) -> u64 {
        page.saturating_mul(self.0)
    }

    /// Whether a page begins at an address.
    pub fn is_start(self, addr: u64) -> bool {
        addr.checked_rem(self.0) == Some(0)
    }

    /// Whether a range of bytes is one of whole pages that ends at the greatest address at the latest.
    pub fn is_range(self, start: u64, len: u64) -> bool {
        self.is_start(start)
            && self.is_start(len)
            && len > 0
            && start.checked_add(len - 1).is_some()
    }

    /// The pages of a range of bytes: those from the page of its first byte on that begin in it, if it begins where a page does.
    pub fn range(self, start: u64, len: u64) -> Range {
        let first = self.number(start);
        let end = match start.checked_add(len) {
            Some(end) => self.number(end),
            None => self.number(u64::MAX).saturating_add(1),
        };
        Range {
            first,
            count: end.saturating_sub(first),
        }
    }

    /// The pages of a range of bytes whose last page may be cut.
    pub fn rounded(self, start: u64, len: u64) -> Range {
        let whole = self.number(len);
        let count = if self.is_start(len) {
            whole
        } else {
            whole.saturating_add(1)
        };
        Range {
            first: self.number(start),
            count,
        }
    }
}

impl Range {
    /// The first page after the range.
    pub fn end(self) -> u64
        ensures { (self.first ≤ result) × (result ≤ self.first + self.count) }
    {
        self.first.saturating_add(self.count)
    }

    /// Whether a page is in the range.
    pub fn contains(self, page: u64) -> bool
        ensures { result ≡ true → (self.first ≤ page) × (page < self.first + self.count) }
    {
        self.first <= page && page < self.end()
    }

    /// The pages of both.
    pub fn common(self, other: Range) -> Range {
        let first = self.first.max(other.first);
        Range {
            first,
            count: self.end().min(other.end()).saturating_sub(first),
        }
    }
}
