//! Arrivals: copies that wait to be installed.

ghost use Rattle.std.specs.Prelude.{◌≡◌, ◌↔◌, true, IfOk};
ghost use Rattle.mig_base.specs.Bytes.{zero_page};
ghost use Rattle.fault_handler.specs.Arrivals.{came_bytes};

use mig_base::zeros::zero_bytes;
use mig_base::{NoMemory, PAGE_BYTES, PageBytes, PageNo};
use std::alloc::Global;
use std::collections::VecDeque;
use std::marker::Model;
use std::mem::replace;

/// The bytes of a copy, or `None` if all are zeros.
pub type Content = Option<PageBytes>;

/// A copy of a page of the source.
#[derive(Drop)]
pub struct Arrival {
    page: PageNo,
    content: Content,
}

impl Model for Arrival {
    ghost use Rattle.mig_model.specs.Wire as machine;
    ghost use Rattle.fault_handler.specs.Codes.{coded_copy};
    ghost use Rattle.fault_handler.specs.Arrivals.{came_bytes};

    ghost Value = { machine.Copy };

    ghost coded = { coded_copy };

    ghost view = { λ arrival. record { page = arrival.page; bytes = came_bytes arrival.content } };
}

impl Arrival {
    /// A copy of a page.
    pub fn new(page: PageNo, content: Content) -> Self
        ensures { result ≡ record { page = page; bytes = came_bytes content } }
    {
        Arrival { page, content }
    }

    /// An equal copy, in memory of its own. `NoMemory` if its bytes cannot be allocated.
    pub fn copy(&self, alloc: Global) -> Result<Self, NoMemory>
        ensures { IfOk result (λ copy. copy ≡ self.now) }
    {
        Ok(Arrival {
            page: self.page,
            content: copy_content(alloc, &self.content)?,
        })
    }

    /// Whether both are copies of the same page with the same bytes. Zeros for which no bytes are kept are the same as bytes that are all
    /// zeros.
    pub fn is_same(&self, other: &Self) -> bool
        ensures { (result ≡ true) ↔ (self.now ≡ other.now) }
    {
        self.page == other.page && is_same_content(&self.content, &other.content)
    }

    /// The page at the source.
    pub fn page(&self) -> PageNo
        ensures { result ≡ self.now.page }
    {
        self.page
    }

    /// Moves the content out and leaves zeros.
    pub fn take(&mut self) -> Content
        ensures content { came_bytes result ≡ self.old.bytes }
        ensures left { self.new ≡ record self.old { bytes = zero_page } }
    {
        replace(&mut self.content, None)
    }

    /// Puts back content that was moved out.
    pub fn put_back(&mut self, content: Content)
        ensures { self.new ≡ record self.old { bytes = came_bytes content } }
    {
        self.content = content;
    }
}

/// Equal content, in memory of its own. `NoMemory` if that cannot be allocated; zeros need none.
fn copy_content(alloc: Global, content: &Content) -> Result<Content, NoMemory>
    ensures { IfOk result (λ copy. copy ≡ content.now) }
{
    match content {
        Some(bytes) => Ok(Some(PageBytes::copy_of(alloc, bytes.as_array())?)),
        None => Ok(None),
    }
}

/// Equal arrivals, in memory of their own. `NoMemory` if that cannot be allocated.
pub fn copy_arrivals(
    alloc: Global,
    arrivals: &VecDeque<Arrival>,
) -> Result<VecDeque<Arrival>, NoMemory>
    ensures { IfOk result (λ copies. copies.items ≡ arrivals.now.items) }
{
    let mut copies = VecDeque::with_capacity(alloc, arrivals.len())?;
    for i in 0..arrivals.len() {
        copies.push_back(arrivals[i].copy(alloc)?)?;
    }
    Ok(copies)
}

/// The bytes of a copy, those of zeros among them.
fn bytes_of(content: &Content) -> &[u8; PAGE_BYTES]
    ensures { result.now ≡ came_bytes content.now }
{
    match content {
        Some(bytes) => bytes.as_array(),
        None => zero_bytes(),
    }
}

/// Whether both contents are the same bytes.
fn is_same_content(content: &Content, other: &Content) -> bool
    ensures { (result ≡ true) ↔ (came_bytes content.now ≡ came_bytes other.now) }
{
    *bytes_of(content) == *bytes_of(other)
}

/// Whether two queues have the same arrivals in the same order.
pub fn are_same_arrivals(arrivals: &VecDeque<Arrival>, others: &VecDeque<Arrival>) -> bool
    ensures { (result ≡ true) ↔ (arrivals.now.items ≡ others.now.items) }
{
    if arrivals.len() != others.len() {
        return false;
    }
    for i in 0..arrivals.len() {
        if !arrivals[i].is_same(&others[i]) {
            return false;
        }
    }
    true
}
