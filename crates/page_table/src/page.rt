//! One page of a leaf. A page of zeros takes no memory until another byte is stored to it.

ghost use Rattle.std.specs.Prelude.{◌≡◌, ℕ, ◌+◌, ◌≤◌, false, true, is_some, None, Some, IfOk, OnErr, length};
ghost use Rattle.std.specs.Option.{option_copied};
ghost use Rattle.mig_base.specs.Bytes.{overwrite, zero_page};
ghost use Rattle.foundation.specs.declared.TheConstants.{PAGE_SIZE};
ghost use Rattle.page_table.specs.Bytes.{is_zeros, stored_page, unless_zeros, write_needs_room};
ghost use Rattle.page_table.specs.Contents.{bytes_in};

use mig_base::zeros::{are_zeros, zero_bytes};
use mig_base::{NoMemory, PAGE_BYTES, PageBytes};
use std::alloc::Global;
use std::marker::Model;
use std::mem::replace;

/// What a page has.
#[derive(Drop)]
pub enum Content {
    /// Nothing: the page is missing.
    Missing,
    /// Zeros, without memory of their own.
    Zeros,
    /// Bytes of its own, which may be zeros as well.
    Bytes(PageBytes),
}

/// A page: missing, or present with its bytes.
#[derive(Drop)]
pub struct Page {
    content: Content,
}

impl Model for Page {
    ghost use Rattle.std.specs.Prelude.{ℕ, List, Option};
    ghost use Rattle.page_table.specs.Contents.{bytes_in};

    ghost Value = { Option (List ℕ) };

    ghost view = { λ page. bytes_in page.content };
}

impl Page {
    /// A missing page.
    pub fn missing() -> Self
        ensures { result ≡ None }
    {
        Page {
            content: Content::Missing,
        }
    }

    /// A page of zeros. It takes no memory.
    pub fn zeros() -> Self
        ensures { result ≡ Some zero_page }
    {
        Page {
            content: Content::Zeros,
        }
    }

    /// A page with these bytes, which are not copied.
    pub fn holding(bytes: PageBytes) -> Self
        ensures { result ≡ Some bytes }
    {
        Page {
            content: Content::Bytes(bytes),
        }
    }

    /// The bytes of the page, if it is present.
    pub fn bytes(&self) -> Option<&[u8; PAGE_BYTES]>
        ensures { option_copied result ≡ self.now }
    {
        match &self.content {
            Content::Missing => None,
            Content::Zeros => Some(zero_bytes()),
            Content::Bytes(bytes) => Some(bytes.as_array()),
        }
    }

    /// The bytes of the page, if it is present and not all of them are zero. Zeros without memory of their own are not compared.
    pub fn bytes_unless_zeros(&self) -> Option<&[u8; PAGE_BYTES]>
        ensures { option_copied result ≡ unless_zeros self.now }
    {
        match &self.content {
            Content::Missing => None,
            Content::Zeros => None,
            Content::Bytes(bytes) => {
                let bytes = bytes.as_array();
                if are_zeros(bytes) { None } else { Some(bytes) }
            }
        }
    }

    /// Whether the page is present.
    pub fn is_present(&self) -> bool
        ensures { result ≡ is_some self.now }
    {
        match &self.content {
            Content::Missing => false,
            Content::Zeros => true,
            Content::Bytes(_) => true,
        }
    }

    /// An equal page, in memory of its own. `NoMemory` if that cannot be allocated; a missing page and a page of zeros need none.
    pub fn copy(&self, alloc: Global) -> Result<Self, NoMemory>
        ensures { IfOk result (λ copy. copy ≡ self.now) }
    {
        match &self.content {
            Content::Missing => Ok(Page::missing()),
            Content::Zeros => Ok(Page::zeros()),
            Content::Bytes(bytes) => {
                let copy = PageBytes::copy_of(alloc, bytes.as_array())?;
                Ok(Page::holding(copy))
            }
        }
    }

    /// Takes the page out, and leaves a missing one.
    pub fn take(&mut self) -> Self
        ensures page { result ≡ self.old }
        ensures left { self.new ≡ None }
    {
        replace(self, Page::missing())
    }

    /// Writes bytes into the page, from byte `offset` on. A missing page becomes present, with zeros elsewhere. A page without memory
    /// of its own gets some, unless all these bytes are zero. `NoMemory` if that cannot be allocated; the page is then as it was.
    pub fn write(&mut self, alloc: Global, offset: usize, bytes: &[u8]) -> Result<(), NoMemory>
        requires { offset + length bytes.now ≤ PAGE_SIZE }
        ensures stored { self.new ≡ stored_page result self.old offset bytes.now }
        ensures needs { OnErr result (write_needs_room self.old bytes.now ≡ true) }
    {
        match &mut self.content {
            Content::Missing => self.content = written(alloc, offset, bytes)?,
            Content::Zeros => self.content = written(alloc, offset, bytes)?,
            Content::Bytes(held) => held.write(offset, bytes),
        }
        Ok(())
    }
}

/// Zeros into which bytes were written from byte `offset` on. `NoMemory` if they cannot be allocated; where all are zeros they need no
/// memory.
fn written(alloc: Global, offset: usize, bytes: &[u8]) -> Result<Content, NoMemory>
    requires { offset + length bytes.now ≤ PAGE_SIZE }
    ensures ok { IfOk result (λ content.
        bytes_in content ≡ Some (overwrite zero_page offset bytes.now)) }
    ensures err { OnErr result (is_zeros bytes.now ≡ false) }
{
    if are_zeros(bytes) {
        return Ok(Content::Zeros);
    }
    let mut held = PageBytes::zeros(alloc)?;
    held.write(offset, bytes);
    Ok(Content::Bytes(held))
}
