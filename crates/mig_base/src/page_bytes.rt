//! The bytes of one page, in memory of their own.

ghost use Rattle.std.specs.Prelude.{◌≡◌, ◌+◌, ◌<◌, ◌≤◌, ◌↔◌, true, length, IfOk};
ghost use Rattle.std.specs.List.{All};
ghost use Rattle.mig_base.specs.Bytes.{overwrite, zero_page};
ghost use Rattle.foundation.specs.declared.TheConstants.{PAGE_SIZE};

use crate::{NoMemory, PAGE_BYTES};
use std::alloc::Global;
use std::marker::Model;

/// The 4096 bytes of a page.
///
/// They are in a vector, into which they are copied once. A box of an array would be filled with zeros first, or be filled by way of the
/// stack.
#[derive(Drop)]
pub struct PageBytes {
    bytes: Vec<u8>,
}

impl Model for PageBytes {
    ghost use Rattle.std.specs.Prelude.{◌≡◌, ℕ, List, length};
    ghost use Rattle.foundation.specs.declared.TheConstants.{PAGE_SIZE};

    ghost Value = { List ℕ };

    ghost view = { λ page. page.bytes.items };

    ghost invariant = { λ page. length page.bytes.items ≡ PAGE_SIZE };
}

impl PageBytes {
    /// A page of zeros. `NoMemory` comes if it cannot be allocated.
    pub fn zeros(alloc: Global) -> Result<Self, NoMemory>
        ensures { IfOk result (λ page. page ≡ zero_page) }
    {
        let mut bytes = Vec::new(alloc);
        bytes.resize(PAGE_BYTES, 0)?;
        Ok(PageBytes { bytes })
    }

    /// A copy of the bytes of a page. `NoMemory` comes if it cannot be allocated.
    pub fn copy_of(alloc: Global, bytes: &[u8; PAGE_BYTES]) -> Result<Self, NoMemory>
        ensures { IfOk result (λ page. page ≡ bytes.now) }
    {
        Ok(PageBytes {
            bytes: Vec::from_slice(alloc, bytes)?,
        })
    }

    /// The 4096 bytes, in order.
    pub fn as_array(&self) -> &[u8; PAGE_BYTES]
        ensures { result.now ≡ self.now }
    {
        match self.bytes.as_slice().as_array::<PAGE_BYTES>() {
            Some(bytes) => bytes,
            None => unreachable!(),
        }
    }

    /// Copies the bytes of another page over these. It allocates no memory.
    pub fn copy_from(&mut self, bytes: &[u8; PAGE_BYTES])
        ensures { self.new ≡ bytes.now }
    {
        self.bytes.copy_from_slice(bytes);
    }

    /// Writes bytes over those from the offset on, which is in bytes. It allocates no memory, and touches only the bytes written.
    pub fn write(&mut self, offset: usize, bytes: &[u8])
        requires { offset + length bytes.now ≤ PAGE_SIZE }
        ensures { self.new ≡ overwrite self.old offset bytes.now }
    {
        write_over(&mut self.bytes, offset, bytes);
    }

    /// Whether the two pages have the same bytes.
    pub fn is_same(&self, other: &Self) -> bool
        ensures { (result ≡ true) ↔ (self.now ≡ other.now) }
    {
        self.bytes == other.bytes
    }

    /// A law of every page: it has 4096 bytes, each below 256. The call does nothing.
    pub fn are_whole(&self)
        ensures size { length self.now ≡ PAGE_SIZE }
        ensures bytes { All (λ byte. byte < 256) self.now }
    {
        are_bytes(&self.bytes);
    }
}

/// Writes bytes over those from the offset on, which is in bytes.
fn write_over(held: &mut [u8], offset: usize, bytes: &[u8])
    requires { offset + length bytes.now ≤ length held.old }
    ensures { held.new ≡ overwrite held.old offset bytes.now }
{
    held[offset..offset + bytes.len()].copy_from_slice(bytes);
}

/// A law of every slice of bytes: each is below 256. The call does nothing.
fn are_bytes(bytes: &[u8])
    ensures { All (λ byte. byte < 256) bytes.now }
{}
