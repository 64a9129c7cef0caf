//! What C keeps.

ghost use Rattle.std.specs.Prelude.{◌≡◌};
ghost use Rattle.std.specs.Option.{MatchOption};
ghost use Rattle.std.specs.Coded.{coded_option};
ghost use Rattle.std.specs.declared.option.Option.{Option as Maybe};
ghost use Rattle.std.specs.declared.option.Option.TheVariants.{None as Nothing, Some as Just};
ghost use Rattle.postmig_c.specs.declared.handle.Content.{Content as Contents};
ghost use Rattle.postmig_c.specs.Held.{held, coded_content};

use crate::queue::FrameQueue;
use crate::unboxed::Unboxed;
use engine::LineRunner;
use nodes::{TracedDestination, TracedSource};
use std::alloc::Global;
use std::marker::Model;
use std::mem::replace;
use std::ptr::null_mut;

/// What is behind a handle.
#[derive(Drop)]
pub enum Content {
    /// A world, and what its last line printed.
    World(LineRunner),
    /// A decoder, and the frames that wait.
    Frames(FrameQueue),
    /// A source of its own, with its trace.
    Source(TracedSource),
    /// A destination of its own, with its trace.
    Destination(TracedDestination),
}

/// What C keeps of a content: null, or the address of the content. It may not be shared, so no call takes it by `&`.
#[repr(C)]
pub struct Handle {
    at: *mut u8,
    alloc: Global,
    pub ghost content: { Maybe Contents } by { coded_option coded_content },
}

impl Model for Handle {
    ghost also_owns = { λ h. held h.alloc h.at h.content };
}

impl Handle {
    /// A null handle.
    pub fn empty(alloc: Global) -> Handle
        ensures { result.content ≡ Nothing }
    {
        let at = null_mut();
        Handle { at, alloc }
    }

    /// A handle of the content at a place.
    fn of_unboxed(content: Unboxed<Content, Global>) -> Handle
        ensures { result.content ≡ Just content.value }
    {
        let Unboxed { at, alloc } = content;
        let at = at as *mut u8;
        Handle { at, alloc }
    }

    /// The place of the content, if there is one.
    fn into_unboxed(self) -> Option<Unboxed<Content, Global>>
        ensures { MatchOption result (self.content ≡ Nothing) (λ u. self.content ≡ Just u.value) }
    {
        let Handle { at, alloc } = self;
        if at.is_null() {
            None
        } else {
            let at = at as *mut Content;
            Some(Unboxed { at, alloc })
        }
    }

    /// A handle of a content.
    pub fn of(content: Box<Content>) -> Handle
        ensures { result.content ≡ Just content.value }
    {
        Handle::of_unboxed(Unboxed::from_box(content))
    }

    /// The content, if there is one.
    pub fn into_box(self) -> Option<Box<Content>>
        ensures { MatchOption result (self.content ≡ Nothing) (λ b. self.content ≡ Just b.value) }
    {
        match self.into_unboxed() {
            None => None,
            Some(content) => Some(content.into_box()),
        }
    }

    /// Takes the content out, and leaves a null handle.
    pub fn take(&mut self, alloc: Global) -> Option<Box<Content>>
        ensures left { self.new.content ≡ Nothing }
        ensures content { MatchOption result (self.old.content ≡ Nothing) (λ b.
            self.old.content ≡ Just b.value) }
    {
        replace(self, Handle::empty(alloc)).into_box()
    }
}

impl Drop for Handle {
    fn drop(self) {
        let _ = self.into_box();
    }
}
