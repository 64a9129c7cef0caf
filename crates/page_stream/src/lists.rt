//! The lists that frames hold: callers see each as a list.

ghost use Rattle.std.specs.Prelude.{◌≡◌, length};
ghost use Rattle.mig_model.specs.Bounds.{ArePageBytes};

use mig_base::{Command, PageBytes};
use std::marker::Model;

/// The bytes of neighbouring pages, in order.
#[derive(Drop)]
pub struct Pages {
    pages: Vec<PageBytes>,
}

impl Model for Pages {
    ghost use Rattle.std.specs.Prelude.{List, ℕ};

    ghost Value = { List (List ℕ) };

    ghost view = { λ run. run.pages.items };
}

impl Pages {
    /// The list of these pages.
    pub fn new(pages: Vec<PageBytes>) -> Self
        ensures { result ≡ pages.items }
    {
        Pages { pages }
    }

    /// The pages, in order.
    pub fn as_slice(&self) -> &[PageBytes]
        ensures { result.now ≡ self.now }
    {
        self.pages.as_slice()
    }

    /// The number of pages.
    pub fn len(&self) -> usize
        ensures { result ≡ length self.now }
    {
        self.pages.len()
    }

    /// A law: each page has its 4096 bytes. The call does nothing.
    pub fn are_whole(&self)
        ensures { ArePageBytes self.now }
    {
        for page in self.as_slice() {
            page.are_whole();
        }
    }

    /// Hands over the pages.
    pub fn into_vec(self) -> Vec<PageBytes>
        ensures { result.items ≡ self }
    {
        self.pages
    }
}

/// The command that each processor still has to make, if any, in the order of the processors' numbers.
#[derive(Drop)]
pub struct Waiting {
    commands: Vec<Option<Command>>,
}

impl Model for Waiting {
    ghost use Rattle.std.specs.Prelude.{List, Option};
    ghost use Rattle.mig_base.specs.declared.command.Command.{Command};

    ghost Value = { List (Option Command) };

    ghost view = { λ waiting. waiting.commands.items };
}

impl Waiting {
    /// The list of these commands, one entry for each processor: the load or store that it still has to make, if any.
    pub fn new(commands: Vec<Option<Command>>) -> Self
        ensures { result ≡ commands.items }
    {
        Waiting { commands }
    }

    /// The commands, in order.
    pub fn as_slice(&self) -> &[Option<Command>]
        ensures { result.now ≡ self.now }
    {
        self.commands.as_slice()
    }
}
