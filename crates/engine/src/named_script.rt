//! A script that has a name.

/// A script that is run on a new world, and how what is written names it.
#[derive(Clone, Copy)]
pub struct NamedScript<'a> {
    /// The name of its file, or what stands for it.
    pub name: &'a str,
    /// How many processors its world has, 1 to 16.
    pub cpus: u8,
}
