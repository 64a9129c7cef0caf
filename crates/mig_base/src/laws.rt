// Laws of the flat memory: each is a function with an empty body, whose contract is the law.
ghost use Rattle.std.specs.Prelude.{◌≡◌, ℕ, ◌<◌, ◌≤◌, ◌⊎◌, List, None};
ghost use Rattle.mig_base.specs.Flat.{memory_of, mapped_count};
ghost use Rattle.mig_base.specs.declared.command.Entry.{Entry};
ghost use Rattle.mig_base.specs.FlatMap.{map_of};
ghost use Rattle.std.specs.FinMap.{get, len};

use crate::{HIGH, LOW};

/// No address outside the address space is ever mapped, so a flat memory is a finite map.
pub fn flat_memory_is_finite()
    ensures { (entries : List Entry) (addr : ℕ) → (addr < LOW) ⊎ (HIGH ≤ addr) →
        memory_of entries addr ≡ None }
{}

/// Each flat memory is the look-up of a finite map, whose size is the number of mapped addresses.
pub fn flat_memory_is_a_map()
    ensures look { (entries : List Entry) (addr : ℕ) →
        get (map_of entries) addr ≡ memory_of entries addr }
    ensures size { (entries : List Entry) →
        len (map_of entries) ≡ mapped_count (memory_of entries) }
{}
