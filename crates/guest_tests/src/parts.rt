//! What a space is assembled of: two mapped pages, of which the first is present.

ghost use Rattle.std.specs.Prelude.{◌≡◌, IfOk, replicate};
ghost use Rattle.std.specs.FinMap as map;
ghost use Rattle.std.specs.FinSet as set;
ghost use Rattle.mig_base.specs.declared.Prot.TheVariants.{ReadWrite};
ghost use Rattle.mig_base.specs.Pages.{set_range};
ghost use Rattle.mig_model.specs.Host.{IsSound};

use area_map::AreaMap;
use mig_base::{NoMemory, PageBytes, Prot};
use page_table::PageTable;
use std::alloc::Global;
use std::test::Fail;

/// Pages 0x10 and 0x11, for loads and stores.
fn two_mapped(alloc: Global) -> Result<AreaMap, NoMemory>
    ensures { IfOk result (λ areas. areas ≡ set_range map.empty 16 2 ReadWrite) }
{
    let mut areas = AreaMap::new(alloc);
    areas.map(0x10, 2, Prot::ReadWrite)?;
    Ok(areas)
}

/// Page 0x10, with 4096 sevens.
fn first_present(alloc: Global) -> Result<PageTable, NoMemory>
    ensures bytes { IfOk result (λ pages.
        pages.bytes ≡ map.insert map.empty 16 (replicate 4096 7)) }
    ensures open { IfOk result (λ pages. pages.protected ≡ set.empty) }
{
    let mut pages = PageTable::new(alloc);
    let Ok(bytes) = PageBytes::copy_of(alloc, &[7; 4096]) else {
        return Err(NoMemory);
    };
    match pages.put(0x10, bytes) {
        Ok(()) => Ok(pages),
        Err(_) => Err(NoMemory),
    }
}

/// The two mapped pages, on the second try if the first is refused memory.
fn areas(alloc: Global) -> Result<AreaMap, Fail>
    ensures { IfOk result (λ areas. areas ≡ set_range map.empty 16 2 ReadWrite) }
{
    if let Ok(areas) = two_mapped(alloc) {
        return Ok(areas);
    }
    Ok(two_mapped(alloc)?)
}

/// The first page, on the second try if the first is refused memory.
fn pages(alloc: Global) -> Result<PageTable, Fail>
    ensures bytes { IfOk result (λ pages.
        pages.bytes ≡ map.insert map.empty 16 (replicate 4096 7)) }
    ensures open { IfOk result (λ pages. pages.protected ≡ set.empty) }
{
    if let Ok(pages) = first_present(alloc) {
        return Ok(pages);
    }
    Ok(first_present(alloc)?)
}

/// The areas and the pages.
pub fn parts(alloc: Global) -> Result<(AreaMap, PageTable), Fail>
    ensures sound { IfOk result (λ parts.
        IsSound (record { areas = parts.0; bytes = parts.1.bytes })) }
    ensures open { IfOk result (λ parts. parts.1.protected ≡ set.empty) }
{
    let areas = areas(alloc)?;
    let pages = pages(alloc)?;
    Ok((areas, pages))
}
