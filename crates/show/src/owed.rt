//! Which pages are owed, and where their copies are.

ghost use Rattle.std.specs.Prelude.{◌≡◌, ◌++◌, OnOk, IfOk, string_bytes};
ghost use Rattle.show.specs.Owed.{AddsAllOwed, AddsOwed, AddsPushes, IsOwedText, IsPlace, is_requested, owed_head, owed_line, push_line, requested_text};

use crate::survey::Survey;
use mig_base::{NoMemory, PageNo, PageSet, page_address};
use std::alloc::Global;
use world::World;

/// Where the copy of an owed page of the source is.
pub(crate) fn place_of(world: &World, survey: &Survey, origin: PageNo) -> &'static str
    ensures { IsPlace result.now }
{
    if survey.arrived.contains(origin) {
        "arrived"
    } else if survey.flying.contains(origin) {
        "on wire"
    } else if survey.urgent.contains(origin) {
        "on urgent"
    } else if world.remaining().contains(origin) {
        "to push"
    } else {
        "lost"
    }
}

/// What follows where a page of the source was requested and has not come.
fn requested(world: &World, origin: PageNo) -> &'static str
    ensures { result.now ≡ requested_text (is_requested world.now origin) }
{
    if world.requests().contains(&origin) {
        ", requested"
    } else {
        ""
    }
}

/// Appends how many pages are owed, how many of them the source has still to push, and how many are requested.
#[tactic(auto, unfolding(crate::specs::Owed::owed_head))]
fn write_head(text: &mut String, world: &World) -> Result<(), NoMemory>
    ensures { OnOk result (string_bytes text.new ≡
        string_bytes text.old ++ owed_head world.now) }
{
    let left = world.owed_left();
    let pushes = world.remaining().len();
    let requests = world.requests().len();
    write!(text, "owed left {left} push {pushes} requests {requests}\n")?;
    Ok(())
}

/// Appends the line of a page that the source has still to push.
#[tactic(auto, unfolding(crate::specs::Owed::push_line))]
fn write_push(text: &mut String, page: PageNo) -> Result<(), NoMemory>
    ensures { OnOk result (string_bytes text.new ≡ string_bytes text.old ++ push_line page) }
{
    let addr = page_address(page);
    write!(text, "push 0x{addr:x}\n")?;
    Ok(())
}

/// Appends the lines of the pages that the source has still to push.
fn write_pushes(text: &mut String, pages: &PageSet) -> Result<(), NoMemory>
    ensures { OnOk result
        (AddsPushes pages.now (string_bytes text.old) (string_bytes text.new)) }
{
    for page in pages.iter() {
        write_push(text, page)?;
    }
    Ok(())
}

/// Appends the line of a page of the source that the destination is owed at `home`, with the word for its place.
#[tactic(auto, unfolding(crate::specs::Owed::owed_line))]
fn write_line(
    text: &mut String,
    world: &World,
    place: &str,
    origin: PageNo,
    home: PageNo,
) -> Result<(), NoMemory>
    ensures { OnOk result (string_bytes text.new ≡
        string_bytes text.old ++ owed_line world.now origin home place.now) }
{
    let home = page_address(home);
    let from = page_address(origin);
    let requested = requested(world, origin);
    write!(
        text,
        "owed 0x{home:x} from 0x{from:x}: {place}{requested}\n"
    )?;
    Ok(())
}

/// Appends the line of a page of the source, if the destination is owed it.
fn write_page(
    text: &mut String,
    world: &World,
    survey: &Survey,
    origin: PageNo,
) -> Result<(), NoMemory>
    ensures { OnOk result
        (AddsOwed world.now origin (string_bytes text.old) (string_bytes text.new)) }
{
    let Some(home) = world.owed().home(origin) else {
        return Ok(());
    };
    let place = place_of(world, survey, origin);
    write_line(text, world, place, origin, home)?;
    Ok(())
}

/// Appends the lines of some pages of the source that the destination is owed.
fn write_pages(
    text: &mut String,
    world: &World,
    survey: &Survey,
    pages: &PageSet,
) -> Result<(), NoMemory>
    ensures { OnOk result
        (AddsAllOwed world.now pages.now (string_bytes text.old) (string_bytes text.new)) }
{
    for origin in pages.iter() {
        write_page(text, world, survey, origin)?;
    }
    Ok(())
}

/// How many pages are owed, which of them the source has still to push, and where each is that the destination is owed.
pub(crate) fn owed_facts(alloc: Global, world: &World, survey: &Survey) -> Result<String, NoMemory>
    ensures { IfOk result (λ text. IsOwedText world.now (string_bytes text)) }
{
    let mut text = String::new(alloc);
    write_head(&mut text, world)?;
    write_pushes(&mut text, world.remaining())?;
    let origins = world.owed().origins(alloc)?;
    write_pages(&mut text, world, survey, &origins)?;
    Ok(text)
}
