//! The facts of a world.

ghost use Rattle.std.specs.Prelude.{◌≡◌, [], true, IfOk, string_bytes};
ghost use Rattle.show.specs.Owed.{IsOwedText};
ghost use Rattle.show.specs.Shown.{IsOf, IsText, asks_owed};

use crate::channel::write_wires;
use crate::cpus::write_cpus;
use crate::json::object_of;
use crate::owed::owed_facts;
use crate::pages::write_pages;
use crate::queues::write_queues;
use crate::survey::Survey;
use crate::what::{Asked, Form, Span, What};
use engine::progress;
use grammar::print_progress;
use mig_base::NoMemory;
use std::alloc::Global;
use world::World;

/// What is asked for of the processors and of the queues.
fn facts_before(
    alloc: Global,
    world: &World,
    survey: &Survey,
    what: What,
) -> Result<String, NoMemory>
    ensures { IfOk result (λ text. what ≡ What.Owed → string_bytes text ≡ []) }
{
    let mut text = String::new(alloc);
    if matches!(what, What::Cpus | What::All) {
        write_cpus(&mut text, world, survey)?;
    }
    if matches!(what, What::Queues | What::All) {
        write_queues(&mut text, world, survey)?;
    }
    Ok(text)
}

/// What is asked for of the owed pages.
fn facts_between(
    alloc: Global,
    world: &World,
    survey: &Survey,
    what: What,
) -> Result<String, NoMemory>
    ensures { IfOk result (λ text. asks_owed what ≡ true →
        IsOwedText world.now (string_bytes text)) }
{
    match what {
        What::Owed | What::All => owed_facts(alloc, world, survey),
        _ => Ok(String::new(alloc)),
    }
}

/// What is asked for of the wires and of the pages of both nodes.
fn facts_after(
    alloc: Global,
    world: &World,
    what: What,
    range: Option<Span>,
) -> Result<String, NoMemory>
    ensures { IfOk result (λ text. what ≡ What.Owed → string_bytes text ≡ []) }
{
    let mut text = String::new(alloc);
    if matches!(what, What::Wires | What::All) {
        write_wires(alloc, &mut text, world)?;
    }
    if matches!(what, What::Pages | What::All) {
        write_pages(alloc, &mut text, world, range)?;
    }
    Ok(text)
}

/// The progress of a world, and then the facts of it that are asked for, each in a line of its own.
fn text_of(alloc: Global, world: &World, asked: Asked) -> Result<String, NoMemory>
    ensures { IfOk result (λ text. IsOf world.now asked.what (string_bytes text)) }
{
    let survey = Survey::of(alloc, world)?;
    let before = facts_before(alloc, world, &survey, asked.what)?;
    let between = facts_between(alloc, world, &survey, asked.what)?;
    let after = facts_after(alloc, world, asked.what, asked.range)?;
    let mut text = String::new(alloc);
    print_progress(&mut text, progress(world))?;
    text.push_str(&before)?;
    text.push_str(&between)?;
    text.push_str(&after)?;
    Ok(text)
}

/// The text that [`show_script`](crate::show_script) writes of a world: its progress, and the facts of it that are asked for. `asked.at` is
/// not looked at. At `NoMemory` there is no text. The world stays as it is.
pub fn facts_of(alloc: Global, world: &World, asked: Asked) -> Result<String, NoMemory>
    ensures { IfOk result (λ text. IsText asked.form world.now asked.what (string_bytes text)) }
{
    match asked.form {
        Form::Lines => text_of(alloc, world, asked),
        Form::Json => object_of(alloc, world, asked),
    }
}
