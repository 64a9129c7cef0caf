//! What the processors do, and what they wait for.

use crate::survey::Survey;
use grammar::{Order, OrderText};
use mig_base::cpu_state::CpuState;
use mig_base::phase::{DestPhase, SourcePhase};
use mig_base::schedule::{Side, Step};
use mig_base::{Command, HIGH_PAGE, NoMemory, PAGE_SIZE, PageNo, WorldPhase, page_address};
use world::World;

/// The node that runs the processors, or ran them last.
pub(crate) fn node_of(world: &World) -> Side {
    match world.phase() {
        WorldPhase::Postcopy | WorldPhase::Complete => Side::Destination,
        _ => Side::Source,
    }
}

/// Whether no frame moves: the channel is lost, or a node has not continued since it was.
fn is_down(world: &World) -> bool {
    !world.is_up()
        || matches!(world.destination_phase(), DestPhase::Paused)
        || matches!(world.source_phase(), SourcePhase::Paused)
}

/// The page of a load or a store. A map call has none.
pub(crate) fn page_of(command: Command) -> Option<PageNo> {
    match command {
        Command::Load { addr, .. } | Command::Store { addr, .. }
            if addr / PAGE_SIZE < u64::from(HIGH_PAGE) => Some((addr / PAGE_SIZE) as PageNo),
        _ => None,
    }
}

/// The line of a script that must come next for a processor that sleeps on an owed page.
fn line_for_owed(world: &World, survey: &Survey, page: PageNo, origin: PageNo) -> &'static str {
    if survey.arrived.contains(origin) {
        // Nothing is installed while an event is unread.
        return if world.destination_events() > 0 {
            "dread"
        } else {
            "install"
        };
    }
    if survey.flying.contains(origin) {
        return "deliver";
    }
    if survey.urgent.contains(origin) {
        return "udeliver";
    }
    if is_down(world) {
        return "the channel";
    }
    if survey.asking.contains(origin) {
        return "back";
    }
    if survey.is_asked(origin) {
        return "serve";
    }
    if world.requests().contains(&origin) {
        return "push";
    }
    line_for_fault(world, survey, page)
}

/// The line of a script that must come next for a processor whose fault the destination's handler has not resolved. It resolves none
/// while an event is unread.
fn line_for_fault(world: &World, survey: &Survey, page: PageNo) -> &'static str {
    if survey.destination.has_unread(page) || world.destination_events() > 0 {
        "dread"
    } else {
        "dact"
    }
}

/// The same at the source.
fn line_at_source(world: &World, survey: &Survey, page: PageNo) -> &'static str {
    if survey.source.has_unread(page) || world.source_events() > 0 {
        "sread"
    } else {
        "sact"
    }
}

/// The line of a script that must come next for a processor that sleeps on a page.
pub(crate) fn line_for(world: &World, survey: &Survey, page: PageNo) -> &'static str {
    if matches!(world.phase(), WorldPhase::Switching) {
        return "the package";
    }
    if matches!(node_of(world), Side::Source) {
        return line_at_source(world, survey, page);
    }
    match world.owed().origin(page) {
        Some(origin) => line_for_owed(world, survey, page, origin),
        None => line_for_fault(world, survey, page),
    }
}

/// The word of a read of messages at the node that runs the processors.
pub(crate) fn read_at(side: Side) -> &'static str {
    match side {
        Side::Source => "sread",
        Side::Destination => "dread",
    }
}

/// A processor with its load or store, as a line of a script.
pub(crate) fn with_command(cpu: u8, command: Command) -> OrderText {
    OrderText(Order::Make(Step::Issue { cpu, command }))
}

/// Appends the line of a processor that sleeps.
fn write_asleep(
    text: &mut String,
    world: &World,
    survey: &Survey,
    cpu: u8,
    command: Command,
) -> Result<(), NoMemory> {
    let line = with_command(cpu, command);
    write!(text, "{line}: asleep")?;
    if let Some(page) = page_of(command) {
        let addr = page_address(page);
        let next = line_for(world, survey, page);
        write!(text, " on 0x{addr:x}, waits for {next}")?;
    }
    write!(text, "\n")?;
    Ok(())
}

/// Appends the line of a processor.
fn write_cpu(
    text: &mut String,
    world: &World,
    survey: &Survey,
    cpu: u8,
    state: CpuState,
) -> Result<(), NoMemory> {
    match state {
        CpuState::Idle => write!(text, "cpu {cpu}: idle\n")?,
        CpuState::Asleep(command) => write_asleep(text, world, survey, cpu, command)?,
        CpuState::Woken(command) => {
            let line = with_command(cpu, command);
            write!(text, "{line}: woken, waits for retry\n")?;
        }
        CpuState::InCall { reply, left } => {
            let read = read_at(node_of(world));
            write!(
                text,
                "cpu {cpu}: in call {left}, waits for {read}, then {reply}\n"
            )?;
        }
    }
    Ok(())
}

/// Appends the line of each processor.
pub(crate) fn write_cpus(
    text: &mut String,
    world: &World,
    survey: &Survey,
) -> Result<(), NoMemory> {
    for cpu in 0..world.cpus() {
        if let Ok(state) = world.cpu_state(cpu) {
            write_cpu(text, world, survey, cpu, state)?;
        }
    }
    Ok(())
}
