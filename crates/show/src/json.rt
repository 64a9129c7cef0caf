//! The facts of a world as one JSON object. Its texts are in the words of the lines, of which none has a character that JSON escapes.

ghost use Rattle.std.specs.Prelude.{◌≡◌, ◌++◌, OnOk, IfOk, string_bytes};
ghost use Rattle.grammar.specs.Printed.{phase_text};
ghost use Rattle.show.specs.Json.{IsObject, dropped_member, faults_member, installed_member, phase_member, progress_member, sent_members};

use crate::channel::write_frame;
use crate::cpus::{line_for, node_of, page_of, read_at, with_command};
use crate::flight::frames_on;
use crate::owed::place_of;
use crate::pages::{mapped_pages, place_in_source, space_of, word_of, words_of};
use crate::survey::Survey;
use crate::what::{Asked, Span, What};
use engine::progress;
use grammar::Progress;
use mig_base::cpu_state::CpuState;
use mig_base::effect::Effect;
use mig_base::phase::{DestPhase, SourcePhase};
use mig_base::schedule::Side;
use mig_base::{Addr, Command, NoMemory, PageNo, PageSet, Prot, WorldPhase, page_address};
use page_stream::Frame;
use std::alloc::Global;
use wires::Wire;
use world::World;

/// The name of a phase.
fn phase_name(phase: WorldPhase) -> &'static str
    ensures { result.now ≡ phase_text phase }
{
    match phase {
        WorldPhase::Idle => "idle",
        WorldPhase::Precopy => "precopy",
        WorldPhase::Switching => "switching",
        WorldPhase::Postcopy => "postcopy",
        WorldPhase::Complete => "complete",
    }
}

/// Begins an object with the phase of the migration.
#[tactic(auto, unfolding(crate::specs::Json::phase_member))]
fn write_phase(text: &mut String, phase: WorldPhase) -> Result<(), NoMemory>
    ensures { OnOk result (string_bytes text.new ≡ string_bytes text.old ++ phase_member phase) }
{
    let phase = phase_name(phase);
    write!(text, "{{\"progress\":{{\"phase\":\"{phase}\"")?;
    Ok(())
}

/// Appends the source's part of a report.
#[tactic(auto, unfolding(crate::specs::Json::sent_members))]
fn write_sent(text: &mut String, rounds: u32, sent: u64, left: u32) -> Result<(), NoMemory>
    ensures { OnOk result (string_bytes text.new ≡
        string_bytes text.old ++ sent_members rounds sent left) }
{
    write!(text, ",\"rounds\":{rounds},\"sent\":{sent},\"left\":{left}")?;
    Ok(())
}

/// Appends the number of copies that were installed.
#[tactic(auto, unfolding(crate::specs::Json::installed_member))]
fn write_installed(text: &mut String, installed: u64) -> Result<(), NoMemory>
    ensures { OnOk result (string_bytes text.new ≡
        string_bytes text.old ++ installed_member installed) }
{
    write!(text, ",\"installed\":{installed}")?;
    Ok(())
}

/// Appends the number of copies that were dropped.
#[tactic(auto, unfolding(crate::specs::Json::dropped_member))]
fn write_dropped(text: &mut String, dropped: u64) -> Result<(), NoMemory>
    ensures { OnOk result (string_bytes text.new ≡
        string_bytes text.old ++ dropped_member dropped) }
{
    write!(text, ",\"dropped\":{dropped}")?;
    Ok(())
}

/// Appends the number of page faults, and ends the report.
#[tactic(auto, unfolding(crate::specs::Json::faults_member))]
fn write_faults(text: &mut String, faults: u64) -> Result<(), NoMemory>
    ensures { OnOk result (string_bytes text.new ≡ string_bytes text.old ++ faults_member faults) }
{
    write!(text, ",\"faults\":{faults}}}")?;
    Ok(())
}

/// Begins an object with how far the migration is.
#[tactic(auto, unfolding(crate::specs::Json::progress_member))]
fn write_progress(text: &mut String, progress: Progress) -> Result<(), NoMemory>
    ensures { OnOk result (string_bytes text.new ≡
        string_bytes text.old ++ progress_member progress) }
{
    write_phase(text, progress.phase)?;
    write_sent(text, progress.rounds, progress.sent, progress.left)?;
    write_installed(text, progress.installed)?;
    write_dropped(text, progress.dropped)?;
    write_faults(text, progress.faults)
}

/// Separates what comes next from what comes before it, if it is not the first of a list or an object.
fn separate(text: &mut String) -> Result<(), NoMemory> {
    if !matches!(text.as_bytes().last(), Some(b'[' | b'{')) {
        text.push(',')?;
    }
    Ok(())
}

/// Appends the list of the addresses of pages.
fn write_addresses(text: &mut String, pages: &PageSet) -> Result<(), NoMemory> {
    text.push('[')?;
    for page in pages.iter() {
        let addr = page_address(page);
        separate(text)?;
        write!(text, "\"0x{addr:x}\"")?;
    }
    text.push(']')?;
    Ok(())
}

/// Appends what a processor with a command does.
fn write_command(
    text: &mut String,
    state: &str,
    cpu: u8,
    command: Command,
) -> Result<(), NoMemory> {
    let command = with_command(cpu, command);
    write!(text, "\"{state}\",\"command\":\"{command}\"")?;
    Ok(())
}

/// Appends what a processor that sleeps waits for.
fn write_asleep(
    text: &mut String,
    world: &World,
    survey: &Survey,
    cpu: u8,
    command: Command,
) -> Result<(), NoMemory> {
    write_command(text, "asleep", cpu, command)?;
    if let Some(page) = page_of(command) {
        let addr = page_address(page);
        let line = line_for(world, survey, page);
        write!(text, ",\"page\":\"0x{addr:x}\",\"waits_for\":\"{line}\"")?;
    }
    Ok(())
}

/// Appends the object of a processor.
fn write_cpu(
    text: &mut String,
    world: &World,
    survey: &Survey,
    cpu: u8,
    state: CpuState,
) -> Result<(), NoMemory> {
    separate(text)?;
    write!(text, "{{\"cpu\":{cpu},\"state\":")?;
    match state {
        CpuState::Idle => text.push_str("\"idle\"")?,
        CpuState::Asleep(command) => write_asleep(text, world, survey, cpu, command)?,
        CpuState::Woken(command) => {
            write_command(text, "woken", cpu, command)?;
            text.push_str(",\"waits_for\":\"retry\"")?;
        }
        CpuState::InCall { reply, left } => {
            let read = read_at(node_of(world));
            write!(
                text,
                "\"in call\",\"messages\":{left},\"waits_for\":\"{read}\",\"reply\":\"{reply}\""
            )?;
        }
    }
    text.push('}')?;
    Ok(())
}

/// Appends the processors.
fn write_cpus(text: &mut String, world: &World, survey: &Survey) -> Result<(), NoMemory> {
    text.push_str(",\"cpus\":[")?;
    for cpu in 0..world.cpus() {
        if let Ok(state) = world.cpu_state(cpu) {
            write_cpu(text, world, survey, cpu, state)?;
        }
    }
    text.push(']')?;
    Ok(())
}

/// Appends how much is in a queue, and the lines of the steps that take it.
fn write_queue(
    text: &mut String,
    step: &str,
    count: usize,
    effects: &[Effect],
) -> Result<(), NoMemory> {
    separate(text)?;
    write!(text, "\"{step}\":{{\"count\":{count},\"lines\":[")?;
    for effect in effects {
        separate(text)?;
        write!(text, "\"{effect}\"")?;
    }
    text.push_str("]}")?;
    Ok(())
}

/// Appends what is queued.
fn write_queues(text: &mut String, world: &World, survey: &Survey) -> Result<(), NoMemory> {
    let Survey {
        source,
        destination,
        ..
    } = survey;
    text.push_str(",\"queues\":{")?;
    write_queue(text, "sread", source.reads.len(), &source.reads)?;
    write_queue(text, "sact", world.source_held(), &source.acts)?;
    write_queue(text, "serve", world.asked(), &survey.serves)?;
    write_queue(text, "dread", destination.reads.len(), &destination.reads)?;
    write_queue(text, "dact", destination.acts.len(), &destination.acts)?;
    write_queue(text, "install", world.arrivals(), &survey.installs)?;
    text.push('}')?;
    Ok(())
}

/// Appends the object of a page of the source, if the destination is owed it.
fn write_owed_page(
    text: &mut String,
    world: &World,
    survey: &Survey,
    origin: PageNo,
) -> Result<(), NoMemory> {
    let Some(home) = world.owed().home(origin) else {
        return Ok(());
    };
    let (page, from) = (page_address(home), page_address(origin));
    let place = place_of(world, survey, origin);
    let requested = world.requests().contains(&origin);
    separate(text)?;
    write!(text, "{{\"page\":\"0x{page:x}\",\"from\":\"0x{from:x}\",")?;
    write!(text, "\"copy\":\"{place}\",\"requested\":{requested}}}")?;
    Ok(())
}

/// Appends which pages are owed.
fn write_owed(
    alloc: Global,
    text: &mut String,
    world: &World,
    survey: &Survey,
) -> Result<(), NoMemory> {
    let left = world.owed_left();
    let requests = world.requests().len();
    write!(
        text,
        ",\"owed\":{{\"left\":{left},\"requests\":{requests},\"push\":"
    )?;
    write_addresses(text, world.remaining())?;
    text.push_str(",\"pages\":[")?;
    let origins = world.owed().origins(alloc)?;
    for origin in origins.iter() {
        write_owed_page(text, world, survey, origin)?;
    }
    text.push_str("]}")?;
    Ok(())
}

/// Appends whether the channel is lost, and which nodes have noticed it and have not continued.
fn write_channel(text: &mut String, world: &World) -> Result<(), NoMemory> {
    let (up, epoch) = (world.is_up(), world.epoch());
    write!(
        text,
        ",\"channel\":{{\"up\":{up},\"epoch\":{epoch},\"paused\":["
    )?;
    if matches!(world.source_phase(), SourcePhase::Paused) {
        text.push_str("\"source\"")?;
    }
    if matches!(world.destination_phase(), DestPhase::Paused) {
        separate(text)?;
        text.push_str("\"dest\"")?;
    }
    text.push_str("]}")?;
    Ok(())
}

/// Appends the commands that a package hands over.
fn write_commands(text: &mut String, commands: &[Option<Command>]) -> Result<(), NoMemory> {
    text.push('[')?;
    for (cpu, command) in commands.iter().enumerate() {
        if let Some(command) = *command {
            let command = with_command(cpu.min(255) as u8, command);
            separate(text)?;
            write!(text, "\"{command}\"")?;
        }
    }
    text.push(']')?;
    Ok(())
}

/// Appends the object of a frame, with what it lists.
fn write_frame_object(text: &mut String, epoch: u32, frame: &Frame) -> Result<(), NoMemory> {
    separate(text)?;
    write!(text, "{{\"epoch\":{epoch},\"frame\":\"")?;
    write_frame(text, frame)?;
    text.push('"')?;
    match frame {
        Frame::Discard { pages } | Frame::Recv { owed: pages, .. } => {
            text.push_str(",\"pages\":")?;
            write_addresses(text, pages)?;
        }
        Frame::Package { owed, commands, .. } => {
            text.push_str(",\"pages\":")?;
            write_addresses(text, owed)?;
            text.push_str(",\"commands\":")?;
            write_commands(text, commands.as_slice())?;
        }
        _ => {}
    }
    text.push('}')?;
    Ok(())
}

/// Appends what is on a wire.
fn write_wire(
    alloc: Global,
    text: &mut String,
    name: &str,
    wire: &Wire,
    bytes: u64,
) -> Result<(), NoMemory> {
    let arrived = wire.held();
    separate(text)?;
    write!(
        text,
        "\"{name}\":{{\"bytes\":{bytes},\"arrived\":{arrived},\"frames\":["
    )?;
    for (epoch, frame) in &frames_on(alloc, wire)? {
        write_frame_object(text, *epoch, frame)?;
    }
    text.push_str("]}")?;
    Ok(())
}

/// Appends what is on the wires.
fn write_wires(alloc: Global, text: &mut String, world: &World) -> Result<(), NoMemory> {
    write_channel(text, world)?;
    text.push_str(",\"wires\":{")?;
    write_wire(alloc, text, "wire", world.forward(), world.forward_bytes())?;
    write_wire(alloc, text, "back", world.back(), world.back_bytes())?;
    write_wire(alloc, text, "urgent", world.urgent(), world.urgent_bytes())?;
    text.push('}')?;
    Ok(())
}

/// Appends what only one of the nodes knows of a page.
fn write_of_node(
    text: &mut String,
    world: &World,
    node: Side,
    page: PageNo,
) -> Result<(), NoMemory> {
    if matches!(node, Side::Source) {
        if let Some(place) = place_in_source(world, page) {
            write!(text, ",\"is\":\"{place}\"")?;
        }
    } else if let Some(origin) = world.owed().origin(page) {
        let from = page_address(origin);
        write!(text, ",\"owed_from\":\"0x{from:x}\"")?;
    }
    Ok(())
}

/// Appends the words of a page that are not 0, by their addresses.
fn write_words(text: &mut String, words: &[(Addr, u64)]) -> Result<(), NoMemory> {
    text.push_str(",\"words\":{")?;
    for (addr, value) in words {
        separate(text)?;
        write!(text, "\"0x{addr:x}\":\"0x{value:x}\"")?;
    }
    text.push('}')?;
    Ok(())
}

/// Appends the object of a page that is mapped.
fn write_page(
    text: &mut String,
    world: &World,
    node: Side,
    page: PageNo,
    prot: Prot,
) -> Result<(), NoMemory> {
    let space = space_of(world, node);
    let (addr, prot, mode) = (page_address(page), word_of(prot), space.mode_at(page));
    separate(text)?;
    write!(text, "{{\"page\":\"0x{addr:x}\",\"protection\":\"{prot}\",")?;
    write!(text, "\"registered_missing\":{},", mode.missing)?;
    write!(text, "\"registered_write_protect\":{}", mode.protect)?;
    write_of_node(text, world, node, page)?;
    if let Some(bytes) = space.page(page) {
        let protected = space.is_protected(page);
        write!(text, ",\"write_protected\":{protected}")?;
        write_words(text, &words_of(*text.allocator(), page, bytes)?)?;
    }
    text.push('}')?;
    Ok(())
}

/// Appends the pages of a range that a node has mapped.
fn write_mapped(
    text: &mut String,
    world: &World,
    node: Side,
    mapped: &[(PageNo, Prot)],
) -> Result<(), NoMemory> {
    separate(text)?;
    write!(text, "\"{node}\":[")?;
    for (page, prot) in mapped {
        write_page(text, world, node, *page, *prot)?;
    }
    text.push(']')?;
    Ok(())
}

/// Appends the pages of a range that the nodes have mapped.
fn write_pages(
    alloc: Global,
    text: &mut String,
    world: &World,
    range: Option<Span>,
) -> Result<(), NoMemory> {
    text.push_str(",\"pages\":{")?;
    for node in [Side::Source, Side::Destination] {
        let mapped = mapped_pages(alloc, world, node, range)?;
        write_mapped(text, world, node, &mapped)?;
    }
    text.push('}')?;
    Ok(())
}

/// The members of the facts that are asked for, each after a comma.
fn members(alloc: Global, world: &World, asked: Asked) -> Result<String, NoMemory> {
    let mut text = String::new(alloc);
    let survey = Survey::of(alloc, world)?;
    let what = asked.what;
    if matches!(what, What::Cpus | What::All) {
        write_cpus(&mut text, world, &survey)?;
    }
    if matches!(what, What::Queues | What::All) {
        write_queues(&mut text, world, &survey)?;
    }
    if matches!(what, What::Owed | What::All) {
        write_owed(alloc, &mut text, world, &survey)?;
    }
    if matches!(what, What::Wires | What::All) {
        write_wires(alloc, &mut text, world)?;
    }
    if matches!(what, What::Pages | What::All) {
        write_pages(alloc, &mut text, world, asked.range)?;
    }
    Ok(text)
}

/// The facts of a world as [`show_json`](crate::show_json) writes them. At `NoMemory` there is no text.
pub(crate) fn object_of(alloc: Global, world: &World, asked: Asked) -> Result<String, NoMemory>
    ensures { IfOk result (λ text. IsObject world.now (string_bytes text)) }
{
    let members = members(alloc, world, asked)?;
    let mut text = String::new(alloc);
    write_progress(&mut text, progress(world))?;
    text.push_str(&members)?;
    text.push_str("}\n")?;
    Ok(text)
}
