//! How the map calls change the userfault object: they queue messages, and modes move with their pages.
//!
//! If no page of a call's ranges is registered, the object stays as it is. Whatever may fail comes first, and is undone if a later
//! part of the call runs out of memory. Only the modes of the pages that a range replaces are copied, to be restored then.

ghost use Rattle.std.specs.Prelude.{◌≡◌, ℕ, ◌+◌, ◌-◌, ◌*◌, ◌<◌, ◌≤◌, true, false, None, IfOk, OnOk, OnErr, length, take};
ghost use Rattle.std.specs.FinMap as map;
ghost use Rattle.std.specs.FinSet as set;
ghost use Rattle.mig_base.specs.Pages.{moved_range};
ghost use Rattle.mig_base.specs.Sets.{moved_set};
ghost use Rattle.mig_base.specs.declared.TheConstants.{HIGH_PAGE};
ghost use Rattle.mig_base.specs.Userfault.{Object, changing};
ghost use Rattle.mig_model.specs.Space.{message_if, remap_messages, all_queued};
ghost use Rattle.userfault.specs.Modes.{opened, IsOpen};
ghost use Rattle.uffd_ioctl.specs.Remaps.{IsRemap, HasProt, AreLow, room_first, room_count, modes_of, replaced_message, cut_message, moved_message, three_messages};

use crate::remap::{Remap, apply};
use area_map::AreaMap;
use mig_base::{Message, NoMemory, PAGE_SIZE, page_address};
use page_table::PageTable;
use userfault::Userfault;

/// Queues a message if it is due, and returns the number of messages queued, 0 or 1. `NoMemory` only if it is due; it changes nothing.
pub(crate) fn queue_if_due(
    object: &mut Userfault,
    is_due: bool,
    message: Message,
    cpu: u8,
) -> Result<u8, NoMemory>
    ensures object { OnOk result (object.new ≡
        all_queued object.old (message_if is_due message) cpu) }
    ensures count { IfOk result (λ count. count ≡ length (message_if is_due message)) }
    ensures due { OnErr result (is_due ≡ true) }
    ensures err { OnErr result (object.new ≡ object.old) }
{
    if !is_due {
        return Ok(0);
    }
    object.queue_event(message, cpu)?;
    Ok(1)
}

/// Queues a message if it is due, after the `queued` messages of its call, and returns how many there are now. `NoMemory`
/// removes those `queued` messages.
fn queue_more(
    object: &mut Userfault,
    queued: u8,
    is_due: bool,
    message: Message,
    cpu: u8,
) -> Result<u8, NoMemory>
    requires few { queued ≤ 2 }
    requires queued { queued ≤ changing object.old }
    ensures object { OnOk result (object.new ≡
        all_queued object.old (message_if is_due message) cpu) }
    ensures count { IfOk result (λ count. count ≡ queued + length (message_if is_due message)) }
    ensures err { OnErr result (object.new ≡
        record object.old { events = take (changing object.old - queued) object.old.events }) }
{
    let Ok(more) = queue_if_due(object, is_due, message, cpu) else {
        object.take_back_events(queued);
        return Err(NoMemory);
    };
    Ok(queued + more)
}

/// Makes mremap's change of the areas and pages, and of the object if a page of either range is registered. Returns the number of
/// messages queued. `NoMemory` changes nothing.
pub(crate) fn remapped(
    areas: &mut AreaMap,
    pages: &mut PageTable,
    object: &mut Userfault,
    range: Remap,
    cpu: u8,
) -> Result<u8, NoMemory>
    requires range { IsRemap range }
    requires prot { HasProt areas.old range.from range.count }
    requires protected { (page : ℕ) → HIGH_PAGE ≤ page →
        set.contains pages.old.protected page ≡ false }
    requires low { AreLow object.old }
    ensures areas { OnOk result (areas.new ≡
        moved_range areas.old range.from range.count range.to range.new_count
        (map.get areas.old range.from)) }
    ensures pages { OnOk result (pages.new.bytes ≡
        moved_range pages.old.bytes range.from range.count range.to range.new_count None) }
    ensures protected { OnOk result (pages.new.protected ≡
        moved_set pages.old.protected range.from range.count range.to range.new_count false) }
    ensures object { OnOk result (object.new ≡
        all_queued (modes_of object.old range)
        (remap_messages object.old (4096 * range.from) range.count (4096 * range.to)
        range.new_count) cpu) }
    ensures count { IfOk result (λ count.
        count ≡ length (remap_messages object.old (4096 * range.from) range.count (4096 * range.to)
        range.new_count)) }
    ensures err { OnErr result ((areas.new ≡ areas.old) × (pages.new ≡ pages.old) ×
        (object.new ≡ object.old)) }
{
    let is_watched = object.is_any_registered(range.from, range.count);
    if !is_watched && !object.is_any_registered(range.to, range.new_count) {
        apply(areas, pages, range)?;
        return Ok(0);
    }
    let queued = queue_remap(object, range, cpu)?;
    let room = range.room();
    let Ok(replaced) = object.open_range(room.first, room.count) else {
        object.take_back_events(queued);
        return Err(NoMemory);
    };
    let Ok(()) = apply(areas, pages, range) else {
        object.close_range(room.first, room.count, &replaced);
        object.take_back_events(queued);
        return Err(NoMemory);
    };
    move_modes(object, range);
    Ok(queued)
}

/// Moves the modes along with the pages, to the range that was opened for them. The pages by which the range grows get the mode of
/// its last page.
fn move_modes(object: &mut Userfault, range: Remap)
    requires range { IsRemap range }
    requires open { IsOpen object.old (room_first range) (room_count range) }
    ensures { (before : Object) → AreLow before →
        object.old ≡ opened before (room_first range) (room_count range) →
        object.new ≡ modes_of before range }
{
    let last = object.mode_at(range.from + (range.count - 1));
    let kept = range.count.min(range.new_count);
    if range.from != range.to {
        object.move_to_open(range.from, range.to, kept);
    }
    object.forget_range(range.from + kept, range.count - kept);
    object.limit_range(range.to + kept, range.new_count - kept, last);
}

/// Queues the messages of a remap, and returns their number. `NoMemory` changes nothing.
fn queue_remap(object: &mut Userfault, range: Remap, cpu: u8) -> Result<u8, NoMemory>
    requires { IsRemap range }
    ensures object { OnOk result (object.new ≡
        all_queued object.old (three_messages object.old range) cpu) }
    ensures count { IfOk result (λ count. count ≡ length (three_messages object.old range)) }
    ensures err { OnErr result (object.new ≡ object.old) }
{
    let (is_replaced, replaced) = replaced_if_due(object, range);
    let (is_cut, cut) = cut_if_due(object, range);
    let (is_moved, moved) = moved_if_due(object, range);
    let queued = queue_if_due(object, is_replaced, replaced, cpu)?;
    let queued = queue_more(object, queued, is_cut, cut, cpu)?;
    queue_more(object, queued, is_moved, moved, cpu)
}

/// The UNMAP of the pages that the moved range replaces, and whether it is due.
fn replaced_if_due(object: &Userfault, range: Remap) -> (bool, Message)
    requires { IsRemap range }
    ensures { message_if result.0 result.1 ≡ replaced_message object.now range }
{
    let is_due = range.to != range.from && object.is_any_registered(range.to, range.new_count);
    let message = Message::Unmap {
        start: page_address(range.to),
        end: page_address(range.to + range.new_count),
    };
    (is_due, message)
}

/// The UNMAP of the end that is cut off, and whether it is due.
fn cut_if_due(object: &Userfault, range: Remap) -> (bool, Message)
    requires { IsRemap range }
    ensures { message_if result.0 result.1 ≡ cut_message object.now range }
{
    let first = range.from + range.new_count;
    let is_due = range.new_count < range.count
        && object.is_any_registered(first, range.count - range.new_count);
    let message = Message::Unmap {
        start: page_address(first),
        end: page_address(range.from + range.count),
    };
    (is_due, message)
}

/// The REMAP of the pages that move, and whether it is due.
fn moved_if_due(object: &Userfault, range: Remap) -> (bool, Message)
    requires { IsRemap range }
    ensures { message_if result.0 result.1 ≡ moved_message object.now range }
{
    let kept = range.count.min(range.new_count);
    let is_due = range.to != range.from && object.is_any_registered(range.from, kept);
    let message = Message::Remap {
        from: page_address(range.from),
        to: page_address(range.to),
        len: u64::from(kept) * PAGE_SIZE,
    };
    (is_due, message)
}
