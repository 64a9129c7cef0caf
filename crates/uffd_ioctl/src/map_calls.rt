//! What the map calls answer. It depends on the areas of a host alone, not on the bytes of its pages.

ghost use Rattle.std.specs.Prelude.{◌≡◌, ℕ, ◌+◌, ◌%◌, ◌<◌, ◌≤◌, ◌∷◌, Bool, true, false, nat_lt, nat_le, [], ◌==◌, Some, None, IfNone, IsTrue, ◌↔◌};
ghost use Rattle.foundation.specs.Ranges.{pages_of, rounded};
ghost use Rattle.mig_base.specs.Flat as flat;
ghost use Rattle.mig_base.specs.declared.command.Errno.TheVariants.{Einval};
ghost use Rattle.mig_base.specs.declared.command.Command.TheVariants.{Mmap, Mremap, DontNeed};
ghost use Rattle.uffd_ioctl.specs.MapCalls.{OfMemory, Replies, reply_at, unless_refused};

use area_map::AreaMap;
use mig_base::{
    Addr, Errno, HIGH, HIGH_PAGE, LOW, LOW_PAGE, MAX_PAGES, PAGE_SIZE, PageNo, Place, Prot, Reply,
};

/// The number of pages that `len` bytes take, rounded up.
pub(crate) fn page_count(len: u64) -> u64
    ensures { result ≡ pages_of len }
{
    len.div_ceil(PAGE_SIZE)
}

/// Whether a range of `len` bytes that begins with a page ends inside the address space.
fn ends_inside(addr: Addr, len: u64) -> bool
    requires { addr % 4096 ≡ 0 }
    ensures { result ≡ nat_le (addr + rounded len) HIGH }
{
    addr / PAGE_SIZE + page_count(len) <= u64::from(HIGH_PAGE)
}

/// Where mmap puts `len` bytes, or the error that it returns.
pub(crate) fn mmap_place(areas: &AreaMap, len: u64, place: Place) -> Result<Addr, Errno>
    ensures { (prot : Prot) → Replies areas.now (reply_at result) (Mmap len prot place) }
{
    match place {
        Place::Anywhere => free_place(areas, len),
        Place::Fixed(addr) => fixed_place(areas, addr, len),
        Place::NoReplace(addr) => unmapped_place(areas, addr, len),
    }
}

/// The lowest free place.
fn free_place(areas: &AreaMap, len: u64) -> Result<Addr, Errno>
    ensures { (prot : Prot) → Replies areas.now (reply_at result) (Mmap len prot Place.Anywhere) }
{
    if len == 0 {
        return Err(Errno::Einval);
    }
    let count = page_count(len);
    if count > u64::from(HIGH_PAGE - LOW_PAGE) {
        return Err(Errno::Enomem);
    }
    if u64::from(areas.mapped_pages()) + count > u64::from(MAX_PAGES) {
        return Err(Errno::Enomem);
    }
    match areas.gap(count * PAGE_SIZE) {
        Some(start) => Ok(start),
        None => Err(Errno::Enomem),
    }
}

/// The address itself: what is mapped there is replaced.
fn fixed_place(areas: &AreaMap, addr: Addr, len: u64) -> Result<Addr, Errno>
    ensures { (prot : Prot) →
        Replies areas.now (reply_at result) (Mmap len prot (Place.Fixed addr)) }
{
    if let Some(errno) = place_refusal(addr, len) {
        return Err(errno);
    }
    let count = page_count(len);
    let replaced = areas.mapped_in((addr / PAGE_SIZE) as PageNo, count as u32);
    if u64::from(areas.mapped_pages()) + count > u64::from(MAX_PAGES) + u64::from(replaced) {
        return Err(Errno::Enomem);
    }
    Ok(addr)
}

/// The address itself, if nothing is mapped there.
fn unmapped_place(areas: &AreaMap, addr: Addr, len: u64) -> Result<Addr, Errno>
    ensures { (prot : Prot) →
        Replies areas.now (reply_at result) (Mmap len prot (Place.NoReplace addr)) }
{
    if let Some(errno) = place_refusal(addr, len) {
        return Err(errno);
    }
    let count = page_count(len) as u32;
    if areas.mapped_in((addr / PAGE_SIZE) as PageNo, count) != 0 {
        return Err(Errno::Eexist);
    }
    fixed_place(areas, addr, len)
}

/// The error for a requested place that does not depend on what is mapped.
fn place_refusal(addr: Addr, len: u64) -> Option<Errno>
    ensures inside { IfNone result ((addr % 4096 ≡ 0) × (LOW ≤ addr) ×
        (addr + rounded len ≤ HIGH)) }
    ensures refusal { (answer : Reply) →
        unless_refused result answer ≡
        flat.first_refusal ((len == 0, Einval) ∷ flat.place_refusals addr (rounded len)) answer }
{
    if len == 0 || addr % PAGE_SIZE != 0 {
        return Some(Errno::Einval);
    }
    if page_count(len) > u64::from(HIGH_PAGE - LOW_PAGE) {
        return Some(Errno::Enomem);
    }
    if addr < LOW {
        return Some(Errno::Eperm);
    }
    if !ends_inside(addr, len) {
        return Some(Errno::Enomem);
    }
    None
}

/// What madvise answers to MADV_DONTNEED.
pub(crate) fn dontneed_reply(areas: &AreaMap, addr: Addr, len: u64) -> Reply
    ensures { Replies areas.now result (DontNeed addr len) }
{
    if addr % PAGE_SIZE != 0 {
        return Reply::Refused(Errno::Einval);
    }
    if len == 0 {
        return Reply::Done;
    }
    if addr / PAGE_SIZE + page_count(len) > u64::MAX / PAGE_SIZE {
        return Reply::Refused(Errno::Einval);
    }
    if is_all_mapped(areas, addr, len) {
        Reply::Done
    } else {
        Reply::Refused(Errno::Enomem)
    }
}

/// Whether a reply says that the arguments are wrong.
pub(crate) fn is_invalid(reply: Reply) -> bool
    ensures { IsTrue result ↔ (reply ≡ Reply.Refused Einval) }
{
    reply == Reply::Refused(Errno::Einval)
}

/// Whether each page of the range is mapped.
fn is_all_mapped(areas: &AreaMap, addr: Addr, len: u64) -> bool
    requires whole { addr % 4096 ≡ 0 }
    requires some { 0 < len }
    ensures { OfMemory areas.now (λ memory. result ≡ flat.is_all_mapped memory addr (rounded len)) }
{
    if !ends_inside(addr, len) {
        return false;
    }
    let count = page_count(len) as u32;
    areas.mapped_in((addr / PAGE_SIZE) as PageNo, count) == count
}

/// Where mremap puts a range, or the error that it returns.
pub(crate) fn mremap_place(
    areas: &AreaMap,
    addr: Addr,
    old_len: u64,
    new_len: u64,
    may_move: bool,
    fixed: Option<Addr>,
) -> Result<Addr, Errno>
    ensures { Replies areas.now (reply_at result) (Mremap addr old_len new_len may_move fixed) }
{
    if addr % PAGE_SIZE != 0 || old_len == 0 || new_len == 0 {
        return Err(Errno::Einval);
    }
    if is_bad_target(addr, old_len, new_len, may_move, fixed) {
        return Err(Errno::Einval);
    }
    if !has_one_prot(areas, addr, old_len) {
        return Err(Errno::Efault);
    }
    match fixed {
        None => resized_place(areas, addr, old_len, new_len, may_move),
        Some(target) => moved_place(areas, addr, old_len, new_len, target),
    }
}

/// Whether a fixed target is wrong: the range may not move, or the target does not begin with a page, leaves the address space, or
/// overlaps the range.
fn is_bad_target(
    addr: Addr,
    old_len: u64,
    new_len: u64,
    may_move: bool,
    fixed: Option<Addr>,
) -> bool
    requires { addr % 4096 ≡ 0 }
    ensures { result ≡ flat.is_bad_target addr (rounded old_len) (rounded new_len) may_move fixed }
{
    let Some(target) = fixed else {
        return false;
    };
    if !may_move || target % PAGE_SIZE != 0 || target < LOW || !ends_inside(target, new_len) {
        return true;
    }
    begins_before_end(target, addr, old_len) && begins_before_end(addr, target, new_len)
}

/// Whether `start` lies before the end of the range of `len` bytes from `other`. Both begin with a page.
fn begins_before_end(start: Addr, other: Addr, len: u64) -> bool
    requires start { start % 4096 ≡ 0 }
    requires other { other % 4096 ≡ 0 }
    ensures { result ≡ nat_lt start (other + rounded len) }
{
    start / PAGE_SIZE < other / PAGE_SIZE + page_count(len)
}

/// Whether the whole range is mapped with one protection.
fn has_one_prot(areas: &AreaMap, addr: Addr, len: u64) -> bool
    requires whole { addr % 4096 ≡ 0 }
    requires some { 0 < len }
    ensures inside { result ≡ true → addr + rounded len ≤ HIGH }
    ensures one { OfMemory areas.now (λ memory.
        result ≡ flat.has_one_prot memory addr (rounded len)) }
{
    if !ends_inside(addr, len) {
        return false;
    }
    let count = page_count(len) as u32;
    areas
        .one_prot((addr / PAGE_SIZE) as PageNo, count)
        .is_some()
}

/// The place of a range without a fixed target: it stays if it has room there, else it moves if it may.
fn resized_place(
    areas: &AreaMap,
    addr: Addr,
    old_len: u64,
    new_len: u64,
    may_move: bool,
) -> Result<Addr, Errno>
    requires whole { addr % 4096 ≡ 0 }
    requires some { 0 < old_len }
    requires inside { addr + rounded old_len ≤ HIGH }
    ensures { OfMemory areas.now (λ memory. flat.has_one_prot memory addr (rounded old_len) ≡ true →
        reply_at result ≡
        flat.mremap_target memory addr (rounded old_len) (rounded new_len) may_move None) }
{
    let count = page_count(old_len);
    let new_count = page_count(new_len);
    if u64::from(areas.mapped_pages()) + new_count > u64::from(MAX_PAGES) + count {
        return Err(Errno::Enomem);
    }
    if new_count <= count || can_grow(areas, addr, old_len, new_len) {
        return Ok(addr);
    }
    if !may_move {
        return Err(Errno::Enomem);
    }
    match areas.gap(new_count * PAGE_SIZE) {
        Some(start) => Ok(start),
        None => Err(Errno::Enomem),
    }
}

/// Whether a range can grow in place.
fn can_grow(areas: &AreaMap, addr: Addr, old_len: u64, new_len: u64) -> bool
    requires whole { addr % 4096 ≡ 0 }
    requires longer { pages_of old_len < pages_of new_len }
    ensures { OfMemory areas.now (λ memory.
        result ≡ flat.can_grow memory addr (rounded old_len) (rounded new_len)) }
{
    if !ends_inside(addr, new_len) {
        return false;
    }
    let count = page_count(old_len);
    let added = page_count(new_len) - count;
    areas.mapped_in((addr / PAGE_SIZE + count) as PageNo, added as u32) == 0
}

/// The fixed target: what is mapped there is replaced.
fn moved_place(
    areas: &AreaMap,
    addr: Addr,
    old_len: u64,
    new_len: u64,
    target: Addr,
) -> Result<Addr, Errno>
    requires whole { addr % 4096 ≡ 0 }
    requires some { 0 < old_len }
    requires target { flat.is_bad_target addr (rounded old_len) (rounded new_len) true (Some target)
        ≡ false }
    ensures { OfMemory areas.now (λ memory. flat.has_one_prot memory addr (rounded old_len) ≡ true →
        (may_move : Bool) →
        reply_at result ≡
        flat.mremap_target memory addr (rounded old_len) (rounded new_len) may_move (Some target)) }
{
    let new_count = page_count(new_len);
    let replaced = areas.mapped_in((target / PAGE_SIZE) as PageNo, new_count as u32);
    let limit = u64::from(MAX_PAGES) + page_count(old_len) + u64::from(replaced);
    if u64::from(areas.mapped_pages()) + new_count > limit {
        return Err(Errno::Enomem);
    }
    Ok(target)
}
