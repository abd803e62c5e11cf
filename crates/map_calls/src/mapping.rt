//! The call mmap.

ghost use Rattle.std.specs.Prelude.{◌≡◌, ◌+◌, ◌<◌, ◌≤◌, ◌^◌, OnErr, IfErr, None};
ghost use Rattle.erim_defs.specs.declared.machine.Thread.{Thread};
ghost use Rattle.erim_defs.specs.Machine.Count.{mapped_pages};
ghost use Rattle.erim_defs.specs.Machine.MapCalls.{mapped_in, mmap_anywhere, mmap_at, mmap_result};
ghost use Rattle.erim_defs.specs.Machine.MapCalls.{new_rights, range_of};
ghost use Rattle.erim_defs.specs.Machine.State.{State};
ghost use Rattle.map_calls.specs.Answers.{Sees, SayTheSame, map_answer};
ghost use Rattle.map_calls.specs.Ranges.{IsLowestFree, IsUnmapped, page_range, rights_within};
ghost use Rattle.map_calls.specs.Ranges.{zeros_within};
ghost use Rattle.erim_defs.specs.Machine.Access.{rights_in};

use crate::guards::{has_pin, is_protected};
use crate::range::UserRange;
use crate::unmapping::unmap_range;
use crate::walk::next_in;
use erim_defs::linux::{
    EAGAIN, EINVAL, ENOMEM, EPERM, LOWEST_FIXED, LOWEST_FREE_PAGE, MAP_ANYWHERE, MAP_AT,
};
use erim_defs::page::{PAGE_SIZE, PLAIN_KEY, USER_END_PAGE};
use erim_defs::{Rights, Thread, Trust};
use page_store::{Memory, Pages};

/// How many pages of a range are mapped.
fn mapped_in<P: Pages>(pages: &P, range: &UserRange) -> u64
    ensures count { result ≡ mapped_in (rights_in (P.seen pages.now)) (page_range range.now) }
    ensures low { result ≤ 2 ^ 35 }
{
    let mut count = 0;
    let mut from = range.first;
    while let Some(page) = next_in(pages, from, range.end()) {
        count += 1;
        from = page + 1;
    }
    count
}

/// Maps the pages of a range, of which none is mapped.
fn map_range<P: Pages>(pages: &mut P, range: &UserRange, asked: u8)
    requires asked { asked < 8 }
    requires unmapped { IsUnmapped (rights_in (P.seen pages.old)) (page_range range.now) }
    requires free { mapped_pages (rights_in (P.seen pages.old)) + range.now.count ≤ P.frames pages.old }
    ensures rights { rights_in (P.seen pages.new) ≡ rights_within (rights_in (P.seen pages.old))
        range.now.first (range.now.first + range.now.count) (λ _. new_rights asked) }
    ensures bytes { P.bytes pages.new ≡ zeros_within (P.bytes pages.old) range.now.first
        (range.now.first + range.now.count) }
    ensures frames { P.frames pages.new ≡ P.frames pages.old }
{
    for page in range.first..range.end() {
        pages.map_zero(page, Rights::unpublished_rights(asked, PLAIN_KEY));
    }
}

/// The lowest free pages, so many. `Err` is ENOMEM, where there are none.
fn lowest_free<P: Pages>(pages: &P, count: u64) -> Result<UserRange, u16>
    requires some { 0 < count }
    requires few { count ≤ 2 ^ 52 }
    ensures { IsLowestFree (rights_in (P.seen pages.now)) count result }
{
    let mut first = LOWEST_FREE_PAGE;
    while let Some(page) = next_in(pages, first, first + count) {
        first = page + 1;
    }
    if first + count > USER_END_PAGE {
        return Err(ENOMEM);
    }
    Ok(UserRange { first, count })
}

/// Maps a range of pages anew, at an address that is given.
fn map_at<P: Pages>(
    pages: &mut P,
    trust: &Trust,
    threads: &[Thread],
    pkru: u32,
    addr: u64,
    len: u64,
    asked: u8,
) -> Result<u64, u16>
    requires { asked < 8 }
    ensures answer { (s : State) (t : Thread)
        → Sees P.Memory trust.now pages.old threads.now s → t.pkru ≡ pkru
        → mmap_at s t addr (range_of addr len) asked ≡ map_answer P.Memory s t pages.new result }
    ensures kept { OnErr result (SayTheSame P.Memory pages.old pages.new) }
    ensures error { IfErr result (λ error. 0 < error) }
    ensures frames { P.frames pages.new ≡ P.frames pages.old }
{
    if addr < LOWEST_FIXED {
        return Err(EINVAL);
    }
    let range = UserRange::covering(addr, len)?;
    if is_protected(pages, trust, pkru, &range) {
        return Err(EPERM);
    }
    // Each mapped page of the range gives its frame back.
    let room = mapped_in(pages, &range) + u64::from(pages.free_frames());
    if room < range.count {
        return Err(ENOMEM);
    }
    if has_pin(threads, &range) {
        return Err(EAGAIN);
    }
    unmap_range(pages, &range);
    map_range(pages, &range, asked);
    Ok(addr)
}

/// Maps a given number of pages where the lowest are free.
fn map_anywhere<P: Pages>(pages: &mut P, count: u64, asked: u8) -> Result<u64, u16>
    requires asked { asked < 8 }
    requires some { 0 < count }
    requires few { count ≤ 2 ^ 52 }
    ensures answer { (s : State) (t : Thread) → s.rights ≡ rights_in (P.seen pages.old)
        → s.bytes ≡ P.bytes pages.old → s.setup.frames ≡ P.frames pages.old
        → mmap_anywhere s t count asked ≡ map_answer P.Memory s t pages.new result }
    ensures kept { OnErr result (SayTheSame P.Memory pages.old pages.new) }
    ensures error { IfErr result (λ error. 0 < error) }
    ensures frames { P.frames pages.new ≡ P.frames pages.old }
{
    if u64::from(pages.free_frames()) < count {
        return Err(ENOMEM);
    }
    let range = lowest_free(pages, count)?;
    map_range(pages, &range, asked);
    Ok(PAGE_SIZE * range.first)
}

/// mmap(2): maps the pages that `len` covers, zeros that no other process sees: with MAP_FIXED from
/// `addr` on, else the lowest that are free. `Err` is the error number.
pub fn mmap<P: Pages>(
    pages: &mut P,
    trust: &Trust,
    threads: &[Thread],
    pkru: u32,
    addr: u64,
    len: u64,
    prot: u64,
    flags: u64,
) -> Result<u64, u16>
    ensures answer { (s : State) (t : Thread)
        → Sees P.Memory trust.now pages.old threads.now s → t.pkru ≡ pkru
        → mmap_result s t addr len prot flags ≡ map_answer P.Memory s t pages.new result }
    ensures kept { OnErr result (SayTheSame P.Memory pages.old pages.new) }
    ensures error { IfErr result (λ error. 0 < error) }
    ensures frames { P.frames pages.new ≡ P.frames pages.old }
{
    if len == 0 || prot > 7 {
        return Err(EINVAL);
    }
    match flags {
        MAP_AT => map_at(pages, trust, threads, pkru, addr, len, prot as u8),
        MAP_ANYWHERE => map_anywhere(pages, len.div_ceil(PAGE_SIZE), prot as u8),
        _ => Err(EINVAL),
    }
}
