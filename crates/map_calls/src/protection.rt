//! The calls mprotect and pkey_mprotect.

ghost use Rattle.std.specs.Prelude.{◌≡◌, ◌+◌, ◌<◌, ◌&&◌, not, is_none, false, OnErr, IfErr, IfSome};
ghost use Rattle.std.specs.Prelude.{IsSome};
ghost use Rattle.std.specs.List.{list_any};
ghost use Rattle.erim_defs.specs.declared.machine.Thread.{Thread};
ghost use Rattle.erim_defs.specs.Machine.MapCalls.{any_page, is_foreign, mprotect_result, protect};
ghost use Rattle.erim_defs.specs.Machine.MapCalls.{pkey_mprotect_result, range_of};
ghost use Rattle.erim_defs.specs.Machine.Pages.{asks_exec, with_value_at};
ghost use Rattle.erim_defs.specs.Machine.State.{State};
ghost use Rattle.map_calls.specs.Answers.{Sees, SayTheSame, map_answer};
ghost use Rattle.map_calls.specs.Guards.{pins};
ghost use Rattle.erim_defs.specs.Machine.MapCalls.{is_denied_key};
ghost use Rattle.map_calls.specs.Keys.{SeesKeys};
ghost use Rattle.map_calls.specs.Ranges.{anew, page_range, rights_within};
ghost use Rattle.erim_defs.specs.Machine.Access.{rights_in};

use crate::guards::{has_pin, is_protected};
use crate::named_key::named_key;
use crate::range::UserRange;
use crate::rights::asked_anew;
use crate::walk::next_in;
use erim_defs::linux::{EAGAIN, EINVAL, ENOMEM, EPERM, PROT_EXEC};
use erim_defs::{Keys, Thread, Trust};
use page_store::{Memory, Pages};

/// Does a caller ask for a domain that isn't open to it?
fn is_denied_key(trust: &Trust, pkru: u32, key: Option<u8>) -> bool
    requires { IfSome key (λ k. k < 16) }
    ensures { result ≡ is_denied_key trust.now pkru key }
{
    match key {
        Some(key) => trust.is_denied(pkru, key),
        None => false,
    }
}

/// Is a page of the range not mapped? It looks no further than the first that isn't.
fn has_unmapped<P: Pages>(pages: &P, range: &UserRange) -> bool
    ensures { result ≡ any_page (page_range range.now)
        (λ q. is_none (rights_in (P.seen pages.now) q)) }
{
    for page in range.first..range.end() {
        if pages.rights(page).is_none() {
            return true;
        }
    }
    false
}

/// Would a pinned page of the range lose PROT_EXEC?
fn loses_pin(threads: &[Thread], range: &UserRange, asked: u8) -> bool
    ensures { result ≡ (not (asks_exec asked) && list_any (pins (page_range range.now)) threads.now) }
{
    asked / PROT_EXEC % 2 == 0 && has_pin(threads, range)
}

/// Asks a mapped page anew, with another key where there is one.
fn ask_page<P: Pages>(pages: &mut P, page: u64, asked: u8, key: Option<u8>)
    requires asked { asked < 8 }
    requires key { IfSome key (λ k. k < 16) }
    requires mapped { IsSome (rights_in (P.seen pages.old) page) }
    ensures rights { rights_in (P.seen pages.new) ≡ with_value_at (rights_in (P.seen pages.old)) page
        (anew asked key (rights_in (P.seen pages.old) page)) }
    ensures bytes { P.bytes pages.new ≡ P.bytes pages.old }
    ensures frames { P.frames pages.new ≡ P.frames pages.old }
{
    if let Some(rights) = pages.rights(page) {
        pages.set_rights(page, asked_anew(&rights, asked, key.unwrap_or(rights.key)));
    }
}

/// Asks the mapped pages of a range anew.
fn ask_range<P: Pages>(pages: &mut P, range: &UserRange, asked: u8, key: Option<u8>)
    requires asked { asked < 8 }
    requires key { IfSome key (λ k. k < 16) }
    ensures rights { rights_in (P.seen pages.new) ≡ rights_within (rights_in (P.seen pages.old))
        range.now.first (range.now.first + range.now.count) (anew asked key) }
    ensures bytes { P.bytes pages.new ≡ P.bytes pages.old }
    ensures frames { P.frames pages.new ≡ P.frames pages.old }
{
    let mut from = range.first;
    while let Some(page) = next_in(pages, from, range.end()) {
        ask_page(pages, page, asked, key);
        from = page + 1;
    }
}

/// Protects a range with a key that isn't foreign, or with the keys that its pages have.
fn protect<P: Pages>(
    pages: &mut P,
    trust: &Trust,
    threads: &[Thread],
    pkru: u32,
    addr: u64,
    len: u64,
    asked: u8,
    key: Option<u8>,
) -> Result<u64, u16>
    requires asked { asked < 8 }
    requires key { IfSome key (λ k. k < 16) }
    ensures answer { (s : State) (t : Thread)
        → Sees P.Memory trust.now pages.old threads.now s → t.pkru ≡ pkru
        → is_foreign s key ≡ false
        → protect s t addr (range_of addr len) asked key ≡ map_answer P.Memory s t pages.new result }
    ensures kept { OnErr result (SayTheSame P.Memory pages.old pages.new) }
    ensures error { IfErr result (λ error. 0 < error) }
    ensures frames { P.frames pages.new ≡ P.frames pages.old }
{
    let range = UserRange::covering(addr, len)?;
    if is_protected(pages, trust, pkru, &range) {
        return Err(EPERM);
    }
    if is_denied_key(trust, pkru, key) {
        return Err(EPERM);
    }
    if has_unmapped(pages, &range) {
        return Err(ENOMEM);
    }
    if loses_pin(threads, &range, asked) {
        return Err(EAGAIN);
    }
    ask_range(pages, &range, asked, key);
    Ok(0)
}

/// mprotect(2): asks the pages from `addr` on that `len` covers anew. `Err` is the error number.
pub fn mprotect<P: Pages>(
    pages: &mut P,
    trust: &Trust,
    threads: &[Thread],
    pkru: u32,
    addr: u64,
    len: u64,
    prot: u64,
) -> Result<u64, u16>
    ensures answer { (s : State) (t : Thread)
        → Sees P.Memory trust.now pages.old threads.now s → t.pkru ≡ pkru
        → mprotect_result s t addr len prot ≡ map_answer P.Memory s t pages.new result }
    ensures kept { OnErr result (SayTheSame P.Memory pages.old pages.new) }
    ensures error { IfErr result (λ error. 0 < error) }
    ensures frames { P.frames pages.new ≡ P.frames pages.old }
{
    if prot > 7 {
        return Err(EINVAL);
    }
    protect(pages, trust, threads, pkru, addr, len, prot as u8, None)
}

/// pkey_mprotect(2): as mprotect(2), and the pages get the key that the low 32 bits of `key` name;
/// 0xFFFFFFFF leaves them theirs. `Err` is the error number.
pub fn pkey_mprotect<P: Pages>(
    pages: &mut P,
    trust: &Trust,
    threads: &[Thread],
    keys: &Keys,
    pkru: u32,
    addr: u64,
    len: u64,
    prot: u64,
    key: u64,
) -> Result<u64, u16>
    ensures answer { (s : State) (t : Thread)
        → Sees P.Memory trust.now pages.old threads.now s → SeesKeys keys.now s → t.pkru ≡ pkru
        → pkey_mprotect_result s t addr len prot key ≡ map_answer P.Memory s t pages.new result }
    ensures kept { OnErr result (SayTheSame P.Memory pages.old pages.new) }
    ensures error { IfErr result (λ error. 0 < error) }
    ensures frames { P.frames pages.new ≡ P.frames pages.old }
{
    if prot > 7 {
        return Err(EINVAL);
    }
    let named = named_key(keys, key)?;
    protect(pages, trust, threads, pkru, addr, len, prot as u8, named)
}
