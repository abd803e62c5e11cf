//! Pages in a vector.

ghost use Rattle.std.specs.Prelude.{refl, ◌≡◌, ◌≢◌, length, ℕ, ◌+◌, ◌/◌, ◌%◌, ◌<◌, ◌≤◌, ◌^◌, Some};
ghost use Rattle.std.specs.Prelude.{None, true, IfOk, MatchOption, vec_len, vec_capacity};
ghost use Rattle.std.specs.Prelude.{slice_index_or};
ghost use Rattle.erim_defs.specs.Machine.Pages.{published_code, with_value_at, word, with_number};
ghost use Rattle.erim_defs.specs.Machine.Access.{whole, stop, stop_at, stop_on};
ghost use Rattle.page_store.specs.declared.page_list.Page.{Page};
ghost use Rattle.page_store.specs.Answers.{HasBytes, Fetches, IsWidth, fetch_of, load_of};
ghost use Rattle.page_store.specs.Answers.{bytes_after_store, or_stop};
ghost use Rattle.page_store.specs.Listed.{is_listed, list_rights, list_bytes, nearer};
ghost use Rattle.page_store.specs.Listed.{IsPlaceOf, StandsAt};

use crate::copy::PageCopy;
use crate::memory::{Memory, Pages};
use erim_defs::page::USER_END;
use erim_defs::{Access, Cause, NoMemory, Rights};
use std::alloc::Global;
use thread_state::{may_read, may_write};

/// A mapped page.
#[derive(Drop)]
struct Page {
    number: u64,
    rights: Rights,
    bytes: [u8; 4096],
}

/// Pages in a vector. A page is looked for first where one was found last, by a fetch and by an
/// access, and then from the front.
#[derive(Drop)]
pub struct PageList {
    pages: Vec<Page>,
    frames: u32,
    fetch_place: usize,
    access_place: usize,
    ghost listed: { is_listed pages.items ≡ true },
    ghost room: { vec_len pages ≤ frames },
    ghost capacity: { frames ≤ vec_capacity pages },
    ghost few: { frames ≤ 8192 },
}

impl PageList {
    /// A list with no page mapped and room for so many. It takes all its memory here.
    pub fn new(alloc: Global, frames: u32) -> Result<PageList, NoMemory>
        requires { frames ≤ 8192 }
        ensures seen { IfOk result (λ list. ⟦<PageList as Memory>⟧.seen list ≡ whole (λ _. None)) }
        ensures bytes { IfOk result (λ list. ⟦<PageList as Memory>⟧.bytes list ≡ (λ _. 0)) }
        ensures frames { IfOk result (λ list. ⟦<PageList as Memory>⟧.frames list ≡ frames) }
    {
        let pages = Vec::with_capacity(alloc, frames as usize)?;
        Ok(PageList {
            pages,
            frames,
            fetch_place: 0,
            access_place: 0,
        })
    }

    // Does a page stand at a place?
    fn is_at(&self, i: usize, page: u64) -> bool
        ensures { result ≡ true → StandsAt self.now.pages.items page i }
    {
        i < self.pages.len() && self.pages[i].number == page
    }

    // The place of a page, looked for from the front.
    fn scan(&self, page: u64) -> Option<usize>
        ensures { IsPlaceOf self.now.pages.items page result }
    {
        for (i, held) in self.pages.iter().enumerate() {
            if held.number == page {
                return Some(i);
            }
        }
        None
    }

    // The place of a page.
    fn find(&self, page: u64) -> Option<usize>
        ensures { IsPlaceOf self.now.pages.items page result }
    {
        if self.is_at(self.fetch_place, page) {
            Some(self.fetch_place)
        } else if self.is_at(self.access_place, page) {
            Some(self.access_place)
        } else {
            self.scan(page)
        }
    }

    // Remembers where the page of an address stands, for fetches to come.
    fn remember_fetch(&mut self, addr: u64)
        ensures pages { self.new.pages ≡ self.old.pages }
        ensures frames { self.new.frames ≡ self.old.frames }
    {
        if let Some(i) = self.find(addr / 4096) {
            self.fetch_place = i;
        }
    }

    // Remembers where the page of an address stands, for accesses to come.
    fn remember_access(&mut self, addr: u64)
        ensures pages { self.new.pages ≡ self.old.pages }
        ensures frames { self.new.frames ≡ self.old.frames }
    {
        if let Some(i) = self.find(addr / 4096) {
            self.access_place = i;
        }
    }

    // Why an access to one byte stops.
    fn stop_at(&self, write: bool, pkru: u32, addr: u64) -> Option<Access>
        ensures { result ≡ stop_at (whole (list_rights self.now.pages.items)) write pkru addr }
    {
        if addr >= USER_END {
            return Some(Access::Fault {
                cause: Cause::Unmapped,
                addr,
            });
        }
        match self.find(addr / 4096) {
            None => Some(Access::Fault {
                cause: Cause::Unmapped,
                addr,
            }),
            Some(i) => rights_stop(&self.pages[i].rights, write, pkru, addr),
        }
    }

    // Why an access stops, by its first byte that does.
    #[tactic(auto, using(crate::proofs::MapLemmas::stop_more, crate::proofs::MapLemmas::stop_none))]
    fn stop(&self, write: bool, pkru: u32, addr: u64, n: u8) -> Option<Access>
        ensures { result ≡ stop (whole (list_rights self.now.pages.items)) write pkru addr n }
    {
        let mut at = addr;
        let mut left = n;
        while left > 0 {
            if let Some(access) = self.stop_at(write, pkru, at) {
                return Some(access);
            }
            at += 1;
            left -= 1;
        }
        None
    }

    // The byte at an address.
    fn byte(&self, addr: u64) -> u8
        ensures { result ≡ list_bytes self.now.pages.items addr }
    {
        match self.find(addr / 4096) {
            None => 0,
            Some(i) => self.pages[i].bytes[(addr % 4096) as usize],
        }
    }

    // The published byte at an address.
    fn code_byte(&self, addr: u64) -> Option<u8>
        ensures { result ≡ published_code (list_rights self.now.pages.items)
            (list_bytes self.now.pages.items) addr }
    {
        match self.find(addr / 4096) {
            Some(i) if self.pages[i].rights.exec => {
                Some(self.pages[i].bytes[(addr % 4096) as usize])
            }
            _ => None,
        }
    }

    // The number in `n` bytes, taken from the highest byte down.
    #[tactic(auto, using(crate::proofs::MapLemmas::word_more, crate::proofs::MapLemmas::word_none))]
    fn number(&self, addr: u64, n: u8) -> u64
        requires width { n ≤ 8 }
        requires low { addr < 2 ^ 47 }
        ensures value { result ≡ word (list_bytes self.now.pages.items) addr n }
        ensures bytes { HasBytes (list_bytes self.now.pages.items) addr n result }
    {
        let mut value = 0;
        let mut done = 0;
        while done < n {
            done += 1;
            value = 256 * value + self.byte(addr + (n - done) as u64) as u64;
        }
        value
    }

    // Writes the byte at an address of a mapped page.
    fn set_byte(&mut self, addr: u64, value: u8)
        requires { list_rights self.old.pages.items (addr / 4096) ≢ None }
        ensures bytes { list_bytes self.new.pages.items
            ≡ with_value_at (list_bytes self.old.pages.items) addr value }
        ensures rights { list_rights self.new.pages.items ≡ list_rights self.old.pages.items }
        ensures frames { self.new.frames ≡ self.old.frames }
    {
        if let Some(i) = self.find(addr / 4096) {
            self.pages[i].bytes[(addr % 4096) as usize] = value;
        }
    }

    // Writes the low `n` bytes of a number to mapped pages.
    #[tactic(auto, using(crate::proofs::MapLemmas::stored_more, crate::proofs::MapLemmas::stored_none))]
    fn set_number(&mut self, addr: u64, n: u8, value: u64)
        requires low { addr < 2 ^ 47 }
        requires mapped { (k : ℕ) → k < n
            → list_rights self.old.pages.items ((addr + k) / 4096) ≢ None }
        ensures bytes { list_bytes self.new.pages.items
            ≡ with_number (list_bytes self.old.pages.items) addr n value }
        ensures rights { list_rights self.new.pages.items ≡ list_rights self.old.pages.items }
        ensures frames { self.new.frames ≡ self.old.frames }
    {
        let mut at = addr;
        let mut left = n;
        let mut rest = value;
        while left > 0 {
            self.set_byte(at, (rest % 256) as u8);
            rest /= 256;
            at += 1;
            left -= 1;
        }
    }

    // Writes the published bytes from an address on, at most 15.
    fn code(&self, addr: u64, into: &mut [u8; 15]) -> u8
        ensures { Fetches (fetch_of (whole (list_rights self.now.pages.items))
            (list_bytes self.now.pages.items) addr 15) (Ok result) into.new }
    {
        let mut count = 0;
        if addr < USER_END {
            while count < 15 {
                match self.code_byte(addr + count as u64) {
                    Some(byte) => into[count as usize] = byte,
                    None => return count,
                }
                count += 1;
            }
        }
        count
    }

    // The number in `n` bytes that may be read.
    fn read(&self, pkru: u32, addr: u64, n: u8) -> Result<u64, Access>
        requires width { IsWidth n }
        ensures answer { result ≡ load_of (whole (list_rights self.now.pages.items))
            (list_bytes self.now.pages.items) pkru addr n }
        ensures low { IfOk result (HasBytes (list_bytes self.now.pages.items) addr n) }
    {
        match self.stop(false, pkru, addr, n) {
            Some(access) => Err(access),
            None => Ok(self.number(addr, n)),
        }
    }

    // Writes the low `n` bytes of a number to bytes that may be written.
    fn write(&mut self, pkru: u32, addr: u64, n: u8, value: u64) -> Result<(), Access>
        requires width { IsWidth n }
        ensures answer { result ≡ or_stop (stop (whole (list_rights self.old.pages.items)) true pkru
            addr n) tt }
        ensures bytes { list_bytes self.new.pages.items
            ≡ bytes_after_store (whole (list_rights self.old.pages.items))
            (list_bytes self.old.pages.items) pkru addr n value }
        ensures rights { list_rights self.new.pages.items ≡ list_rights self.old.pages.items }
        ensures frames { self.new.frames ≡ self.old.frames }
    {
        match self.stop(true, pkru, addr, n) {
            Some(access) => Err(access),
            None => {
                self.set_number(addr, n, value);
                Ok(())
            }
        }
    }
}

// Why a byte of a page with these rights may not be read or written.
fn rights_stop(rights: &Rights, write: bool, pkru: u32, addr: u64) -> Option<Access>
    requires { rights.now.key < 16 }
    ensures { result ≡ stop_on rights.now write pkru addr }
{
    let (allowed, right, cause) = if write {
        (may_write(pkru, rights), rights.write, Cause::Write)
    } else {
        (may_read(pkru, rights), rights.read, Cause::Read)
    };
    if allowed {
        None
    } else if right {
        Some(Access::Fault {
            cause: Cause::Key,
            addr,
        })
    } else {
        Some(Access::Fault { cause, addr })
    }
}

// The lesser of the numbers found so far and one more, if that is at least `from`.
fn nearer(number: u64, from: u64, least: Option<u64>) -> Option<u64>
    ensures { result ≡ nearer number from least }
{
    if number < from {
        return least;
    }
    match least {
        None => Some(number),
        Some(found) => Some(found.min(number)),
    }
}

impl Memory for PageList {
    ghost use Rattle.page_store.specs.ListLaws.{list_rights_high};

    ghost seen = { λ s. whole (list_rights s.pages.items) };

    ghost bytes = { λ s. list_bytes s.pages.items };

    ghost frames = { λ s. s.frames };

    ghost spare = { λ _. 16 };

    ghost notes = { λ _ _. true };

    ghost first = { λ _ _. 0 };

    ghost low = { λ s q l. list_rights_high s.pages.items q s.listed l };

    #[tactic(auto, using(crate::proofs::NoteLemmas::no_notes))]
    fn fetch(&mut self, addr: u64, into: &mut [u8; 15]) -> Result<u8, u64> {
        self.remember_fetch(addr);
        Ok(self.code(addr, into))
    }

    #[tactic(auto, using(crate::proofs::NoteLemmas::no_notes))]
    fn load(&mut self, pkru: u32, addr: u64, n: u8) -> Result<u64, Access> {
        self.remember_access(addr);
        self.read(pkru, addr, n)
    }

    #[tactic(auto, using(crate::proofs::NoteLemmas::no_notes))]
    fn store(&mut self, pkru: u32, addr: u64, n: u8, value: u64) -> Result<(), Access> {
        self.remember_access(addr);
        self.write(pkru, addr, n, value)
    }
}

impl Pages for PageList {
    ghost use Rattle.page_store.specs.ListLaws.{list_zeros, list_sound};

    ghost holds_all = { λ s. refl };

    ghost zeros = { λ s a n. list_zeros s.pages.items a n };

    ghost sound = { λ s q r h. list_sound s.pages.items q r s.listed h };

    ghost roomy = { λ s. refl };

    ghost noted = { λ s a. refl };

    ghost few = { λ s. s.few };

    fn rights(&self, page: u64) -> Option<Rights> {
        match self.find(page) {
            None => None,
            Some(i) => Some(self.pages[i].rights),
        }
    }

    fn set_rights(&mut self, page: u64, rights: Rights) {
        if let Some(i) = self.find(page) {
            self.pages[i].rights = rights;
        }
    }

    fn map_zero(&mut self, page: u64, rights: Rights) {
        // There is room: `new` took it.
        let _ = self.pages.push(Page {
            number: page,
            rights,
            bytes: [0; 4096],
        });
    }

    fn unmap(&mut self, page: u64) {
        if let Some(i) = self.find(page) {
            let _ = self.pages.swap_remove(i);
        }
    }

    fn free_frames(&self) -> u32 {
        self.frames - self.pages.len() as u32
    }

    fn next_page(&self, from: u64) -> Option<u64> {
        let mut least = None;
        for page in &self.pages {
            least = nearer(page.number, from, least);
        }
        least
    }

    fn copy_page(&self, page: u64, into: &mut PageCopy) {
        into.page = page;
        match self.find(page) {
            None => {
                into.rights = None;
                into.bytes = [0; 4096];
            }
            Some(i) => {
                let from = &self.pages[i];
                into.rights = Some(from.rights);
                into.bytes = from.bytes;
            }
        }
    }

    fn word(&self, addr: u64) -> u64 {
        self.number(addr, 8)
    }
}
