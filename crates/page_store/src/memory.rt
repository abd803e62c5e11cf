//! What an instruction sees, and the pages of a process.

ghost use Rattle.std.specs.Prelude.{◌≡◌, ℕ, slice_index, ◌/◌, ◌%◌, ◌*◌, ◌+◌, ◌<◌, ◌≤◌, ◌^◌, true};
ghost use Rattle.std.specs.Prelude.{false, Some, None, IsSome, IfSome, IfOk, OnErr, length};
ghost use Rattle.erim_defs.specs.declared.machine.Rights.{Rights};
ghost use Rattle.erim_defs.specs.Machine.Pages.{ByteMap, with_value_at, word, with_zero_page};
ghost use Rattle.erim_defs.specs.Machine.Pages.{IsSound};
ghost use Rattle.erim_defs.specs.Machine.Access.{Seen, stop, whole};
ghost use Rattle.erim_defs.specs.Machine.Count.{mapped_pages};
ghost use Rattle.erim_defs.specs.Machine.Access.{rights_in};
ghost use Rattle.page_store.specs.Answers.{or_stop, load_of, bytes_after_store};
ghost use Rattle.page_store.specs.Answers.{fetch_of, Fetches, IsWidth, IsNextPage, HasBytes};
ghost use Rattle.page_store.specs.Notes.{NoteMap, Notes, looked_access, looked_fetch};

use crate::copy::PageCopy;
use erim_defs::{Access, Rights};

/// What an instruction sees: every page of a process, or some of them. Addresses from 2^47 on are
/// no user addresses. Page `q` has the 4096 bytes from `4096 * q` on.
pub trait Memory {
    /// The pages that it holds: which of them are mapped, and their rights.
    ghost seen: { Self → Seen };

    /// The byte at each address.
    ghost bytes: { Self → ByteMap };

    /// How many pages may be mapped.
    ghost frames: { Self → ℕ };

    /// For how many notes there is room.
    ghost spare: { Self → ℕ };

    /// The addresses that are noted as looked at. A memory that keeps no notes has all of them from
    /// the start.
    ghost notes: { Self → NoteMap };

    /// The byte at each noted address as it was when the notes began. Of a memory that keeps no
    /// notes it says nothing.
    ghost first: { Self → ByteMap };

    /// Writes the published bytes from `addr` on, up to the first absent one and at most 15, and
    /// answers how many there are. `Err` names the page that isn't held, if one is reached before
    /// that; then nothing is written.
    fn fetch(&mut self, addr: u64, into: &mut [u8; 15]) -> Result<u8, u64>
        requires spare { 2 ≤ spare self.old }
        ensures answer { Fetches (fetch_of (seen self.old) (bytes self.old) addr 15) result
            into.new }
        ensures kept { OnErr result (into.new ≡ into.old) }
        ensures seen { seen self.new ≡ seen self.old }
        ensures bytes { bytes self.new ≡ bytes self.old }
        ensures frames { frames self.new ≡ frames self.old }
        ensures spare { spare self.old ≤ spare self.new + 2 }
        ensures notes { Notes (seen self.old) (notes self.old) (notes self.new)
            (looked_fetch (seen self.old) addr 15) }
        ensures first { first self.new ≡ first self.old };

    /// The number in the `n` bytes from `addr` on, low byte first. `n` is 1, 2, 4 or 8. `Err` is of
    /// the first byte that may not be read.
    fn load(&mut self, pkru: u32, addr: u64, n: u8) -> Result<u64, Access>
        requires width { IsWidth n }
        requires spare { 1 ≤ spare self.old }
        ensures answer { result ≡ load_of (seen self.old) (bytes self.old) pkru addr n }
        ensures low { IfOk result (HasBytes (bytes self.old) addr n) }
        ensures seen { seen self.new ≡ seen self.old }
        ensures bytes { bytes self.new ≡ bytes self.old }
        ensures frames { frames self.new ≡ frames self.old }
        ensures spare { spare self.old ≤ spare self.new + 1 }
        ensures notes { Notes (seen self.old) (notes self.old) (notes self.new)
            (looked_access (seen self.old) false pkru addr n) }
        ensures first { first self.new ≡ first self.old };

    /// Writes the low `n` bytes of a value to those from `addr` on, low byte first. `n` is 1, 2, 4
    /// or 8. `Err` is of the first byte that may not be written, and then nothing was written.
    fn store(&mut self, pkru: u32, addr: u64, n: u8, value: u64) -> Result<(), Access>
        requires width { IsWidth n }
        requires spare { 1 ≤ spare self.old }
        ensures answer { result ≡ or_stop (stop (seen self.old) true pkru addr n) tt }
        ensures seen { seen self.new ≡ seen self.old }
        ensures bytes { bytes self.new
            ≡ bytes_after_store (seen self.old) (bytes self.old) pkru addr n value }
        ensures frames { frames self.new ≡ frames self.old }
        ensures spare { spare self.old ≤ spare self.new + 1 }
        ensures notes { Notes (seen self.old) (notes self.old) (notes self.new)
            (looked_access (seen self.old) true pkru addr n) }
        ensures first { first self.new ≡ first self.old };

    /// Pages that it holds as mapped are below 2^35.
    ghost low: { (s : Self) (q : ℕ) → 2 ^ 35 ≤ q → rights_in (seen s) q ≡ None };
}

/// The pages of a process. It holds every page, and none of these calls takes memory.
pub trait Pages: Memory {
    /// The rights of a page, or none where it isn't mapped.
    fn rights(&self, page: u64) -> Option<Rights>
        ensures value { result ≡ rights_in (Self.seen self.now) page }
        ensures sound { IfSome result IsSound };

    /// Gives a mapped page other rights.
    fn set_rights(&mut self, page: u64, rights: Rights)
        requires mapped { IsSome (rights_in (Self.seen self.old) page) }
        requires sound { IsSound rights }
        ensures seen { Self.seen self.new
            ≡ whole (with_value_at (rights_in (Self.seen self.old)) page (Some rights)) }
        ensures bytes { Self.bytes self.new ≡ Self.bytes self.old }
        ensures frames { Self.frames self.new ≡ Self.frames self.old };

    /// Maps a page of zeros. Page numbers are below 2^35.
    fn map_zero(&mut self, page: u64, rights: Rights)
        requires unmapped { rights_in (Self.seen self.old) page ≡ None }
        requires low { page < 2 ^ 35 }
        requires sound { IsSound rights }
        requires free { mapped_pages (rights_in (Self.seen self.old)) < Self.frames self.old }
        ensures seen { Self.seen self.new
            ≡ whole (with_value_at (rights_in (Self.seen self.old)) page (Some rights)) }
        ensures bytes { Self.bytes self.new ≡ with_zero_page (Self.bytes self.old) page }
        ensures frames { Self.frames self.new ≡ Self.frames self.old };

    /// Unmaps a mapped page. Its bytes are lost.
    fn unmap(&mut self, page: u64)
        requires { IsSome (rights_in (Self.seen self.old) page) }
        ensures seen { Self.seen self.new
            ≡ whole (with_value_at (rights_in (Self.seen self.old)) page None) }
        ensures bytes { Self.bytes self.new ≡ with_zero_page (Self.bytes self.old) page }
        ensures frames { Self.frames self.new ≡ Self.frames self.old };

    /// How many more pages may be mapped.
    fn free_frames(&self) -> u32
        ensures { result + mapped_pages (rights_in (Self.seen self.now)) ≡ Self.frames self.now };

    /// The least mapped page whose number is at least `from`.
    fn next_page(&self, from: u64) -> Option<u64>
        ensures { IsNextPage (rights_in (Self.seen self.now)) from result };

    /// Copies a page: no rights and zeros where it isn't mapped.
    fn copy_page(&self, page: u64, into: &mut PageCopy)
        ensures page { into.new.page ≡ page }
        ensures rights { into.new.rights ≡ rights_in (Self.seen self.now) page }
        ensures sound { IfSome into.new.rights IsSound }
        ensures low { IsSome into.new.rights → page < 2 ^ 35 }
        ensures long { length into.new.bytes ≡ 4096 }
        ensures bytes { (i : ℕ) → i < 4096
            → slice_index into.new.bytes i ≡ Self.bytes self.now (4096 * page + i) };

    /// The number in the 8 bytes from `addr` on, low byte first, whatever the rights of their page.
    fn word(&self, addr: u64) -> u64
        requires aligned { addr % 8 ≡ 0 }
        requires mapped { IsSome (rights_in (Self.seen self.now) (addr / 4096)) }
        ensures value { result ≡ word (Self.bytes self.now) addr 8 }
        ensures bytes { HasBytes (Self.bytes self.now) addr 8 result };

    /// It holds every page.
    ghost holds_all: { (s : Self) → Self.seen s ≡ whole (rights_in (Self.seen s)) };

    /// The byte of an unmapped page is 0.
    ghost zeros: { (s : Self) (a : ℕ) → rights_in (Self.seen s) (a / 4096) ≡ None
        → Self.bytes s a ≡ 0 };

    /// Its rights name keys below 16 and protection bits below 8.
    ghost sound: { (s : Self) (q : ℕ) (r : Rights) → rights_in (Self.seen s) q ≡ Some r
        → IsSound r };

    /// It keeps no notes, so that there is always room for them.
    ghost roomy: { (s : Self) → Self.spare s ≡ 16 };

    /// Without notes every address counts as noted.
    ghost noted: { (s : Self) (a : ℕ) → Self.notes s a ≡ true };

    /// Mapped pages and free frames are together at most 8,192.
    ghost few: { (s : Self) → Self.frames s ≤ 8192 };
}
