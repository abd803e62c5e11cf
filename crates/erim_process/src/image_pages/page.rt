//! Loads one page of a segment.

ghost use Rattle.std.specs.Prelude.{◌≡◌, ◌<◌, ◌≤◌, ◌+◌, ◌*◌, ◌/◌, ◌==◌, ◌^◌, ℕ, Some, None, length};
ghost use Rattle.erim_defs.specs.Machine.Pages.{with_value_at, IsSound};
ghost use Rattle.erim_defs.specs.Machine.Count.{mapped_pages};
ghost use Rattle.erim_defs.specs.Inspection.Image.{IsPlaced, loaded_byte};
ghost use Rattle.erim_defs.specs.Machine.Access.{rights_in};
ghost use Rattle.erim_process.specs.ImagePages.{IsWritable, bytes_over};

use erim_defs::page::PAGE_SIZE;
use erim_defs::{Rights, Segment};
use page_store::{Memory, Pages};

// A PKRU that permits what the rights of a page permit.
const EVERY_KEY: u32 = 0;

// Writes a byte where a zero stands.
fn write_byte<P: Pages>(pages: &mut P, addr: u64, byte: u8)
    requires user { addr < 2 ^ 47 }
    requires writable { IsWritable (rights_in (P.seen pages.old) (addr / 4096)) }
    requires zero { P.bytes pages.old addr ≡ 0 }
    ensures bytes { P.bytes pages.new ≡ with_value_at (P.bytes pages.old) addr byte }
    ensures seen { P.seen pages.new ≡ P.seen pages.old }
    ensures frames { P.frames pages.new ≡ P.frames pages.old }
{
    if byte != 0 {
        // Nothing stops it.
        let _ = pages.store(EVERY_KEY, addr, 1, u64::from(byte));
    }
}

// Writes the file's bytes of a segment to one of its pages, which has zeros.
fn fill_page<P: Pages>(pages: &mut P, bytes: &[u8], segment: &Segment, page: u64)
    requires placed { IsPlaced (length bytes.now) segment.now }
    requires page { page < 2 ^ 35 }
    requires writable { IsWritable (rights_in (P.seen pages.old) page) }
    requires zeros { (a : ℕ) → a / 4096 ≡ page → P.bytes pages.old a ≡ 0 }
    ensures bytes { P.bytes pages.new
        ≡ bytes_over (λ q. q == page) (loaded_byte bytes.now segment.now) (P.bytes pages.old) }
    ensures seen { P.seen pages.new ≡ P.seen pages.old }
    ensures frames { P.frames pages.new ≡ P.frames pages.old }
{
    let first = segment.vaddr.max(PAGE_SIZE * page);
    let end = (segment.vaddr + segment.filesz).min(PAGE_SIZE * page + PAGE_SIZE);
    for addr in first..end {
        let place = segment.offset + (addr - segment.vaddr);
        write_byte(pages, addr, bytes[place as usize]);
    }
}

/// Maps a page with the bytes of a segment. It is writable and unpublished until they are written.
pub(super) fn load_page<P: Pages>(
    pages: &mut P,
    bytes: &[u8],
    segment: &Segment,
    page: u64,
    rights: Rights,
)
    requires placed { IsPlaced (length bytes.now) segment.now }
    requires page { page < 2 ^ 35 }
    requires sound { IsSound rights }
    requires unmapped { rights_in (P.seen pages.old) page ≡ None }
    requires free { mapped_pages (rights_in (P.seen pages.old)) < P.frames pages.old }
    ensures rights { rights_in (P.seen pages.new)
        ≡ with_value_at (rights_in (P.seen pages.old)) page (Some rights) }
    ensures bytes { P.bytes pages.new
        ≡ bytes_over (λ q. q == page) (loaded_byte bytes.now segment.now) (P.bytes pages.old) }
    ensures frames { P.frames pages.new ≡ P.frames pages.old }
    ensures count { mapped_pages (rights_in (P.seen pages.new))
        ≡ mapped_pages (rights_in (P.seen pages.old)) + 1 }
{
    pages.map_zero(
        page,
        Rights {
            write: true,
            exec: false,
            ..rights
        },
    );
    fill_page(pages, bytes, segment, page);
    pages.set_rights(page, rights);
}
