//! A loadable segment of an image: what it is for, which pages it touches, and whether it lies
//! where it may.

ghost use Rattle.std.specs.Prelude.{◌≡◌, ◌+◌, ◌^◌, ◌&&◌, nat_le};
ghost use Rattle.erim_defs.specs.Inspection.Image.{end_page, first_page, holds_function};
ghost use Rattle.erim_defs.specs.Inspection.Image.{is_executable, is_in_file};
ghost use Rattle.erim_defs.specs.Inspection.Image.{is_in_user, is_off_stack, is_writable};
ghost use Rattle.erim_defs.specs.Inspection.Image.{page_count, shares_page, touches};

use crate::elf::{PF_W, PF_X};
use crate::page::{LOWEST_ADDRESS, PAGE_SIZE, STACK_END_PAGE, STACK_PAGE, USER_END};
use crate::trust::Span;

/// A loadable segment, as its program header gives it (ELF-64, "Program header").
#[derive(Clone, Copy, PartialEq, Eq)]
pub struct Segment {
    /// The address of its first byte.
    pub vaddr: u64,
    /// The place in the file of its first byte.
    pub offset: u64,
    /// How many of its bytes stand in the file.
    pub filesz: u64,
    /// How many bytes it has in memory; those past the file part are zero.
    pub memsz: u64,
    /// PF_X, PF_W and PF_R, added up.
    pub flags: u32,
}

impl Segment {
    /// May it be executed (PF_X)?
    pub fn is_executable(&self) -> bool
        ensures { result ≡ is_executable self.now }
    {
        self.flags / PF_X % 2 == 1
    }

    /// May it be written (PF_W)?
    pub fn is_writable(&self) -> bool
        ensures { result ≡ is_writable self.now }
    {
        self.flags / PF_W % 2 == 1
    }

    /// The first page that it touches.
    pub fn first_page(&self) -> u64
        ensures { result ≡ first_page self.now }
    {
        self.vaddr / PAGE_SIZE
    }

    /// The page after the last that it touches. The sum of address and size may pass 2^64, so whole
    /// pages and rests are added apart.
    pub fn end_page(&self) -> u64
        ensures { result ≡ end_page self.now }
    {
        let rest = self.vaddr % PAGE_SIZE + self.memsz % PAGE_SIZE;
        self.vaddr / PAGE_SIZE + self.memsz / PAGE_SIZE + (rest + (PAGE_SIZE - 1)) / PAGE_SIZE
    }

    /// How many pages it touches.
    pub fn page_count(&self) -> u64
        ensures { result ≡ page_count self.now }
    {
        self.end_page() - self.first_page()
    }

    /// Does it touch the page?
    pub fn touches(&self, page: u64) -> bool
        ensures { result ≡ touches self.now page }
    {
        self.memsz > 0 && self.first_page() <= page && page < self.end_page()
    }

    /// Does a page belong to both?
    pub fn shares_page(&self, other: &Segment) -> bool
        ensures { result ≡ shares_page self.now other.now }
    {
        self.first_page() < other.end_page() && other.first_page() < self.end_page()
    }

    /// Does the file part have a function? Neither end is made: both may pass 2^64.
    fn has_in_file(&self, function: &Span) -> bool
        ensures { result ≡ (nat_le self.now.vaddr function.now.start
            && nat_le (function.now.start + function.now.length)
            (self.now.vaddr + self.now.filesz)) }
    {
        if function.start < self.vaddr {
            return false;
        }
        let place = function.start - self.vaddr;
        place <= self.filesz && function.length <= self.filesz - place
    }

    /// May it be executed, and does its file part have a function?
    pub fn holds_function(&self, function: &Span) -> bool
        ensures { result ≡ holds_function function.now self.now }
    {
        self.is_executable() && self.has_in_file(function)
    }

    /// Does the file part lie in a file of a given number of bytes? The sum of offset and size may
    /// pass 2^64, so they are compared by a difference.
    pub fn is_in_file(&self, file_length: u64) -> bool
        ensures { result ≡ is_in_file file_length self.now }
    {
        self.filesz <= file_length && self.offset <= file_length - self.filesz
    }

    /// Does it lie in user memory, off the stack?
    pub fn is_in_user(&self) -> bool
        ensures { result ≡ is_in_user self.now }
    {
        self.filesz <= self.memsz
            && self.vaddr >= LOWEST_ADDRESS
            && self.is_below_end()
            && self.is_off_stack()
    }

    // The sum of address and size may pass 2^64 too.
    fn is_below_end(&self) -> bool
        ensures { result ≡ nat_le (self.now.vaddr + self.now.memsz) (2 ^ 47) }
    {
        self.memsz <= USER_END && self.vaddr <= USER_END - self.memsz
    }

    fn is_off_stack(&self) -> bool
        ensures { result ≡ is_off_stack self.now }
    {
        self.first_page() >= STACK_END_PAGE || self.end_page() <= STACK_PAGE
    }
}
