//! A program header (ELF-64, "Program header").

ghost use Rattle.std.specs.Prelude.{◌≡◌, ◌≤◌, ◌<◌, ◌==◌, ◌&&◌, not};
ghost use Rattle.erim_defs.specs.Inspection.Image.{header_count, is_dynamic, is_loadable, is_noted};
ghost use Rattle.erim_defs.specs.Inspection.Image.{is_passed_over, is_ranged, header_pages};
ghost use Rattle.erim_defs.specs.Inspection.Image.{table_place};
ghost use Rattle.elf_image.specs.Table.{HasTable, header_of};

use crate::field::table_place;
use erim_defs::Segment;
use erim_defs::elf::{
    P_ALIGN, P_FILESZ, P_FLAGS, P_MEMSZ, P_OFFSET, P_VADDR, PROGRAM_HEADER_SIZE, PT_DYNAMIC,
    PT_INTERP, PT_LOAD, PT_NOTE, PT_TLS, WIDE_NOTE_ALIGNMENT,
};
use erim_defs::field::{u32_at, u64_at};
use erim_defs::limits::MOST_PAGES;
use std::marker::Model;

/// A program header.
#[derive(Drop)]
pub struct Header {
    kind: u32,
    align: u64,
    segment: Segment,
}

impl Model for Header {
    ghost use Rattle.erim_defs.specs.Inspection.Image.{Header as HeaderValue};

    ghost Value = { HeaderValue };

    ghost view = { λ header.
        record { kind = header.kind; align = header.align; segment = header.segment } };
}

impl Header {
    /// The header of a number.
    #[tactic(auto, unfolding(crate::specs::Table::header_of))]
    pub(crate) fn read(bytes: &[u8], index: u32) -> Header
        requires table { HasTable bytes.now }
        requires index { index < header_count bytes.now }
        ensures { result ≡ header_of bytes.now index }
    {
        let place = table_place(bytes) as usize + PROGRAM_HEADER_SIZE * index as usize;
        let segment = Segment {
            vaddr: u64_at(bytes, place + P_VADDR),
            offset: u64_at(bytes, place + P_OFFSET),
            filesz: u64_at(bytes, place + P_FILESZ),
            memsz: u64_at(bytes, place + P_MEMSZ),
            flags: u32_at(bytes, place + P_FLAGS),
        };
        Header {
            kind: u32_at(bytes, place),
            align: u64_at(bytes, place + P_ALIGN),
            segment,
        }
    }

    /// What it is of (p_type).
    pub fn kind(&self) -> u32
        ensures { result ≡ self.now.kind }
    {
        self.kind
    }

    /// The segment that the header says.
    pub fn segment(&self) -> Segment
        ensures { result ≡ self.now.segment }
    {
        self.segment
    }

    /// Does it ask for dynamic linking, an interpreter or thread-local storage?
    pub(crate) fn is_dynamic(&self) -> bool
        ensures { result ≡ is_dynamic self.now }
    {
        self.kind == PT_DYNAMIC || self.kind == PT_INTERP || self.kind == PT_TLS
    }

    /// Is it a segment with bytes?
    pub(crate) fn is_loadable(&self) -> bool
        ensures { result ≡ is_loadable self.now }
    {
        self.kind == PT_LOAD && self.segment.memsz > 0
    }

    /// Is it a note whose form is read?
    pub(crate) fn is_noted(&self) -> bool
        ensures { result ≡ is_noted self.now }
    {
        self.kind == PT_NOTE && self.align != WIDE_NOTE_ALIGNMENT
    }

    /// Does it lie where it may, where a given number of pages stand before it?
    pub(crate) fn is_ranged(&self, file_length: u64, pages: u64) -> bool
        requires { pages ≤ 4080 }
        ensures { result ≡ is_ranged file_length pages self.now }
    {
        if self.kind == PT_NOTE {
            return self.segment.is_in_file(file_length);
        }
        !self.is_counted()
            || self.segment.is_in_file(file_length)
                && self.segment.is_in_user()
                && self.segment.page_count() <= MOST_PAGES - pages
    }

    /// 0 for what isn't a segment, else its pages.
    pub(crate) fn header_pages(&self) -> u64
        ensures { result ≡ header_pages self.now }
    {
        if self.is_counted() {
            self.segment.page_count()
        } else {
            0
        }
    }

    // A segment without any bytes isn't counted.
    fn is_counted(&self) -> bool
        ensures { result ≡ (self.now.kind == 1 && not (is_passed_over self.now)) }
    {
        self.kind == PT_LOAD && (self.segment.memsz != 0 || self.segment.filesz != 0)
    }
}
