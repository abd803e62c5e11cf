//! An image that was accepted.

ghost use Rattle.std.specs.Prelude.{◌≡◌, ℕ, ◌<◌, ◌≤◌, ◌^◌, List, length, sum_by, false, IsTrue};
ghost use Rattle.std.specs.Prelude.{IfOk, MatchResult};
ghost use Rattle.std.specs.List.{All, AllPairs, list_any};
ghost use Rattle.erim_defs.specs.Inspection.Trust.{spans};
ghost use Rattle.erim_defs.specs.Machine.Start.{page_key};
ghost use Rattle.erim_defs.specs.Inspection.Image.{IsAccepted, IsPlaced, data_keys, entry_point};
ghost use Rattle.erim_defs.specs.Inspection.Image.{header_count, headers};
ghost use Rattle.erim_defs.specs.Inspection.Image.{image_data, image_functions, image_heaps};
ghost use Rattle.erim_defs.specs.Inspection.Image.{image_trust};
ghost use Rattle.erim_defs.specs.Inspection.Image.{page_count, page_total, segments, shares_page};
ghost use Rattle.erim_defs.specs.Encoding.Parts.{AreBytes};
ghost use Rattle.erim_defs.specs.Rewriting.NewFile.{old_table};
ghost use Rattle.elf_image.specs.Table.{HasTable};
ghost use Rattle.elf_image.specs.Form.{IsSeen};

use crate::domains::trust;
use crate::field::{entry_point, header_count, table_place};
use crate::header::Header;
use crate::lists::{functions, headers, keys, segments, spans};
use crate::notes::NotesSeen;
use erim_defs::elf::PROGRAM_HEADER_SIZE;
use erim_defs::note::{TRUSTED_DATA, TRUSTED_HEAP};
use erim_defs::page::{PAGE_SIZE, TRUSTED_KEY};
use erim_defs::{ImageFault, NoMemory, Segment, Span, Trust, key_beside};
use std::alloc::Global;
use std::marker::Model;

// How many pages the segments touch, shared ones counted for each.
fn page_sum(segments: &[Segment]) -> u64
    requires { sum_by page_count segments.now < 2 ^ 64 }
    ensures { result ≡ sum_by page_count segments.now }
{
    segments.iter().map(Segment::page_count).sum()
}

// An equal list.
fn copy_list<T: Copy>(list: &Vec<T>) -> Result<Vec<T>, NoMemory>
    ensures { IfOk result (λ copy. copy.items ≡ list.now.items) }
{
    Ok(Vec::from_slice(*list.allocator(), list.as_slice())?)
}

// An equal trusted part.
fn copy_trust(trust: &Trust) -> Result<Trust, NoMemory>
    ensures { IfOk result (λ copy. copy ≡ trust.now) }
{
    Ok(Trust {
        texts: copy_list(&trust.texts)?,
        entries: copy_list(&trust.entries)?,
        text_keys: copy_list(&trust.text_keys)?,
        entry_keys: copy_list(&trust.entry_keys)?,
        domains: trust.domains,
        integrity: trust.integrity,
        strict: trust.strict,
    })
}

/// An accepted image. Contracts see it as the bytes that it was read from.
#[derive(Drop)]
pub struct Image {
    bytes: Vec<u8>,
    segments: Vec<Segment>,
    trust: Trust,
    trusted: Vec<Span>,
    keys: Vec<u8>,
    heaps: Vec<Span>,
    functions: Vec<Span>,
    entry: u64,
}

impl Model for Image {
    ghost use Rattle.std.specs.Prelude.{ℕ, List};
    ghost use Rattle.elf_image.specs.Form.{IsRead};

    ghost Value = { List ℕ };

    ghost view = { λ image. image.bytes.items };

    ghost invariant = { λ image.
        IsRead image.bytes.items image.segments.items image.trust image.trusted.items
        image.keys.items image.heaps.items image.functions.items image.entry };
}

impl Image {
    /// The image of bytes that are accepted.
    #[tactic(auto, using(crate::proofs::ImageLemmas::accepted_table))]
    pub(crate) fn from_accepted(
        alloc: Global,
        bytes: &[u8],
        seen: NotesSeen,
    ) -> Result<Image, ImageFault>
        requires accepted { IsAccepted bytes.now }
        requires octets { AreBytes bytes.now }
        requires notes { IsSeen bytes.now seen }
        ensures { MatchResult result (λ image. image ≡ bytes.now)
            (λ fault. fault ≡ ImageFault.Memory) }
    {
        let table = seen.records();
        Ok(Image {
            segments: segments(alloc, bytes)?,
            trust: trust(alloc, bytes, table)?,
            trusted: spans(alloc, bytes, table, TRUSTED_DATA)?,
            keys: keys(alloc, bytes, table, TRUSTED_DATA)?,
            heaps: spans(alloc, bytes, table, TRUSTED_HEAP)?,
            functions: functions(alloc, bytes, seen.functions())?,
            entry: entry_point(bytes),
            bytes: Vec::from_slice(alloc, bytes)?,
        })
    }

    /// An equal image. Fails only where memory ran out.
    pub fn copy(&self) -> Result<Image, NoMemory>
        ensures { IfOk result (λ copy. copy ≡ self.now) }
    {
        Ok(Image {
            bytes: copy_list(&self.bytes)?,
            segments: copy_list(&self.segments)?,
            trust: copy_trust(&self.trust)?,
            trusted: copy_list(&self.trusted)?,
            keys: copy_list(&self.keys)?,
            heaps: copy_list(&self.heaps)?,
            functions: copy_list(&self.functions)?,
            entry: self.entry,
        })
    }

    /// The bytes that the image was read from, which have a file header and the table of at most 64
    /// program headers that it names.
    #[tactic(auto, using(crate::proofs::ImageLemmas::accepted_table))]
    pub fn bytes(&self) -> &[u8]
        ensures bytes { result.now ≡ self.now }
        ensures table { HasTable self.now }
        ensures accepted { IsAccepted self.now }
        ensures octets { AreBytes self.now }
    {
        self.bytes.as_slice()
    }

    /// How many program headers it has, at most 64.
    pub fn header_count(&self) -> u16
        ensures count { result ≡ header_count self.now }
        ensures few { result ≤ 64 }
    {
        header_count(self.bytes()) as u16
    }

    /// The program headers in table order.
    pub fn headers(&self, alloc: Global) -> Result<Vec<Header>, NoMemory>
        ensures { IfOk result (λ list. list.items ≡ headers self.now) }
    {
        Ok(headers(alloc, self.bytes())?)
    }

    /// The bytes of their table.
    pub fn header_table(&self) -> &[u8]
        ensures { result.now ≡ old_table self.now }
    {
        let bytes = self.bytes();
        let place = table_place(bytes) as usize;
        &bytes[place..place + PROGRAM_HEADER_SIZE * header_count(bytes) as usize]
    }

    /// The loadable segments in table order.
    pub fn segments(&self) -> &[Segment]
        ensures list { result.now ≡ segments self.now }

        // Each lies in the file and in user memory.
        ensures placed { All (IsPlaced (length self.now)) result.now }

        // No two share a page.
        ensures apart { AllPairs (λ s t. shares_page s t ≡ false) result.now }
        ensures few { sum_by page_count result.now ≤ 4080 }
        ensures accepted { IsAccepted self.now }
        ensures octets { AreBytes self.now }
    {
        self.segments.as_slice()
    }

    /// The address at which the program starts.
    pub fn entry(&self) -> u64
        ensures { result ≡ entry_point self.now }
    {
        self.entry
    }

    /// The domains of the image, with the text and the entries of each.
    pub fn trust(&self) -> &Trust
        ensures { result.now ≡ image_trust self.now }
    {
        &self.trust
    }

    /// The ranges of trusted data.
    pub fn trusted_pages(&self) -> &[Span]
        ensures { result.now ≡ image_data self.now }
    {
        self.trusted.as_slice()
    }

    /// The key of each of `trusted_pages`, in their order.
    pub fn page_keys(&self) -> &[u8]
        ensures { result.now ≡ data_keys self.now }
    {
        self.keys.as_slice()
    }

    // Does a trusted heap hold an address?
    fn is_in_heap(&self, address: u64) -> bool
        ensures { result ≡ list_any (spans address) (image_heaps self.now) }
    {
        self.heaps.iter().any(|heap| heap.holds(address))
    }

    /// The key of a page at the start: that of the record of trusted data in which it lies, the
    /// trusted key in a trusted heap, else key 0.
    pub fn page_key(&self, page: u64) -> u8
        requires { page < 2 ^ 35 }
        ensures value { result ≡ page_key self.now page }
        ensures bound { result < 16 }
    {
        let address = PAGE_SIZE * page;
        let key = key_beside(self.trusted.as_slice(), self.keys.as_slice(), address);
        if self.is_in_heap(address) {
            TRUSTED_KEY
        } else {
            key
        }
    }

    /// The ranges of trusted heaps.
    pub fn heaps(&self) -> &[Span]
        ensures { result.now ≡ image_heaps self.now }
    {
        self.heaps.as_slice()
    }

    /// The functions of the functions note, in its order; an image without that note has none.
    pub fn functions(&self) -> &[Span]
        ensures { result.now ≡ image_functions self.now }
    {
        self.functions.as_slice()
    }

    /// How many pages all segments touch.
    #[tactic(auto, unfolding(erim_defs::specs::Inspection::Image::page_total))]
    pub fn pages(&self) -> u32
        ensures value { result ≡ page_total self.now }
        ensures few { result ≤ 4080 }
    {
        page_sum(&self.segments) as u32
    }
}
