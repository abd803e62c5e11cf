//! The code of an image, laid out.

ghost use Rattle.std.specs.Prelude.{◌≡◌, ◌+◌, ◌≤◌, ◌^◌, [], All, AllPairs, OnOk, IfOk, false};
ghost use Rattle.std.specs.Prelude.{length};
ghost use Rattle.erim_defs.specs.Inspection.Image.{IsPlaced, code_of, image_code, image_trust};
ghost use Rattle.erim_defs.specs.Inspection.Image.{shares_page, text_of};
ghost use Rattle.erim_defs.specs.Inspection.Unsafe.{IsFirstUnsafe};
ghost use Rattle.image_code.specs.Stretches.{AddsCode, AreApart, LiesBefore, code_in, stretch_code};
ghost use Rattle.image_code.specs.Texts.{IsPaged};

use crate::ranges::next_range;
use crate::segment_bytes::range_bytes;
use crate::stretch::Stretch;
use crate::texts::next_text;
use elf_image::Image;
use erim_defs::page::PAGE_SIZE;
use erim_defs::{Found, NoMemory, Segment, Trust};
use std::alloc::Global;
use std::marker::Model;

/// The code of an image, or a part of it. Contracts see it as stretches of bytes; `code_in` says
/// which code these are.
#[derive(Drop)]
pub struct ImageCode {
    stretches: Vec<Stretch>,
}

impl Model for ImageCode {
    ghost use Rattle.std.specs.Prelude.{List};
    ghost use Rattle.image_code.specs.declared.stretch.Stretch.{Stretch};
    ghost use Rattle.image_code.specs.Stretches.{AreApart};

    ghost Value = { List Stretch };

    ghost view = { λ code. code.stretches.items };

    ghost invariant = { λ code. AreApart code.stretches.items };
}

impl ImageCode {
    /// The image code.
    pub fn lay(alloc: Global, image: &Image) -> Result<ImageCode, NoMemory>
        ensures code { IfOk result (λ code. code_in code ≡ image_code image.now) }

        // So there is the part on its trusted text.
        ensures paged { OnOk result (IsPaged (image_trust image.now)) }
    {
        let stretches = stretches_of(alloc, image.bytes(), image.segments())?;
        Ok(ImageCode { stretches })
    }

    /// Its part on trusted text, which is made of whole pages.
    pub fn on_text(&self, alloc: Global, trust: &Trust) -> Result<ImageCode, NoMemory>
        requires { IsPaged trust.now }
        ensures { IfOk result (λ code. code_in code ≡ text_of trust.now (code_in self.now)) }
    {
        let mut stretches = Vec::new(alloc);
        for stretch in &self.stretches {
            push_texts(alloc, &mut stretches, stretch, trust)?;
        }
        Ok(ImageCode { stretches })
    }

    /// The byte at an address, or none where the code has none.
    pub fn byte_at(&self, address: u64) -> Option<u8>
        ensures { result ≡ code_in self.now address }
    {
        for stretch in &self.stretches {
            if let Some(byte) = stretch.byte_at(address) {
                return Some(byte);
            }
        }
        None
    }

    /// The first unsafe sequence of the code from an address on.
    pub fn next_unsafe(&self, trust: &Trust, from: u64) -> Option<Found>
        ensures { IsFirstUnsafe trust.now (code_in self.now) from (2 ^ 47) result }
    {
        for stretch in &self.stretches {
            if let Some(found) = stretch.next_unsafe(trust, from) {
                return Some(found);
            }
        }
        None
    }
}

/// The stretches of the segments' code, by rising address.
fn stretches_of(alloc: Global, bytes: &[u8], segments: &[Segment]) -> Result<Vec<Stretch>, NoMemory>
    requires placed { All (IsPlaced (length bytes.now)) segments.now }
    requires apart { AllPairs (λ s t. shares_page s t ≡ false) segments.now }
    ensures code { IfOk result (λ new. code_in new.items ≡ code_of bytes.now segments.now) }
    ensures apart { IfOk result (λ new. AreApart new.items) }
{
    let mut stretches = Vec::new(alloc);
    let mut from = 0;
    'laying: while let Some(pages) = next_range(segments, from) {
        let bytes = range_bytes(alloc, bytes, segments, &pages)?;
        let base = PAGE_SIZE * pages.first;
        stretches.push(Stretch { base, bytes })?;
        // The page after a range is none of it, nor of the next one.
        from = pages.end + 1;
    }
    Ok(stretches)
}

/// Adds the trusted text of a stretch: a stretch for each range of its pages that are trusted text.
fn push_texts(
    alloc: Global,
    stretches: &mut Vec<Stretch>,
    stretch: &Stretch,
    trust: &Trust,
) -> Result<(), NoMemory>
    requires apart { AreApart stretches.old.items }
    requires before { All (λ s. LiesBefore s stretch.now) stretches.old.items }
    requires paged { IsPaged trust.now }
    ensures { OnOk result (AddsCode stretches.old.items stretches.new.items stretch.now
        (text_of trust.now (stretch_code stretch.now))) }
{
    let all = stretch.pages();
    let mut from = all.first;
    'texts: while let Some(pages) = next_text(trust, from, all.end) {
        let bytes = stretch.part(alloc, &pages)?;
        let base = PAGE_SIZE * pages.first;
        stretches.push(Stretch { base, bytes })?;
        from = pages.end + 1;
    }
    Ok(())
}
