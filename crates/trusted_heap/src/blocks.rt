//! The list of the live blocks, by rising address.

ghost use Rattle.std.specs.Prelude.{◌≡◌, ◌≤◌, length};
ghost use Rattle.std.specs.List.{insert};
ghost use Rattle.erim_defs.specs.declared.trust.Span.{Span};
ghost use Rattle.erim_defs.specs.Machine.HeapCalls.{with_block};

use erim_defs::Span;

/// Where a block goes among the others.
pub(crate) fn place_of(blocks: &[Span], block: &Span) -> usize
    ensures place { with_block block.now blocks.now ≡ insert blocks.now result block.now }
    ensures within { result ≤ length blocks.now }
{
    for place in 0..blocks.len() {
        if block.start < blocks[place].start {
            return place;
        }
    }
    blocks.len()
}
