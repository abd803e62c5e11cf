//! Where a block fits. Places and sizes are counted in units of 16 bytes.

ghost use Rattle.std.specs.Prelude.{◌≡◌, ◌+◌, ◌<◌, ◌≤◌, ◌^◌, [], ◌∷◌, IfSome};
ghost use Rattle.std.specs.List.{All};
ghost use Rattle.erim_defs.specs.Machine.HeapCalls.{block_at, first_fit, meets};
ghost use Rattle.trusted_heap.specs.Blocks.{AreApart, EndsLow, IsLowestGap, sooner};
ghost use Rattle.trusted_heap.specs.Blocks.{unit_after};

use erim_defs::Span;
use erim_defs::limits::BLOCK_UNIT;

/// The first unit after a range.
fn unit_after(span: &Span) -> u64
    requires { EndsLow span.now }
    ensures behind { result ≡ unit_after span.now }
    ensures low { result ≤ 2 ^ 43 }
{
    (span.start + span.length).div_ceil(BLOCK_UNIT)
}

/// Does a block of a given number of units from one on meet a range?
fn meets(span: &Span, unit: u64, count: u64) -> bool
    requires low { EndsLow span.now }
    requires unit { unit ≤ 2 ^ 43 }
    requires count { count ≤ 2 ^ 60 }
    ensures { result ≡ meets (block_at unit count) span.now }
{
    unit < unit_after(span) && span.start / BLOCK_UNIT < unit + count
}

/// The lowest unit from one on where so many lie between the blocks.
fn lowest_gap(blocks: &[Span], from: u64, count: u64) -> u64
    requires apart { AreApart 0 blocks.now }
    requires from { from ≤ 2 ^ 43 }
    requires some { 0 < count }
    requires count { count ≤ 2 ^ 60 }
    ensures gap { IsLowestGap blocks.now from count result }
    ensures low { result ≤ 2 ^ 43 }
{
    let mut unit = from;
    for block in blocks {
        if meets(block, unit, count) {
            unit = unit_after(block);
        }
    }
    unit
}

/// The lowest unit of a range of heap where so many fit, if there is one.
fn fit_in(heap: &Span, blocks: &[Span], count: u64) -> Option<u64>
    requires low { EndsLow heap.now }
    requires apart { AreApart 0 blocks.now }
    requires some { 0 < count }
    requires count { count ≤ 2 ^ 60 }
    ensures first { result ≡ first_fit (heap.now ∷ []) blocks.now count }
    ensures low { IfSome result (λ unit. unit + count ≤ 2 ^ 43) }
{
    let unit = lowest_gap(blocks, heap.start.div_ceil(BLOCK_UNIT), count);
    if unit + count <= (heap.start + heap.length) / BLOCK_UNIT {
        Some(unit)
    } else {
        None
    }
}

/// The lower of two units.
fn sooner(first: Option<u64>, second: Option<u64>) -> Option<u64>
    ensures { result ≡ sooner first second }
{
    match (first, second) {
        (Some(a), Some(b)) => Some(a.min(b)),
        (None, other) => other,
        (some, None) => some,
    }
}

/// The lowest unit of all ranges of heap where so many fit, if there is one.
pub(crate) fn first_fit(heaps: &[Span], blocks: &[Span], count: u64) -> Option<u64>
    requires low { All EndsLow heaps.now }
    requires apart { AreApart 0 blocks.now }
    requires some { 0 < count }
    requires count { count ≤ 2 ^ 60 }
    ensures first { result ≡ first_fit heaps.now blocks.now count }
    ensures low { IfSome result (λ unit. unit + count ≤ 2 ^ 43) }
{
    let mut lowest = None;
    for heap in heaps {
        lowest = sooner(lowest, fit_in(heap, blocks, count));
    }
    lowest
}
