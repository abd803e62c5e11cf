//! Laws of rewriting, over its definitions in `erim_defs`.
//!
//! Each function here is a law: it does nothing, and its contract is proved. They say why a
//! rewritten image has nothing unsafe, as far as the layout goes: no sequence of the code that the
//! layout knows touches a region or a copy (`no_sequence_touches_copies`), so where all others are
//! safe its unsafe list is empty (`safe_outside_is_enough`). An accepted image is what both ask of
//! the code below (`ground_is_accepted`). That the code of the new file is the layout's isn't
//! proved; the answer is tested instead, and what `rewriting` answers is accepted and has an empty
//! list (`rewriting_is_clean`). `regions_lie_in_file` says that the regions lie in the file.
//! `regions_have_room` and `copies_are_chains` say what the sameness of the rewritten program rests
//! on: which instructions a region has, and where each part of a copy goes on.
#![tactic(auto)]

ghost use Rattle.rewriting_laws.specs.QuietLaws.{UntouchedLaw, TouchedLaw, QuietLaw, SafeLaw};
ghost use Rattle.rewriting_laws.specs.QuietLaws.{AnswerLaw, GroundLaw};
ghost use Rattle.rewriting_laws.specs.PlaceLaws.{PlaceLaw};
ghost use Rattle.rewriting_laws.specs.RegionLaws.{RegionsLaw};
ghost use Rattle.rewriting_laws.specs.ChainLaw.{ChainLaw};

/// The test of bytes that no sequence touches says so.
pub fn test_says_untouched()
    ensures { UntouchedLaw }
{}

/// Where there are bytes that no sequence touches, the test says so.
pub fn untouched_passes_test()
    ensures { TouchedLaw }
{}

/// The code and the regions of an accepted image end before the segment that copies go into.
pub fn ground_is_accepted()
    ensures { GroundLaw }
{}

/// No sequence of the code of a layout touches a region or a copy.
pub fn no_sequence_touches_copies()
    ensures { QuietLaw }
{}

/// Where every sequence outside of regions and copies is safe, the unsafe list is empty.
pub fn safe_outside_is_enough()
    ensures { SafeLaw }
{}

/// What rewriting answers is accepted and has an empty unsafe list.
pub fn rewriting_is_clean()
    ensures { AnswerLaw }
{}

/// The regions are for the elements in their order, and each has five bytes at least and all bytes
/// of its elements.
pub fn regions_have_room()
    ensures { RegionsLaw }
{}

/// The parts of a copy stand one after the other, and each goes on in the old program as its
/// instructions do.
pub fn copies_are_chains()
    ensures { ChainLaw }
{}

/// Each region of an accepted image lies in the file, and has five bytes at least.
pub fn regions_lie_in_file()
    ensures { PlaceLaw }
{}
