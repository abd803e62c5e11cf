//! Where an image can be rewritten: the regions of instructions round its unsafe sequences, or why
//! there are none.
//!
//! `functions_of` reads the functions of an image out of its file, `image_program` makes the
//! `Program` of an image of them, and `image_regions` gives its regions: they meet `function_of`,
//! `program_of` and `image_regions` of `erim_defs`. `sites_of` shows regions as sites, and
//! `find_sites` does it all for an image. `image_regions` asks `find_regions`, which meets
//! `regions_from`, of the list that `unsafe_sequences` gives, which meets `image_list`. In the
//! files: `instruction` is an instruction as it stands, `function` sweeps over a function,
//! `stretch` cuts stretches of instructions, `targets` sorts where control may come from elsewhere,
//! `program` and `reasons` ask the reasons, `region` is a region, `regions` makes them, `elements`
//! lists the unsafe sequences, and `sites` does it for an image.
#![tactic(auto)]

mod elements;
mod function;
mod instruction;
mod program;
mod reasons;
mod region;
mod regions;
mod sites;
mod stretch;
mod targets;

pub use elements::unsafe_sequences;
pub use function::Function;
pub use instruction::Instruction;
pub use program::Program;
pub use region::Region;
pub use regions::{SiteFault, find_regions};
pub use sites::{Site, Sites, find_sites, functions_of, image_program, image_regions, sites_of};
