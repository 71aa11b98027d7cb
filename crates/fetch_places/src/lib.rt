//! Where the sections of a member may stand in storage: in one block, or each for itself over areas.
#![tactic(auto)]

mod areas;
mod extent;
mod fitting;
mod naming;
mod placement;

pub use areas::{AreaFault, place_sections};
pub use extent::Extent;
pub use fitting::fits;
pub use placement::{Area, Placement, place_block};
