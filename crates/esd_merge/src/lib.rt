//! Symbolic modules merged into one program: which sections and labels are kept, what each name means,
//! and which names are unresolved.
#![tactic(auto)]

mod bringing;
mod calls;
mod defined;
mod entering;
mod fault;
mod merged;
mod program;
mod tabled;
mod unres;

pub use calls::callable_in_order;
pub use defined::Defined;
pub use fault::MergeFault;
pub use merged::Merged;
pub use unres::Unres;
