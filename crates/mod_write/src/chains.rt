//! The constants of each section, found from one to the next.
ghost use Rattle.std.specs.Prelude.{◌<◌, All, IfOk};
ghost use Rattle.mod_write.specs.Chained.{AreChained};

use std::alloc::{AllocError, Global};
use sym_mod::Constant;

/// For each section its first constant, and for each constant the next one of its section, by place.
/// Where there is none stands the number of all constants.
#[derive(Drop)]
pub(crate) struct Chains {
    pub first: Vec<usize>,
    pub next: Vec<usize>,
}

impl Chains {
    /// The constants of so many sections.
    ///
    /// # Errors
    /// Want of memory.
    pub fn new(alloc: Global, constants: &[Constant], sections: usize) -> Result<Chains, AllocError>
        requires { All (λ c. c.section < sections) constants.now }
        ensures { IfOk result (AreChained constants.now sections) }
    {
        let none = constants.len();
        let mut first = vec![in alloc; none; sections]?;
        let mut next = vec![in alloc; none; none]?;
        // From the last on, so that the constant found before in a section is the next after this one.
        for place in (0..constants.len()).rev() {
            let section = constants[place].section as usize;
            next[place] = first[section];
            first[section] = place;
        }
        Ok(Chains { first, next })
    }
}
