//! Data sets.
use crate::library::Library;
use le_bytes::{Bytes, Name};

/// What a data set holds.
#[derive(Drop)]
pub enum Body {
    /// Cards of 80 bytes, the last of which may be shorter.
    Cards(Bytes),
    Lib(Library),
}

/// A data set with the name that a command gives it.
#[derive(Drop)]
pub struct Set {
    pub dd: Name,
    pub body: Body,
}
