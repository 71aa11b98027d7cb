//! A place in a program.
use crate::name::Name;

/// A byte of a section: the section's name and the offset in it, in bytes.
#[derive(Clone, Copy, Debug, PartialEq, Eq)]
pub struct Place {
    pub section: Name,
    pub offset: u32,
}
