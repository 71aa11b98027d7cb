//! A module that was read, as it is kept.
use esd_index::Flags;
use sym_mod::SymModule;

/// A module that was read, the segment that was current, and for each item whether it is a section
/// that is kept.
#[derive(Drop)]
pub struct Reading {
    pub read: SymModule,
    pub segment: u8,
    pub kept: Flags,
}
