//! How many items or terms of a deck are few.

/// So many are looked through one by one, which is quicker than a map and takes no memory.
pub const FEW: usize = 8;
