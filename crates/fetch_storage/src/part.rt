//! A part of storage.
use le_bytes::Bytes;

/// Bytes of storage from an address on.
#[derive(Debug, Drop, PartialEq, Eq)]
pub struct Part {
    /// The address of the first byte.
    pub origin: u32,
    pub bytes: Bytes,
}
