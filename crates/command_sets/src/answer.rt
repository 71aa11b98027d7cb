//! What a command comes to before anything is put or printed.
use crate::status::Status;
use le_bytes::{Bytes, Name};

/// A data set that is to be put.
#[derive(Drop)]
pub struct Put {
    /// Its data definition name.
    pub dd: Name,
    /// All its bytes.
    pub image: Bytes,
}

/// The status that a command has once all is put and printed, its text, and what it puts.
#[derive(Drop)]
pub struct Answer {
    pub status: Status,
    pub text: Bytes,
    pub put: Option<Put>,
}
