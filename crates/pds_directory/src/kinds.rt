//! What a library holds, and how its image is laid out.

/// What the records of the members are.
#[derive(Clone, Copy, Debug, PartialEq, Eq)]
pub enum LibKind {
    /// Cards of 80 bytes.
    Cards,
    /// Records of load modules.
    Modules,
}

/// How the length of a record stands in the image.
#[derive(Clone, Copy, Debug, PartialEq, Eq)]
pub enum Version {
    /// In 2 bytes.
    One,
    /// In 4 bytes.
    Two,
}
