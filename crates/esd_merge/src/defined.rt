//! What a name means.

/// What a name means: the section or the label of a number, each from 0 in the program's list.
#[derive(Clone, Copy, Debug, PartialEq, Eq)]
pub enum Defined {
    Section(u32),
    Label(u32),
}
