//! What is asked of a run of linking.
use le_bytes::Name;
use pds_lib::Version;

/// What is asked of a run of linking. There is no map and no cross-reference, no automatic call and no
/// overlay tree yet, so that `map`, `xref`, `xcal` and `ovly` change nothing.
#[derive(Clone, Copy, Debug, PartialEq, Eq)]
pub struct Options {
    /// The map is printed.
    pub map: bool,
    /// The cross-reference is printed.
    pub xref: bool,
    /// Unresolved names are no refusal.
    pub let_on: bool,
    /// Nothing is called automatically, and unresolved names are no refusal.
    pub ncal: bool,
    /// Valid exclusive references are accepted.
    pub xcal: bool,
    /// A load module may be an overlay tree.
    pub ovly: bool,
    /// Load modules are written for scatter loading.
    pub sctr: bool,
    /// The name of a load module that no NAME statement ends.
    pub member: Name,
    /// That of the library that the members are for. It gives the greatest length of a text record: 1,024
    /// bytes in version 1, 13,030 in version 2.
    pub version: Version,
}
