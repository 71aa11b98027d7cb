//! The library among the sets.
ghost use Rattle.command_words.specs.Seen.{words_of};
ghost use Rattle.std.specs.Prelude.{◌≡◌, All, unwrap_or};
ghost use Rattle.pds_directory.specs.declared.kinds.LibKind.TheVariants.{Modules};
ghost use Rattle.command_sets.specs.Reading.{IsReadBody};
ghost use Rattle.command_sets.specs.Libraries.{library_in, output_in};
ghost use Rattle.command_sets.specs.Sets.{empty_library, names_output, new_version};

use command_words::Request;
use command_words::keys::SYSLMOD;
use le_bytes::Items;
use pds_lib::{Body, LibKind, Library, Set, Version};
use std::alloc::Global;

/// The version of the library that is linked into, this one where no set is named SYSLMOD.
pub fn output_version(sets: &[Set], new: Version) -> Version
    ensures { result ≡ (output_in new sets.now).version }
{
    for set in sets {
        if set.dd == SYSLMOD {
            return version_in(&set.body, new);
        }
    }
    new
}

fn version_in(body: &Body, new: Version) -> Version
    ensures { result ≡ (unwrap_or (library_in body.now) (empty_library new)).version }
{
    match body {
        Body::Lib(library) => library.version(),
        Body::Cards(_) => new,
    }
}

/// The library that is linked into, one without members and of this version where no set is named SYSLMOD.
pub fn output_in(alloc: Global, new: Version, sets: Items<Set>) -> Library
    requires { All (λ x. IsReadBody x.body) sets }
    ensures library { result ≡ output_in new sets }
    ensures kind { result.kind ≡ Modules }
{
    for set in sets.into_vec() {
        if set.dd == SYSLMOD {
            return library_in(alloc, new, set.body);
        }
    }
    Library::empty(alloc, LibKind::Modules, new)
}

fn library_in(alloc: Global, new: Version, body: Body) -> Library
    requires { IsReadBody body }
    ensures library { result ≡ unwrap_or (library_in body) (empty_library new) }
    ensures kind { result.kind ≡ Modules }
{
    match body {
        Body::Lib(library) => library,
        Body::Cards(_) => Library::empty(alloc, LibKind::Modules, new),
    }
}

/// The version of a library that is new: 2 with DCBS.
pub fn new_version(request: &Request<'_>) -> Version
    ensures { result ≡ new_version (words_of request.now) }
{
    if request.options().dcbs {
        Version::Two
    } else {
        Version::One
    }
}

/// Whether SYSLMOD is named.
pub fn names_output(request: &Request<'_>) -> bool
    ensures { result ≡ names_output (words_of request.now) }
{
    request.path(SYSLMOD).is_some()
}
