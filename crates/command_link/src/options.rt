//! How is linked.
ghost use Rattle.command_words.specs.Seen.{words_of};
ghost use Rattle.std.specs.Prelude.{◌≡◌};
ghost use Rattle.command_link.specs.Link.{linking_options};

use command_words::Request;
use link_core::Options;
use pds_lib::Version;

/// The options of linking into a library of this version.
pub fn linking_options(request: &Request<'_>, version: Version) -> Options
    ensures { result ≡ linking_options (words_of request.now) version }
{
    let o = request.options();
    Options {
        map: o.map,
        xref: o.xref,
        let_on: o.let_on,
        ncal: o.ncal,
        xcal: o.xcal,
        ovly: o.ovly,
        sctr: o.sctr,
        member: request.module_name(),
        version,
    }
}
