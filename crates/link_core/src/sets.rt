//! The data sets that are linked from.
ghost use Rattle.std.specs.Prelude.{◌≡◌};
ghost use Rattle.link_core.specs.Sets.{cards_in, primary_cards};

use command_words::keys::SYSLIN;
use pds_lib::{Body, Set};

/// The cards of the primary input, of 80 bytes each but the last: those of the first set that is named
/// SYSLIN. There are none where no set is named so, or where it is a library.
pub fn primary_cards(sets: &[Set]) -> &[u8]
    ensures { result.now ≡ primary_cards sets.now }
{
    for set in sets {
        if set.dd == SYSLIN {
            return cards_in(&set.body);
        }
    }
    &[]
}

/// The bytes of a set of cards; none of a library.
fn cards_in(body: &Body) -> &[u8]
    ensures { result.now ≡ cards_in body.now }
{
    match body {
        Body::Cards(bytes) => bytes.as_slice(),
        Body::Lib(_) => &[],
    }
}
