//! The words of what may be wrong with an overlay member's start, a placement or an event.
ghost use Rattle.std.specs.Prelude.{◌≡◌};
ghost use Rattle.map_list.specs.RunFaults.{start_words, place_words, event_words};
ghost use Rattle.map_list.specs.Words.{texts_of};

use crate::words::{Value, Words};
use le_bytes::{EventWhat, PlaceWhat, StartWhat};

/// Why an overlay member cannot be started.
pub(crate) fn start_words(what: StartWhat) -> Words
    ensures { texts_of result ≡ start_words what }
{
    match what {
        StartWhat::BadSegtab => Words::alone("BADSEGTAB"),
        StartWhat::BadNoteList(n) => Words::with("BADNOTELIST", Value::Number(n as u32)),
    }
}

/// Why a member cannot be placed.
pub(crate) fn place_words(what: PlaceWhat) -> Words
    ensures { texts_of result ≡ place_words what }
{
    match what {
        PlaceWhat::BadOrigin => Words::alone("BADORIGIN"),
        PlaceWhat::NoStorage(name) => Words::with("NOSTORAGE", Value::Named(name)),
        PlaceWhat::NotScatter => Words::alone("NOTSCATTER"),
    }
}

/// Why an event is refused.
pub(crate) fn event_words(what: EventWhat) -> Words
    ensures { texts_of result ≡ event_words what }
{
    match what {
        EventWhat::NoSuchPlace => Words::alone("NOSUCHPLACE"),
        EventWhat::NotResident(n) => Words::with("NOTRESIDENT", Value::Number(n as u32)),
        EventWhat::NotVcon => Words::alone("NOTVCON"),
        EventWhat::Unresolved(name) => Words::with("UNRESOLVED", Value::Named(name)),
        EventWhat::BadEntab(address) => Words::with("BADENTAB", Value::Address(address)),
        EventWhat::BadRecord(n) => Words::with("BADRECORD", Value::Number(n)),
        EventWhat::OutOfSection => Words::alone("OUTOFSECTION"),
        EventWhat::TouchesConstant => Words::alone("TOUCHESCONSTANT"),
    }
}
