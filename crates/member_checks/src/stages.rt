//! The order of the kinds of records.
ghost use Rattle.std.specs.Prelude.{◌≡◌, nat_lt};
ghost use Rattle.load_recs.specs.Records.{record_of};
ghost use Rattle.member_model.specs.Facts.{stage_of};
ghost use Rattle.member_model.specs.Faults.{is_asked};
ghost use Rattle.member_checks.specs.Stages.{place_of};

use load_recs::Rec;
use pds_lib::Entry;

/// The kinds of records in the order in which they come.
#[derive(Clone, Copy, Debug, PartialEq, Eq)]
pub enum Stage {
    /// Symbol records.
    Symbols,
    /// Scatter records.
    Scatter,
    /// Translation records.
    Translation,
    /// Note records.
    Notes,
    /// The records of segments.
    Segments,
}

impl Stage {
    fn place(self) -> u8
        ensures { result ≡ place_of self }
    {
        match self {
            Stage::Symbols => 0,
            Stage::Scatter => 1,
            Stage::Translation => 2,
            Stage::Notes => 3,
            Stage::Segments => 4,
        }
    }

    /// Whether records of this kind come before those of the other.
    pub fn is_before(self, other: Stage) -> bool
        ensures { result ≡ nat_lt (place_of self) (place_of other) }
    {
        self.place() < other.place()
    }
}

/// The kind of a record.
pub fn stage_of(held: &Rec<'_>) -> Stage
    ensures { place_of result ≡ stage_of (record_of held.now) }
{
    match held {
        Rec::Cesd(..) => Stage::Symbols,
        Rec::Scatter(..) => Stage::Scatter,
        Rec::Translation(..) => Stage::Translation,
        Rec::Note(..) => Stage::Notes,
        Rec::Control(..) | Rec::Rld(..) | Rec::ControlRld(..) | Rec::Text(..) => Stage::Segments,
    }
}

/// Whether the attribute asks for records of this kind.
pub fn is_asked(e: &Entry, held: &Rec<'_>) -> bool
    ensures { result ≡ is_asked e.now (record_of held.now) }
{
    match held {
        Rec::Scatter(..) | Rec::Translation(..) => e.is_scatter(),
        Rec::Note(..) => e.is_overlay(),
        Rec::Cesd(..) | Rec::Control(..) | Rec::Rld(..) | Rec::ControlRld(..) | Rec::Text(..) => {
            true
        }
    }
}
