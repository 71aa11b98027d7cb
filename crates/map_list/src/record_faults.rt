//! The word of a record's fault.
ghost use Rattle.std.specs.Prelude.{◌≡◌};
ghost use Rattle.map_list.specs.RecordFaults.{record_words};
ghost use Rattle.map_list.specs.Words.{texts_of};

use crate::words::Words;
use le_bytes::RecWhat;

/// The word of a record's fault.
pub(crate) fn record_words(what: RecWhat) -> Words
    ensures { texts_of result ≡ record_words what }
{
    match what {
        RecWhat::UnknownId => Words::alone("UNKNOWNID"),
        RecWhat::BadLength => Words::alone("BADLENGTH"),
        RecWhat::BadType => Words::alone("BADTYPE"),
        RecWhat::BadFlag => Words::alone("BADFLAG"),
        RecWhat::BadOrder => Words::alone("BADORDER"),
        RecWhat::BadEsdid => Words::alone("BADESDID"),
        RecWhat::SectionOutside => Words::alone("SECTIONOUTSIDE"),
        RecWhat::BadEntryPoint => Words::alone("BADENTRYPOINT"),
        RecWhat::BadScatter => Words::alone("BADSCATTER"),
        RecWhat::TextOutside => Words::alone("TEXTOUTSIDE"),
        RecWhat::ConstantOutside => Words::alone("CONSTANTOUTSIDE"),
        RecWhat::ConstantsOverlap => Words::alone("CONSTANTSOVERLAP"),
        RecWhat::NoEnd => Words::alone("NOEND"),
    }
}
