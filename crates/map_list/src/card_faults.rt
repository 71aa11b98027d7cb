//! The words of a card's fault.
ghost use Rattle.std.specs.Prelude.{◌≡◌};
ghost use Rattle.map_list.specs.CardFaults.{card_words};
ghost use Rattle.map_list.specs.Words.{texts_of};

use crate::words::{Value, Words};
use le_bytes::CardWhat;

/// The words of a card's fault.
pub(crate) fn card_words(what: CardWhat) -> Words
    ensures { texts_of result ≡ card_words what }
{
    match what {
        CardWhat::ShortCard => Words::alone("SHORTCARD"),
        CardWhat::UnknownCard => Words::alone("UNKNOWNCARD"),
        CardWhat::BadCount => Words::alone("BADCOUNT"),
        CardWhat::BadEsdType => Words::alone("BADESDTYPE"),
        CardWhat::BadFlag => Words::alone("BADFLAG"),
        CardWhat::BadEsdid => Words::alone("BADESDID"),
        CardWhat::UnknownEsdid => Words::alone("UNKNOWNESDID"),
        CardWhat::TextOutside => Words::alone("TEXTOUTSIDE"),
        CardWhat::ConstantOutside => Words::alone("CONSTANTOUTSIDE"),
        CardWhat::LabelOutside => Words::alone("LABELOUTSIDE"),
        CardWhat::EntryOutside => Words::alone("ENTRYOUTSIDE"),
        CardWhat::ConstantsOverlap => Words::alone("CONSTANTSOVERLAP"),
        CardWhat::ReservedName => Words::alone("RESERVEDNAME"),
        CardWhat::NoEnd => Words::alone("NOEND"),
        CardWhat::UnknownOperation => Words::alone("UNKNOWNOPERATION"),
        CardWhat::BadOperand(n) => Words::with("BADOPERAND", Value::Number(n)),
        CardWhat::NoContinuation => Words::alone("NOCONTINUATION"),
        CardWhat::TooMany => Words::alone("TOOMANY"),
        CardWhat::NoModule => Words::alone("NOMODULE"),
        CardWhat::EditNotThere(name) => Words::with("EDITNOTTHERE", Value::Named(name)),
        CardWhat::EditClash(name) => Words::with("EDITCLASH", Value::Named(name)),
        CardWhat::NoSuchDd(name) => Words::with("NOSUCHDD", Value::Named(name)),
        CardWhat::BadDd(name) => Words::with("BADDD", Value::Named(name)),
        CardWhat::MemberAbsent(name) => Words::with("MEMBERABSENT", Value::Named(name)),
        CardWhat::NotHere => Words::alone("NOTHERE"),
        CardWhat::NoOvly => Words::alone("NOOVLY"),
        CardWhat::RegionNameUsed(name) => Words::with("REGIONNAMEUSED", Value::Named(name)),
    }
}
