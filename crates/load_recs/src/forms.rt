//! The form of a record, by its first byte.
ghost use Rattle.std.specs.Prelude.{◌≡◌};
ghost use Rattle.load_recs.specs.Forms.{ends_of, form_of};

use crate::records::Ends;

/// What a record is by its identifier.
#[derive(Clone, Copy, Debug, PartialEq, Eq)]
pub enum Form {
    Symbols,
    /// Scatter or translation items, by the subtype.
    Sections,
    Notes,
    Control(Ends),
    Rld(Ends),
    ControlRld(Ends),
    Unknown,
}

fn ends_of(identifier: u8) -> Ends
    ensures { result ≡ ends_of identifier }
{
    Ends {
        segment: identifier >= 4,
        module: identifier >= 8,
    }
}

/// The form of the record that begins with this byte.
pub fn form_of(identifier: u8) -> Form
    ensures { result ≡ form_of identifier }
{
    match identifier {
        0x20 => Form::Symbols,
        0x10 => Form::Sections,
        0x60 => Form::Notes,
        0x01 | 0x05 | 0x0D => Form::Control(ends_of(identifier)),
        0x02 | 0x06 | 0x0E => Form::Rld(ends_of(identifier)),
        0x03 | 0x07 | 0x0F => Form::ControlRld(ends_of(identifier)),
        _ => Form::Unknown,
    }
}
