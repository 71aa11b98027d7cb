//! Fields at the end of a text.
ghost use Rattle.std.specs.Prelude.{◌≡◌, ◌++◌, ◌∷◌, [], map, OnOk};
ghost use Rattle.le_bytes.specs.Codes.{ascii_of};
ghost use Rattle.map_list.specs.Printed.{fields, decimal, printed_name, a6};
ghost use Rattle.list_text.specs.Padded.{padded_name};

use le_bytes::{Memory, Name, to_ascii};
use map_list::{push_address, push_name, push_number};

/// The eight characters of a name, the blanks at its end among them.
#[tactic(auto, unfolding(crate::specs::Padded::padded_name))]
pub(crate) fn padded_name(name: &Name) -> [u8; 8]
    ensures { result ≡ padded_name name.now }
{
    let [a, b, c, d, e, f, g, h] = name.0;
    [
        to_ascii(a),
        to_ascii(b),
        to_ascii(c),
        to_ascii(d),
        to_ascii(e),
        to_ascii(f),
        to_ascii(g),
        to_ascii(h),
    ]
}

/// Puts a line feed at the end of `out`.
pub(crate) fn push_line_end(out: &mut Vec<u8>) -> Result<(), Memory>
    ensures { OnOk result (out.new.items ≡ out.old.items ++ 10 ∷ []) }
{
    out.push(b'\n')?;
    Ok(())
}

/// Puts a name at the end of `out`, with blanks after it up to eight characters.
pub(crate) fn push_padded(out: &mut Vec<u8>, name: &Name) -> Result<(), Memory>
    ensures { OnOk result (out.new.items ≡ out.old.items ++ padded_name name.now) }
{
    out.extend_from_slice(&padded_name(name))?;
    Ok(())
}

/// Puts a blank and a word at the end of `out`.
pub(crate) fn push_word(out: &mut Vec<u8>, word: &str) -> Result<(), Memory>
    ensures { OnOk result (out.new.items ≡ out.old.items ++ fields (word.now ∷ [])) }
{
    out.push(b' ')?;
    out.extend_from_slice(word.as_bytes())?;
    Ok(())
}

/// Puts a blank and a name at the end of `out`.
pub(crate) fn push_name_field(out: &mut Vec<u8>, name: &Name) -> Result<(), Memory>
    ensures { OnOk result (out.new.items ≡ out.old.items ++ fields (printed_name name.now ∷ [])) }
{
    out.push(b' ')?;
    push_name(out, name)
}

/// Puts a blank and an address at the end of `out`.
pub(crate) fn push_address_field(out: &mut Vec<u8>, address: u32) -> Result<(), Memory>
    ensures { OnOk result (out.new.items ≡ out.old.items ++ fields (a6 address ∷ [])) }
{
    out.push(b' ')?;
    push_address(out, address)
}

/// Puts a blank and a number at the end of `out`.
pub(crate) fn push_number_field(out: &mut Vec<u8>, n: u64) -> Result<(), Memory>
    ensures { OnOk result (out.new.items ≡ out.old.items ++ fields (decimal n ∷ [])) }
{
    out.push(b' ')?;
    push_number(out, n)
}
