//! A fault in words: its name, and what it speaks of.
ghost use Rattle.std.specs.Prelude.{◌≡◌, ◌++◌, ◌∷◌, [], OnOk};
ghost use Rattle.map_list.specs.Printed.{fields, decimal, printed_name, a6};
ghost use Rattle.map_list.specs.Words.{value_texts, texts_of};

use crate::printed::{push_address, push_name, push_number};
use le_bytes::{Memory, Name};

/// What a fault speaks of.
#[derive(Clone, Copy, Debug)]
pub(crate) enum Value {
    Nothing,
    Number(u32),
    Pair(u32, u32),
    Address(u32),
    Named(Name),
}

/// A fault's name in capitals, and what it speaks of.
#[derive(Clone, Copy, Debug)]
pub(crate) struct Words {
    pub(crate) name: &'static str,
    pub(crate) value: Value,
}

pub(crate) fn push_blank(out: &mut Vec<u8>) -> Result<(), Memory>
    ensures { OnOk result (out.new.items ≡ out.old.items ++ 32 ∷ []) }
{
    out.push(b' ')?;
    Ok(())
}

/// Puts a line feed at the end of `out`.
pub(crate) fn push_line_end(out: &mut Vec<u8>) -> Result<(), Memory>
    ensures { OnOk result (out.new.items ≡ out.old.items ++ 10 ∷ []) }
{
    out.push(b'\n')?;
    Ok(())
}

/// Puts a blank and a word at the end of `out`.
pub(crate) fn push_word(out: &mut Vec<u8>, word: &str) -> Result<(), Memory>
    ensures { OnOk result (out.new.items ≡ out.old.items ++ fields (word.now ∷ [])) }
{
    push_blank(out)?;
    out.extend_from_slice(word.as_bytes())?;
    Ok(())
}

/// Puts a blank and a name at the end of `out`.
pub(crate) fn push_name_field(out: &mut Vec<u8>, name: &Name) -> Result<(), Memory>
    ensures { OnOk result (out.new.items ≡ out.old.items ++ fields (printed_name name.now ∷ [])) }
{
    push_blank(out)?;
    push_name(out, name)
}

/// Puts a blank and an address at the end of `out`.
pub(crate) fn push_address_field(out: &mut Vec<u8>, address: u32) -> Result<(), Memory>
    ensures { OnOk result (out.new.items ≡ out.old.items ++ fields (a6 address ∷ [])) }
{
    push_blank(out)?;
    push_address(out, address)
}

/// Puts a blank and a number at the end of `out`.
pub(crate) fn push_number_field(out: &mut Vec<u8>, n: u64) -> Result<(), Memory>
    ensures { OnOk result (out.new.items ≡ out.old.items ++ fields (decimal n ∷ [])) }
{
    push_blank(out)?;
    push_number(out, n)
}

fn push_value(out: &mut Vec<u8>, value: &Value) -> Result<(), Memory>
    ensures { OnOk result (out.new.items ≡ out.old.items ++ fields (value_texts value.now)) }
{
    match *value {
        Value::Nothing => Ok(()),
        Value::Number(n) => push_number_field(out, n as u64),
        Value::Pair(m, n) => {
            push_number_field(out, m as u64)?;
            push_number_field(out, n as u64)
        }
        Value::Address(address) => push_address_field(out, address),
        Value::Named(name) => push_name_field(out, &name),
    }
}

/// Puts the words at the end of `out`, a blank before each.
pub(crate) fn push_texts(out: &mut Vec<u8>, words: &Words) -> Result<(), Memory>
    ensures { OnOk result (out.new.items ≡ out.old.items ++ fields (texts_of words.now)) }
{
    push_word(out, words.name)?;
    push_value(out, &words.value)
}

impl Words {
    /// The words of a fault that speaks of nothing.
    pub(crate) fn alone(name: &'static str) -> Words
        ensures { texts_of result ≡ name.now ∷ [] }
    {
        Words {
            name,
            value: Value::Nothing,
        }
    }

    /// The words of a fault that speaks of a value.
    pub(crate) fn with(name: &'static str, value: Value) -> Words
        ensures { texts_of result ≡ name.now ∷ value_texts value }
    {
        Words { name, value }
    }
}
