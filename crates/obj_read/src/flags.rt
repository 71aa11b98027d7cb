//! The flag of an item of the relocation dictionary (GC28-6538).
ghost use Rattle.std.specs.Prelude.{◌≡◌, ◌≤◌};
ghost use Rattle.obj_read.specs.Flags.{kind_of_flag, length_of_flag, is_minus};

use obj_cards::CardRld;
use sym_mod::Kind;

/// What the constant is filled with.
pub fn kind_of(term: &CardRld) -> Kind
    ensures { result ≡ kind_of_flag term.now.flag }
{
    match term.flag / 16 {
        0 => Kind::Address,
        1 => Kind::Branch,
        2 => Kind::Displacement,
        _ => Kind::Total,
    }
}

/// The length of the constant in bytes, 1 to 4.
pub fn length_of(term: &CardRld) -> u8
    ensures length { result ≡ length_of_flag term.now.flag }
    ensures some { 1 ≤ result }
    ensures most { result ≤ 4 }
{
    term.flag / 4 % 4 + 1
}

/// Whether the term is subtracted.
pub fn is_minus(term: &CardRld) -> bool
    ensures { result ≡ is_minus term.now.flag }
{
    term.flag / 2 % 2 == 1
}
