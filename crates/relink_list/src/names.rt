//! Names that statements can write, and the symbols of OVERLAY statements.
ghost use Rattle.std.specs.Prelude.{◌≡◌, ◌≤◌, length};
ghost use Rattle.std.specs.List.{list_all, prefix_len};
ghost use Rattle.le_bytes.specs.Names.{is_writable};
ghost use Rattle.ctl_cards.specs.Cards.{is_blank, is_filled};
ghost use Rattle.ctl_cards.specs.NameTexts.{begins_name, stands_in_name};
ghost use Rattle.relink_list.specs.Segments.{symbol_name};
ghost use Rattle.relink_list.specs.Writable.{is_word};

use le_bytes::{Name, to_ascii};

/// The EBCDIC blank.
const BLANK: u8 = 0x40;

/// Whether a statement can write the name: it is 1 to 8 of A-Z, 0-9, `$`, `#`, `@` and `_`, the first of them
/// no digit, and blanks.
pub fn is_writable(name: &Name) -> bool
    ensures { result ≡ is_writable name.now }
{
    let (front, rest) = name.0.split_at(written_length(&name.0));
    is_word(front) && are_blanks(rest)
}

/// How many characters come before the first blank.
fn written_length(bytes: &[u8]) -> usize
    ensures value { result ≡ prefix_len is_filled bytes.now }
    ensures within { result ≤ length bytes.now }
{
    bytes.iter().take_while(|b| **b != BLANK).count()
}

fn are_blanks(bytes: &[u8]) -> bool
    ensures { result ≡ list_all is_blank bytes.now }
{
    bytes.iter().all(|b| *b == BLANK)
}

fn is_word(bytes: &[u8]) -> bool
    ensures { result ≡ is_word bytes.now }
{
    match bytes {
        [first, rest @ ..] => begins_name(*first) && all_stand_in_name(rest),
        [] => false,
    }
}

fn all_stand_in_name(bytes: &[u8]) -> bool
    ensures { result ≡ list_all stands_in_name bytes.now }
{
    bytes.iter().all(|b| stands_in_name(*b))
}

#[tactic(auto, unfolding(ctl_cards::specs::NameTexts::begins_name))]
fn begins_name(b: u8) -> bool
    ensures { result ≡ begins_name b }
{
    matches!(to_ascii(b), b'A'..=b'Z' | b'$' | b'#' | b'@' | b'_')
}

#[tactic(auto, unfolding(ctl_cards::specs::NameTexts::stands_in_name, ctl_cards::specs::NameTexts::begins_name))]
fn stands_in_name(b: u8) -> bool
    ensures { result ≡ stands_in_name b }
{
    begins_name(b) || to_ascii(b).is_ascii_digit()
}

/// A letter in EBCDIC and a number in three decimal digits, as a name.
pub(crate) fn symbol_name(letter: u8, n: u8) -> Name
    ensures { result ≡ symbol_name letter n }
{
    Name([
        letter,
        0xF0 + n / 100,
        0xF0 + n / 10 % 10,
        0xF0 + n % 10,
        BLANK,
        BLANK,
        BLANK,
        BLANK,
    ])
}
