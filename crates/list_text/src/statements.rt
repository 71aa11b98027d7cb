//! The statements that link a member again, as lines and as cards.
ghost use Rattle.std.specs.Prelude.{◌≡◌, ◌+◌, ◌-◌, ◌≤◌, ◌++◌, length, map, replicate, flat_map, IfOk, OnOk};
ghost use Rattle.list_text.specs.Statements.{code_of, card_of, line_of, with_name, segment_texts, texts_of, insert_text, alias_text, relink_texts, statements_text, statement_cards};
ghost use Rattle.list_text.specs.Forms.{spelled};

use crate::fields::push_line_end;
use crate::relinking::{Relink, RelinkSegment};
use le_bytes::{Memory, Name, from_ascii};
use map_list::{name_text, push_name};
use std::alloc::Global;

/// The bytes of a card.
const CARD: usize = 80;

/// The EBCDIC blank.
const BLANK: u8 = 0x40;

/// What each statement is written as.
#[derive(Clone, Copy, Debug)]
pub(crate) enum Form {
    Lines,
    Cards,
}

/// The statements that link a member again, a line for each: INCLUDE of the member in SYSLMOD, for each
/// segment OVERLAY and an INSERT for each of its sections, an ALIAS for each other name, and NAME with (R).
/// The statements are those of GC28-6538.
///
/// # Errors
/// Out of memory.
pub fn statements_text(alloc: Global, s: &Relink) -> Result<Vec<u8>, Memory>
    ensures { IfOk result (λ text. text.items ≡ statements_text s.now) }
{
    let mut out = Vec::new(alloc);
    push_statements(&mut out, s)?;
    Ok(out)
}

/// The same statements as cards of 80 bytes in EBCDIC, one for each: the text stands from column 1, and
/// blanks after it. A character that is printed as `.` is X'4B' here.
///
/// # Errors
/// Out of memory.
pub fn statement_cards(alloc: Global, s: &Relink) -> Result<Vec<u8>, Memory>
    ensures { IfOk result (λ cards. cards.items ≡ statement_cards s.now) }
{
    let mut out = Vec::new(alloc);
    push_cards(&mut out, s)?;
    Ok(out)
}

/// Puts the lines of the statements at the end of `out`. After out of memory a part of them may stand
/// there.
///
/// # Errors
/// Out of memory.
#[tactic(auto, unfolding(crate::specs::Statements::statements_text))]
pub fn push_statements(out: &mut Vec<u8>, s: &Relink) -> Result<(), Memory>
    ensures { OnOk result (out.new.items ≡ out.old.items ++ statements_text s.now) }
{
    push_all(out, Form::Lines, s)
}

/// Puts the cards of the statements at the end of `out`. After out of memory a part of them may stand
/// there.
///
/// # Errors
/// Out of memory.
#[tactic(auto, unfolding(crate::specs::Statements::statement_cards))]
pub fn push_cards(out: &mut Vec<u8>, s: &Relink) -> Result<(), Memory>
    ensures { OnOk result (out.new.items ≡ out.old.items ++ statement_cards s.now) }
{
    push_all(out, Form::Cards, s)
}

fn push_all(out: &mut Vec<u8>, form: Form, s: &Relink) -> Result<(), Memory>
    ensures { OnOk result (out.new.items ≡ out.old.items ++ flat_map (spelled form) (relink_texts s.now)) }
{
    push_statement(out, form, " INCLUDE SYSLMOD(", &s.member, ")")?;
    push_segments(out, form, s.segments.as_slice())?;
    push_aliases(out, form, s.aliases.as_slice())?;
    push_statement(out, form, " NAME ", &s.member, "(R)")?;
    Ok(())
}

fn push_segments(out: &mut Vec<u8>, form: Form, segments: &[RelinkSegment]) -> Result<(), Memory>
    ensures { OnOk result (out.new.items ≡ out.old.items ++ flat_map (spelled form) (texts_of segments.now)) }
{
    for segment in segments {
        push_segment(out, form, segment)?;
    }
    Ok(())
}

fn push_segment(out: &mut Vec<u8>, form: Form, segment: &RelinkSegment) -> Result<(), Memory>
    ensures { OnOk result (out.new.items ≡ out.old.items ++ flat_map (spelled form) (segment_texts segment.now)) }
{
    if segment.region {
        push_statement(out, form, " OVERLAY ", &segment.symbol, "(REGION)")?;
    } else {
        push_statement(out, form, " OVERLAY ", &segment.symbol, "")?;
    }
    push_inserts(out, form, segment.inserts.as_slice())
}

fn push_inserts(out: &mut Vec<u8>, form: Form, sections: &[Name]) -> Result<(), Memory>
    ensures { OnOk result (out.new.items ≡ out.old.items ++ flat_map (spelled form) (map insert_text sections.now)) }
{
    for section in sections {
        push_statement(out, form, " INSERT ", section, "")?;
    }
    Ok(())
}

fn push_aliases(out: &mut Vec<u8>, form: Form, names: &[Name]) -> Result<(), Memory>
    ensures { OnOk result (out.new.items ≡ out.old.items ++ flat_map (spelled form) (map alias_text names.now)) }
{
    for name in names {
        push_statement(out, form, " ALIAS ", name, "")?;
    }
    Ok(())
}

/// Puts a statement at the end of `out`: a text, a name, and a text after it.
fn push_statement(
    out: &mut Vec<u8>,
    form: Form,
    before: &str,
    name: &Name,
    after: &str,
) -> Result<(), Memory>
    requires { length before.now + 8 + length after.now ≤ CARD }
    ensures { OnOk result (out.new.items ≡ out.old.items ++ spelled form (with_name before.now name.now after.now)) }
{
    match form {
        Form::Lines => push_line(out, before, name, after),
        Form::Cards => push_card(out, before, name, after),
    }
}

#[tactic(auto, unfolding(crate::specs::Statements::line_of))]
fn push_line(out: &mut Vec<u8>, before: &str, name: &Name, after: &str) -> Result<(), Memory>
    ensures { OnOk result (out.new.items ≡ out.old.items ++ line_of (with_name before.now name.now after.now)) }
{
    out.extend_from_slice(before.as_bytes())?;
    push_name(out, name)?;
    out.extend_from_slice(after.as_bytes())?;
    push_line_end(out)
}

#[tactic(auto, unfolding(crate::specs::Statements::card_of))]
fn push_card(out: &mut Vec<u8>, before: &str, name: &Name, after: &str) -> Result<(), Memory>
    requires { length before.now + 8 + length after.now ≤ CARD }
    ensures { OnOk result (out.new.items ≡ out.old.items ++ card_of (with_name before.now name.now after.now)) }
{
    let (text, written) = name_text(name);
    push_codes(out, before.as_bytes())?;
    push_codes(out, &text[..written])?;
    push_codes(out, after.as_bytes())?;
    push_rest(out, before.len() + written + after.len())
}

/// Puts the EBCDIC codes of a text at the end of `out`.
fn push_codes(out: &mut Vec<u8>, text: &[u8]) -> Result<(), Memory>
    ensures { OnOk result (out.new.items ≡ out.old.items ++ map code_of text.now) }
{
    for c in text {
        out.push(code(*c))?;
    }
    Ok(())
}

/// The EBCDIC code of a character, a blank where it has none here.
fn code(c: u8) -> u8
    ensures { result ≡ code_of c }
{
    from_ascii(c).unwrap_or(BLANK)
}

/// Puts the blanks of a card after so many characters at the end of `out`.
fn push_rest(out: &mut Vec<u8>, written: usize) -> Result<(), Memory>
    requires { written ≤ CARD }
    ensures { OnOk result (out.new.items ≡ out.old.items ++ replicate (80 - written) 64) }
{
    let blanks = [BLANK; CARD];
    out.extend_from_slice(&blanks[written..])?;
    Ok(())
}
