//! The text of a program, laid into its sections.
ghost use Rattle.std.specs.Prelude.{◌≡◌, map, fold, length, IfOk, OnOk};
ghost use Rattle.sym_mod.specs.Sound.{IsSoundProgram};
ghost use Rattle.relocate.specs.Agreeing.{stored_text};
ghost use Rattle.text_store.specs.Content.{LieInContent};
ghost use Rattle.text_store.specs.Whole.{content_of};
ghost use Rattle.block_storage.specs.Texts.{with_text};

use le_bytes::Memory;
use std::alloc::{AllocError, Global};
use sym_mod::{Program, Section, Text};
use text_store::{TextKeeper, WholeText};

/// The bytes of each section: those of its last text, and 0 where there is none.
/// Linear in the bytes of sections and texts.
///
/// # Errors
/// Want of memory.
pub(crate) fn stored(alloc: Global, p: &Program) -> Result<WholeText, Memory>
    requires { IsSoundProgram p.now }
    ensures { IfOk result (λ text. content_of text ≡ stored_text p.now) }
{
    let lengths = lengths(alloc, p.sections.as_slice())?;
    let mut text = WholeText::new(alloc, &lengths)?;
    lay_all(alloc, &mut text, p)?;
    Ok(text)
}

fn lengths(alloc: Global, sections: &[Section]) -> Result<Vec<u32>, AllocError>
    ensures { IfOk result (λ lengths. lengths.items ≡ map (λ x. x.length) sections.now) }
{
    let mut lengths = Vec::with_capacity(alloc, sections.len())?;
    for section in sections {
        lengths.push(section.length)?;
    }
    Ok(lengths)
}

/// Puts every text into its section, one after the other.
fn lay_all<K: TextKeeper>(alloc: Global, kept: &mut K, p: &Program) -> Result<(), Memory>
    requires sound { IsSoundProgram p.now }
    requires lengths { map length (K.content kept.old) ≡ map (λ x. x.length) p.now.sections }
    ensures { OnOk result (K.content kept.new ≡ fold with_text (K.content kept.old) p.now.texts) }
{
    for text in p.texts.as_slice() {
        lay(alloc, kept, text)?;
    }
    Ok(())
}

/// Puts one text into its section.
fn lay<K: TextKeeper>(alloc: Global, kept: &mut K, text: &Text) -> Result<(), Memory>
    requires { LieInContent (K.content kept.old) text.now.section text.now.offset (length text.now.bytes) }
    ensures { OnOk result (K.content kept.new ≡ with_text (K.content kept.old) text.now) }
{
    kept.set(alloc, text.section, text.offset, text.bytes.as_slice())
}
