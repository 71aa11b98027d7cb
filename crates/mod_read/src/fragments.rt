//! The text of a member, and that of the module.
ghost use Rattle.std.specs.Prelude.{◌≡◌, [], map, IfOk};
ghost use Rattle.member_model.specs.ReadBack.{fragment_of, fragments_of};
ghost use Rattle.mod_read.specs.Gathered.{text_of, text_at, holding, with_text};

use crate::numbering::Numbering;
use le_bytes::{Bytes, Items};
use member_walk::TextPlace;
use std::alloc::{AllocError, Global};
use sym_mod::Frag;

/// The text of a text record.
#[derive(Drop)]
pub(crate) struct LoadedText {
    /// The segment's number, from 1.
    pub segment: u32,
    /// The item number of its section, from 1.
    pub section: u32,
    /// The address in the member of its first byte.
    pub address: u32,
    pub bytes: Bytes,
}

/// The text of a record that lies there.
pub(crate) fn text_at(
    alloc: Global,
    place: TextPlace,
    bytes: &[u8],
) -> Result<LoadedText, AllocError>
    ensures { IfOk result (λ text. text_of text ≡ text_at place bytes.now) }
{
    Ok(LoadedText {
        segment: place.segment,
        section: place.section,
        address: place.address,
        bytes: Bytes::from_slice(alloc, bytes)?,
    })
}

/// The text of the module: that of the sections that are kept, in the order of its records. Linear in
/// the records; no byte is copied.
///
/// # Errors
/// Out of memory.
pub(crate) fn fragments(
    alloc: Global,
    numbering: &Numbering,
    texts: Vec<LoadedText>,
) -> Result<Items<Frag>, AllocError>
    ensures { IfOk result (λ made. made ≡ fragments_of (holding numbering.now (map text_of texts.items) [])) }
{
    let mut made = Vec::new(alloc);
    for text in texts {
        made = with_text(numbering, made, text)?;
    }
    Ok(Items::from_vec(made))
}

/// The text of the module with this, if its section is kept.
#[tactic(auto, unfolding(crate::specs::Gathered::with_text))]
fn with_text(
    numbering: &Numbering,
    made: Vec<Frag>,
    text: LoadedText,
) -> Result<Vec<Frag>, AllocError>
    ensures { IfOk result (λ more. more.items ≡ with_text numbering.now made.items text) }
{
    let mut made = made;
    if numbering.is_kept_at(text.section) {
        made.push(fragment(numbering, text))?;
    }
    Ok(made)
}

/// A text as text of its section.
fn fragment(numbering: &Numbering, text: LoadedText) -> Frag
    ensures { result ≡ fragment_of (holding numbering.now [] []) (text_of text) }
{
    Frag {
        item: numbering.number(text.section),
        offset: text.address.saturating_sub(numbering.address(text.section)),
        bytes: text.bytes,
    }
}
