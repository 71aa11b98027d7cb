//! The text of a program with the numbers of its constants.
ghost use Rattle.std.specs.Prelude.{◌≡◌, ◌+◌, ◌≤◌, ◌∷◌, [], IfOk, IsTrue};
ghost use Rattle.sym_mod.specs.Sound.{IsSoundProgram};
ghost use Rattle.linking_model.specs.Tree.{root};
ghost use Rattle.linking_model.specs.Places.{module_length};
ghost use Rattle.linking_model.specs.Linked.{block};
ghost use Rattle.addr_assign.specs.Laid.{are_in_tree, places_of};
ghost use Rattle.relocate.specs.Agreeing.{linked_text};
ghost use Rattle.text_store.specs.Whole.{content_of};
ghost use Rattle.block_storage.specs.Storage.{alone};

use crate::laying::stored;
use crate::moving::moved;
use le_bytes::{Items, Memory};
use relocate::relocate_all;
use seg_tree::SegTree;
use std::alloc::Global;
use sym_mod::{Places, Program, Tables};
use text_store::WholeText;

/// The text of each section of a program of one segment, linked, where its module stands at `origin`.
/// Linear in bytes, texts and terms.
///
/// # Errors
/// Want of memory.
pub fn linked_text(
    alloc: Global,
    p: &Program,
    tree: &SegTree,
    a: &Places,
    origin: u32,
) -> Result<WholeText, Memory>
    requires sound { IsSoundProgram p.now }
    requires one { tree.now.tree ≡ root ∷ [] }
    requires in_tree { IsTrue (are_in_tree tree.now.tree p.now) }
    requires placed { a.now ≡ places_of (alone p.now) }
    requires near { origin + module_length (alone p.now) ≤ 16777215 }
    ensures { IfOk result (λ text. content_of text ≡ linked_text (alone p.now) (block (alone p.now) origin)) }
{
    let mut text = stored(alloc, p)?;
    let addresses = moved(alloc, a, origin)?;
    let tables = no_entries(alloc)?;
    relocate_all(&mut text, p, &addresses, tree, &tables);
    Ok(text)
}

/// The tables of a program of one segment, which has no entries.
fn no_entries(alloc: Global) -> Result<Tables, Memory>
    ensures { IfOk result (λ tables. tables.entries ≡ [] ∷ []) }
{
    let mut entries = Items::new(alloc);
    entries.push(Items::new(alloc))?;
    Ok(Tables { entries })
}
