//! Relocation items by address.
ghost use Rattle.std.specs.Prelude.{◌≡◌, OnOk};
ghost use Rattle.member_model.specs.Chunks.{by_address};

use load_recs::RldItem;
use std::alloc::AllocError;

/// Puts the items in the order of their addresses, those of one address as they stood.
///
/// # Errors
/// Want of memory.
pub(crate) fn by_address(items: &mut Vec<RldItem>) -> Result<(), AllocError>
    ensures { OnOk result (items.new.items ≡ by_address items.old.items) }
{
    items.sort_by_key(|x| x.address)?;
    Ok(())
}
