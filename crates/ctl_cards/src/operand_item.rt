//! The items of an operand, in each operation's own form.
ghost use Rattle.std.specs.Prelude.{◌≡◌, List, ℕ, Bool, Result, refl};
ghost use Rattle.ctl_cards.specs.Statements.{Item, include_item, library_item, replace_item, change_item, name_item, IsIncludeItem, IsLibraryItem, IsReplaceItem, IsChangeItem};
ghost use Rattle.ctl_cards.specs.NameTexts.{IsWritable};
ghost use Rattle.ctl_cards.specs.Walk.{Form, include_form, library_form, replace_form, change_form, name_form};
ghost use Rattle.ctl_cards.specs.Reads.{ReadsItem, ReadsItems, ReadsOne, ReadsMarked};

use crate::operand::{CLOSE, COMMA, OPEN, Operand, STAR, Stop};
use crate::statement::{IncludeItem, LibraryItem};
use le_bytes::{Items, Name};
use std::alloc::Global;

/// What an operand may be a list of.
pub trait OperandItem {
    ghost form: { Bool → Form };

    ghost item: { Self → Item };

    ghost formed: { Self → Type 0 };

    /// Takes one item from the front.
    fn read(alloc: Global, operand: &mut Operand<'_>) -> Result<Self, Stop>
        ensures { ReadsItem form item formed operand.old.rest.now result operand.new.rest.now };

    ghost sets_many: { (many : Bool) → (form many).many ≡ many };
}

impl OperandItem for Name {
    ghost form = { name_form };

    ghost item = { name_item };

    ghost formed = { IsWritable };

    ghost sets_many = { λ _. refl };

    fn read(_alloc: Global, operand: &mut Operand<'_>) -> Result<Name, Stop> {
        operand.name()
    }
}

impl OperandItem for IncludeItem {
    ghost form = { include_form };

    ghost item = { include_item };

    ghost formed = { IsIncludeItem };

    ghost sets_many = { λ _. refl };

    fn read(alloc: Global, operand: &mut Operand<'_>) -> Result<IncludeItem, Stop> {
        let dd = operand.name()?;
        let members = if operand.take(OPEN) {
            operand.names(alloc)?
        } else {
            Items::new(alloc)
        };
        Ok(IncludeItem { dd, members })
    }
}

impl OperandItem for LibraryItem {
    ghost form = { library_form };

    ghost item = { library_item };

    ghost formed = { IsLibraryItem };

    ghost sets_many = { λ _. refl };

    fn read(alloc: Global, operand: &mut Operand<'_>) -> Result<LibraryItem, Stop> {
        if operand.take(OPEN) {
            Ok(LibraryItem::NoCall(operand.names(alloc)?))
        } else if operand.take(STAR) {
            operand.expect(OPEN)?;
            Ok(LibraryItem::NeverCall(operand.names(alloc)?))
        } else {
            let dd = operand.name()?;
            operand.expect(OPEN)?;
            Ok(LibraryItem::From(dd, operand.names(alloc)?))
        }
    }
}

/// An item of REPLACE.
impl OperandItem for (Name, Option<Name>) {
    ghost form = { replace_form };

    ghost item = { replace_item };

    ghost formed = { IsReplaceItem };

    ghost sets_many = { λ _. refl };

    fn read(_alloc: Global, operand: &mut Operand<'_>) -> Result<(Name, Option<Name>), Stop> {
        let old = operand.name()?;
        if !operand.take(OPEN) {
            return Ok((old, None));
        }
        let new = operand.name()?;
        operand.expect(CLOSE)?;
        Ok((old, Some(new)))
    }
}

/// An item of CHANGE.
impl OperandItem for (Name, Name) {
    ghost form = { change_form };

    ghost item = { change_item };

    ghost formed = { IsChangeItem };

    ghost sets_many = { λ _. refl };

    fn read(_alloc: Global, operand: &mut Operand<'_>) -> Result<(Name, Name), Stop> {
        let old = operand.name()?;
        operand.expect(OPEN)?;
        let new = operand.name()?;
        operand.expect(CLOSE)?;
        Ok((old, new))
    }
}

/// All items of an operand, with commas between them, to its end.
pub fn items<T: OperandItem + Drop>(
    alloc: Global,
    operand: &mut Operand<'_>,
) -> Result<Items<T>, Stop>
    ensures { ReadsItems T.form T.item T.formed operand.old.rest.now result operand.new.rest.now }
{
    let mut items = Items::new(alloc);
    items.push(T::read(alloc, operand)?)?;
    while operand.take(COMMA) {
        items.push(T::read(alloc, operand)?)?;
    }
    operand.end()?;
    Ok(items)
}

/// An operand that is one name.
pub fn one_name(operand: &mut Operand<'_>) -> Result<Name, Stop>
    ensures { ReadsOne name_form name_item IsWritable operand.old.rest.now result operand.new.rest.now }
{
    let name = operand.name()?;
    operand.end()?;
    Ok(name)
}

/// An operand that is one name, and perhaps this word in parentheses behind it.
pub fn marked_name(operand: &mut Operand<'_>, word: &[u8]) -> Result<(Name, bool), Stop>
    ensures { ReadsMarked word.now operand.old.rest.now result operand.new.rest.now }
{
    let name = operand.name()?;
    let marked = operand.take(OPEN);
    if marked {
        operand.word(word)?;
        operand.expect(CLOSE)?;
    }
    operand.end()?;
    Ok((name, marked))
}
