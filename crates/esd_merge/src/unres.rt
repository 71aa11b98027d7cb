//! The unresolved names, one after the other, and the numbers of labels.
ghost use Rattle.std.specs.Prelude.{◌≡◌, ◌≤◌, filter_map, length, option_map};
ghost use Rattle.esd_index.specs.Keys.{as_symbol};
ghost use Rattle.esd_index.specs.Contents.{now_of};
ghost use Rattle.esd_merge.specs.Left.{target_of};
ghost use Rattle.esd_lists.specs.Looked.{IsNumbered};
ghost use Rattle.esd_merge.specs.Rest.{names_left, YieldsName, has_label_by, label_from};

use crate::defined::Defined;
use esd_index::{Index, Key};
use esd_lists::unknown;
use le_bytes::Name;

/// The unresolved names in order of first appearance, each with whether it is weak.
#[derive(Drop)]
pub struct Unres<'a> {
    index: &'a Index,
    rest: &'a [Key],
    /// Where the next section is likely to stand.
    next: usize,
}

impl<'a> Unres<'a> {
    ghost use Rattle.std.specs.Prelude.{◌≡◌};
    ghost use Rattle.esd_index.specs.Contents.{now_of};
    ghost use Rattle.esd_merge.specs.Rest.{names_left, names_in, YieldsName};

    /// Those of all modules.
    pub(crate) fn new(index: &'a Index) -> Unres<'a>
        ensures { names_left result ≡ names_in (now_of index.now) (now_of index.now).symbols }
    {
        Unres {
            index,
            rest: index.table.symbols().keys(),
            next: 0,
        }
    }
}

impl Unres<'_> {
    /// The next name, if one is left.
    fn next_name(&mut self) -> Option<(Name, bool)>
        ensures { YieldsName self.old result self.new }
    {
        while let [key, rest @ ..] = self.rest {
            self.rest = rest;
            if let Some(x) = unknown(self.index, &mut self.next, key) {
                return Some((x.name, x.weak));
            }
        }
        None
    }
}

impl Iterator for Unres<'_> {
    ghost use Rattle.std.specs.Iterator.{YieldsFirst, item_count};
    ghost use Rattle.esd_merge.specs.Rest.{names_left};

    type Item = (Name, bool);

    ghost next_gives = { YieldsFirst names_left };

    ghost remaining = { item_count names_left };

    fn next(&mut self) -> Option<(Name, bool)> {
        self.next_name()
    }
}

fn has_label(index: &Index, key: &Key) -> bool
    ensures { result ≡ has_label_by (now_of index.now) (as_symbol key.now) }
{
    match key {
        Key::Named(_) => index.labels.has(key),
        Key::Private(..) => false,
    }
}

/// The label of a name, where one has it.
#[tactic(auto, using(crate::proofs::Defining::no_label))]
pub(crate) fn label(index: &Index, name: &Name) -> Option<Defined>
    requires { IsNumbered (now_of index.now) }
    ensures { target_of result ≡ label_from (now_of index.now) name.now 0 (now_of index.now).symbols }
{
    if index.labels.has(&Key::Named(*name)) {
        label_number(index, name)
    } else {
        None
    }
}

/// The label of a name: its place among the symbols that have a label.
fn label_number(index: &Index, name: &Name) -> Option<Defined>
    requires { IsNumbered (now_of index.now) }
    ensures { target_of result ≡ label_from (now_of index.now) name.now 0 (now_of index.now).symbols }
{
    let mut number: u32 = 0;
    for key in index.table.symbols().keys() {
        if has_label(index, key) {
            if *key == Key::Named(*name) {
                return Some(Defined::Label(number));
            }
            number += 1;
        }
    }
    None
}
