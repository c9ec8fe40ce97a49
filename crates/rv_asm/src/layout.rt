//! Where the labels of a list stand, and which form each of its items has.
ghost use Rattle.std.specs.Prelude.{
  ◌≡◌,
  ℕ,
  ◌+◌,
  ◌<◌,
  ◌≤◌,
  ◌^◌,
  IfOk,
  OnOk,
  Some,
  slice_get,
  length,
};
ghost use Rattle.rv_asm.specs.declared.item.Item.TheVariants as ItemVariants;
ghost use Rattle.rv_asm.specs.Items.{AreApart, target_of};
ghost use Rattle.rv_asm.specs.Forms.{
  size_of,
  size,
  start,
  longest,
  chosen,
  shortest,
  target_place,
};
ghost use Rattle.rv_asm.specs.Tables.{HasRoom, Holds, IsWithin, entry, marked};

use crate::form::Form;
use crate::item::{Item, Label};
use std::alloc::{AllocError, Global};

impl Item {
    /// The label that this item goes to.
    pub(crate) fn target(&self) -> Option<Label>
        ensures { result ≡ target_of self.now }
    {
        match self {
            Item::Label(_) | Item::Instr(_) => None,
            Item::Jump { to } | Item::Call { to } | Item::Branch { to, .. } => Some(*to),
        }
    }
}

/// The longest form for each item.
pub(crate) fn longest_forms(alloc: Global, items: &[Item]) -> Result<Vec<Form>, AllocError>
    ensures { IfOk result (λ forms. forms.items ≡ longest items.now) }
{
    let mut forms = Vec::new(alloc);
    for _item in items {
        forms.push(Form::Far)?;
    }
    Ok(forms)
}

/// How many words the items have in these forms.
pub(crate) fn size(forms: &[Form], items: &[Item]) -> u128
    requires { length forms.now ≡ length items.now }
    ensures value { result ≡ size forms.now items.now }
    ensures small { result < 2 ^ 66 }
{
    let mut sum = 0u128;
    for (index, item) in items.iter().enumerate() {
        sum += u128::from(forms[index].size(item));
    }
    sum
}

/// How many entries a table of the labels of this list has.
pub(crate) fn table_length(items: &[Item]) -> usize
    ensures { (k l : ℕ) → slice_get items.now k ≡ Some (ItemVariants.Label l) → l < result }
{
    let mut entries = 0usize;
    for item in items {
        if let Item::Label(label) = item {
            entries = entries.max(label.number() as usize + 1);
        }
    }
    entries
}

/// A table of the labels of this list, with no place yet.
fn empty_table(alloc: Global, items: &[Item]) -> Result<Vec<u128>, AllocError>
    ensures { IfOk result (λ table. HasRoom items.now table.items) }
{
    let entries = table_length(items);
    let table = vec![in alloc; 0u128; entries]?;
    Ok(table)
}

/// Puts the place of an item, if it is a label, into the table.
fn mark(table: &mut Vec<u128>, item: &Item, place: u128)
    requires { IsWithin item.now table.old.items }
    ensures { table.new.items ≡ marked item.now place table.old.items }
{
    if let Item::Label(label) = item {
        table[label.number() as usize] = place;
    }
}

/// The places of the labels of a list whose items have these forms.
pub(crate) fn label_places(
    alloc: Global,
    forms: &[Form],
    items: &[Item],
) -> Result<Vec<u128>, AllocError>
    requires many { length forms.now ≡ length items.now }
    requires apart { AreApart items.now }
    ensures { IfOk result (λ table. Holds forms.now items.now (length items.now) table.items) }
{
    let mut table = empty_table(alloc, items)?;
    let mut place = 0u128;
    for (index, item) in items.iter().enumerate() {
        mark(&mut table, item, place);
        place += u128::from(forms[index].size(item));
    }
    Ok(table)
}

/// The place of the label that an item goes to; 0 where it goes to none.
pub(crate) fn target_place(table: &[u128], item: &Item) -> u128
    ensures { result ≡ target_place (entry table.now) item.now }
{
    match item.target() {
        Some(label) => table.get(label.number() as usize).copied().unwrap_or(0),
        None => 0,
    }
}

/// For each item the shortest form with which it reaches its label, whose place with the longest forms is in the table.
pub(crate) fn chosen_forms(
    alloc: Global,
    table: &[u128],
    items: &[Item],
) -> Result<Vec<Form>, AllocError>
    ensures { IfOk result (λ forms. forms.items ≡ chosen (entry table.now) 0 items.now) }
{
    let mut forms = Vec::new(alloc);
    let mut place = 0u128;
    for item in items {
        forms.push(Form::shortest(place, target_place(table, item)))?;
        place += u128::from(Form::Far.size(item));
    }
    Ok(forms)
}
