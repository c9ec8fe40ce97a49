//! Whether a list can be assembled.
ghost use Rattle.std.specs.Prelude.{◌≡◌, ◌<◌, ◌^◌, ◌↔◌, IsTrue, IfOk, ℕ, Some, slice_get, length, true, option_map};
ghost use Rattle.rv_asm.specs.declared.item.Item.TheVariants as ItemVariants;
ghost use Rattle.rv_asm.specs.Items.{AreApart, AreThere, target_of};
ghost use Rattle.rv_asm.specs.Forms.{IsAssemblable, longest_size};
ghost use Rattle.rv_asm.specs.Tables.{IsNew, IsWithin, Stand, StandApart, with_label};

use crate::form::Form;
use crate::item::Item;
use crate::layout::table_length;
use std::alloc::{AllocError, Global};

/// Adds an item, if it is a label, to those that stand; false where it stands already.
fn add_label(table: &mut Vec<bool>, item: &Item) -> bool
    requires { IsWithin item.now table.old.items }
    ensures new { IsTrue result ↔ IsNew item.now table.old.items }
    ensures added { IsTrue result → table.new.items ≡ with_label item.now table.old.items }
{
    match item {
        Item::Label(label) => {
            let label = label.number() as usize;
            let is_new = !table[label];
            table[label] = true;
            is_new
        }
        _ => true,
    }
}

/// Which labels stand in the list, or none where one stands twice.
#[tactic(auto, using(crate::proofs::Standing::standing))]
fn standing_labels(alloc: Global, items: &[Item]) -> Result<Option<Vec<bool>>, AllocError>
    ensures { IfOk result (λ found. StandApart items.now (option_map (λ table. table.items) found)) }
{
    let mut table = vec![in alloc; false; table_length(items)]?;
    for item in items {
        if !add_label(&mut table, item) {
            return Ok(None);
        }
    }
    Ok(Some(table))
}

/// Whether each label that an item goes to stands in the list of this table.
fn targets_stand(table: &[bool], items: &[Item]) -> bool
    requires { Stand items.now (length items.now) table.now }
    ensures { IsTrue result ↔ AreThere items.now }
{
    for item in items {
        if let Some(label) = item.target() {
            if table.get(label.number() as usize) != Some(&true) {
                return false;
            }
        }
    }
    true
}

/// Whether the longest forms have fewer than 2^28 words together.
fn is_in_reach(items: &[Item]) -> bool
    ensures { IsTrue result ↔ (longest_size items.now < 2 ^ 28) }
{
    let mut size = 0u32;
    for item in items {
        size += Form::Far.size(item);
        if size >= 0x1000_0000 {
            return false;
        }
    }
    true
}

/// Whether a list meets the conditions of `assemble`: no label stands twice, each label that an item goes to stands
/// somewhere, and the longest forms have fewer than 2^28 words together.
pub fn is_assemblable(alloc: Global, items: &[Item]) -> Result<bool, AllocError>
    ensures { IfOk result (λ able. IsTrue able ↔ IsAssemblable items.now) }
{
    match standing_labels(alloc, items)? {
        Some(table) => Ok(targets_stand(&table, items) && is_in_reach(items)),
        None => Ok(false),
    }
}
