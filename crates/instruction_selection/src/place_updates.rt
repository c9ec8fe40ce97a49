//! Scalars that are updated through pointers (C99 6.5.16.2, 6.5.3.1, 6.5.2.4).

ghost use Rattle.std.specs.Prelude.{◌≡◌, ◌+◌, ◌-◌, ◌<◌, ◌≤◌, ◌^◌, ◌++◌, ◌∷◌, [], OnOk};
ghost use Rattle.obj_memory.specs.declared.value.Scalar.TheVariants.{Integer, Pointer};
ghost use Rattle.tac_ir.specs.Temporaries.{right_count};
ghost use Rattle.metadata_plan.specs.Registers.{most_temporaries};
ghost use Rattle.metadata_relation.specs.InlineLists.{inline_lists};
ghost use Rattle.flat_code.specs.declared.instruction.FlatInstruction.TheVariants.{Move};
ghost use Rattle.metadata_relation.specs.Blocks.{given_register, update_code};
ghost use Rattle.lib_wrappers.specs.AccessRoutines.Accessing.{load_code as load_list, store_code as store_list};
ghost use Rattle.lib_wrappers.specs.declared.accesses.held.HeldScalar.TheVariants.{Integer as HeldInteger};
ghost use Rattle.lib_wrappers.specs.declared.accesses.held.HeldScalar.TheVariants.{Pointer as HeldPointer};
ghost use Rattle.runtime_functions.specs.Library.{held_from};
ghost use Rattle.instruction_selection.specs.Contexts.{HasRegisters};

use crate::accesses::{put_load, put_store};
use crate::context::FunctionContext;
use crate::entries::{held_from, put_entry_if, put_untagged};
use crate::list::put;
use crate::updates::{Change, given_register, put_address, put_integer};
use c_tree::{Fixity, Update};
use flat_code::{FlatInstruction, Held};
use lib_wrappers::accesses::HeldScalar;
use obj_memory::{IntType, Scalar};
use sb_base::Line;
use shadow_space::ShadowForm;
use std::alloc::AllocError;
use tac_ir::RightOperand;

/// An update of what a pointer points to.
#[derive(Clone, Copy)]
pub struct PlaceUpdate {
    /// How the new value is made.
    pub update: Update,
    /// Whether its value is the new or the old one.
    pub fixity: Fixity,
    /// The line of the operator, which a report names.
    pub line: Line,
    /// The register that gets its value.
    pub into: u32,
    /// The register of the pointer.
    pub pointer: u32,
    /// The right operand.
    pub right: RightOperand,
    /// The first register that is free.
    pub scratch: u32,
}

impl PlaceUpdate {
    // The change of the value, from the first free register into another one.
    fn change(&self, new: u32) -> Change
        requires { new < 2 ^ 32 - 1 }
        ensures { result ≡ record {
          update = self.now.update;
          right = self.now.right;
          line = self.now.line;
          new = new;
          old = self.now.scratch;
          scratch = new + 1;
        } }
    {
        Change {
            update: self.update,
            right: self.right,
            line: self.line,
            new,
            old: self.scratch,
            scratch: new + 1,
        }
    }
}

// Puts the load of an integer behind a list.
fn put_load_integer<S: ShadowForm>(
    code: &mut Vec<FlatInstruction>,
    context: &FunctionContext,
    int_type: IntType,
    address: u32,
    into: u32,
) -> Result<(), AllocError>
    requires address { address < into }
    requires room { into < 2 ^ 31 }
    ensures { OnOk result (code.new.items ≡ code.old.items
        ++ load_list S.entry_read context.now.map.now address (HeldInteger int_type into) (into + 1)) }
{
    let held = HeldScalar::Integer(int_type, into);
    put_load::<S>(code, context, address, held, into + 1)
}

// Puts the store of an integer behind a list.
fn put_store_integer<S: ShadowForm>(
    code: &mut Vec<FlatInstruction>,
    context: &FunctionContext,
    int_type: IntType,
    address: u32,
    from: u32,
) -> Result<(), AllocError>
    requires address { address < from }
    requires room { from < 2 ^ 31 }
    ensures { OnOk result (code.new.items ≡ code.old.items
        ++ store_list S.entry_write context.now.map.now address (HeldInteger int_type from) (from + 1)) }
{
    let held = HeldScalar::Integer(int_type, from);
    put_store::<S>(code, context, address, held, from + 1)
}

// Puts the load of a pointer into registers from one on behind a list.
#[tactic(auto, using(crate::proofs::Operands::all_below, crate::proofs::Operands::below_apart))]
fn put_load_held<S: ShadowForm>(
    code: &mut Vec<FlatInstruction>,
    context: &FunctionContext,
    address: u32,
    into: u32,
) -> Result<(), AllocError>
    requires address { address < into }
    requires room { into + 16 ≤ 2 ^ 31 }
    ensures { OnOk result (code.new.items ≡ code.old.items
        ++ load_list S.entry_read context.now.map.now address (HeldPointer (held_from into)) (into + 5)) }
{
    let held = HeldScalar::Pointer(held_from(into));
    put_load::<S>(code, context, address, held, into + 5)
}

// Puts the store of a new address with the entry of registers from one on behind a list; it stands behind these.
#[tactic(auto, using(crate::proofs::Operands::moved_below))]
fn put_store_moved<S: ShadowForm>(
    code: &mut Vec<FlatInstruction>,
    context: &FunctionContext,
    address: u32,
    old: u32,
) -> Result<(), AllocError>
    requires address { address < old }
    requires room { old + 16 ≤ 2 ^ 31 }
    ensures { OnOk result (code.new.items ≡ code.old.items
        ++ store_list S.entry_write context.now.map.now address
        (HeldPointer (record { value = old + 5; tag = (held_from old).tag })) (old + 6)) }
{
    let held = Held {
        value: old + 5,
        tag: held_from(old).tag,
    };
    put_store::<S>(code, context, address, HeldScalar::Pointer(held), old + 6)
}

// Puts what gives the value of an update, from one of two registers, behind a list.
fn put_given(
    code: &mut Vec<FlatInstruction>,
    place: PlaceUpdate,
    new: u32,
) -> Result<(), AllocError>
    ensures { OnOk result (code.new.items ≡ code.old.items
        ++ Move place.into (given_register place.fixity place.scratch new) ∷ []) }
{
    let from = given_register(place.fixity, place.scratch, new);
    put(
        code,
        FlatInstruction::Move {
            into: place.into,
            from,
        },
    )
}

// Puts an update of an integer behind a list.
fn put_integer_update<S: ShadowForm>(
    code: &mut Vec<FlatInstruction>,
    context: &FunctionContext,
    int_type: IntType,
    with_entry: bool,
    place: PlaceUpdate,
) -> Result<(), AllocError>
    requires registers { HasRegisters context.now }
    requires right { right_count place.right ≤ most_temporaries context.now.function.now.code }
    requires into { place.into ≤ 2 ^ 31 }
    requires pointer { place.pointer < place.scratch }
    requires room { place.scratch + 16 ≤ 2 ^ 31 }
    ensures { OnOk result (code.new.items ≡ code.old.items
        ++ update_code (inline_lists S.entry_read S.entry_write context.now.map.now) context.now.function.now place.update
        (Integer int_type) place.fixity place.line with_entry place.into place.pointer place.right place.scratch) }
{
    let new = place.scratch + 1;
    put_load_integer::<S>(code, context, int_type, place.pointer, place.scratch)?;
    put_integer(code, context, int_type, place.change(new))?;
    put_store_integer::<S>(code, context, int_type, place.pointer, new)?;
    put_given(code, place, new)?;
    put_untagged(code, with_entry, place.into)
}

// Puts an update of a pointer behind a list.
fn put_pointer_update<S: ShadowForm>(
    code: &mut Vec<FlatInstruction>,
    context: &FunctionContext,
    with_entry: bool,
    place: PlaceUpdate,
) -> Result<(), AllocError>
    requires registers { HasRegisters context.now }
    requires right { right_count place.right ≤ most_temporaries context.now.function.now.code }
    requires into { place.into ≤ 2 ^ 31 }
    requires pointer { place.pointer < place.scratch }
    requires room { place.scratch + 16 ≤ 2 ^ 31 }
    ensures { OnOk result (code.new.items ≡ code.old.items
        ++ update_code (inline_lists S.entry_read S.entry_write context.now.map.now) context.now.function.now place.update
        Pointer place.fixity place.line with_entry place.into place.pointer place.right place.scratch) }
{
    let new = place.scratch + 5;
    put_load_held::<S>(code, context, place.pointer, place.scratch)?;
    put_address(code, context, place.change(new))?;
    put_store_moved::<S>(code, context, place.pointer, place.scratch)?;
    put_given(code, place, new)?;
    let from = held_from(place.scratch).tag;
    put_entry_if(code, with_entry, held_from(place.into).tag, from)?;
    Ok(())
}

/// Puts an update of a scalar through a pointer behind a list. It fails only for want of memory.
pub fn put_update<S: ShadowForm>(
    code: &mut Vec<FlatInstruction>,
    context: &FunctionContext,
    scalar: Scalar,
    with_entry: bool,
    place: PlaceUpdate,
) -> Result<(), AllocError>
    requires registers { HasRegisters context.now }
    requires right { right_count place.right ≤ most_temporaries context.now.function.now.code }
    requires into { place.into ≤ 2 ^ 31 }
    requires pointer { place.pointer < place.scratch }
    requires room { place.scratch + 16 ≤ 2 ^ 31 }
    ensures { OnOk result (code.new.items ≡ code.old.items
        ++ update_code (inline_lists S.entry_read S.entry_write context.now.map.now) context.now.function.now place.update
        scalar place.fixity place.line with_entry place.into place.pointer place.right place.scratch) }
{
    match scalar {
        Scalar::Integer(int_type) => {
            put_integer_update::<S>(code, context, int_type, with_entry, place)
        }
        Scalar::Pointer => put_pointer_update::<S>(code, context, with_entry, place),
    }
}
