//! Laws of the functions of checked code, for the plans of their expansions.

ghost use Rattle.std.specs.Prelude.{◌≡◌, ℕ, ◌+◌, length, true, Some, slice_get};
ghost use Rattle.addr_map.specs.Places.{MapSizes};
ghost use Rattle.c_tree.specs.Programs.{Program};
ghost use Rattle.c_tree.specs.ValidProgram.{is_valid_program};
ghost use Rattle.tac_ir.specs.declared.function.CodeFunction.{CodeFunction};
ghost use Rattle.tac_ir.specs.declared.function.Tac.{Tac};
ghost use Rattle.tac_ir.specs.Meaning.{function_in};
ghost use Rattle.flat_code.specs.declared.function.FlatFunction.{FlatFunction};
ghost use Rattle.c_lower.specs.Liveness.Liveness.{IsLive};
ghost use Rattle.shadow_space.specs.Form.{EntryCode};
ghost use Rattle.metadata_relation.specs.Homes.{HasRoom, homes, register_count};
ghost use Rattle.metadata_relation.specs.Blocks.{Expansion};
ghost use Rattle.metadata_relation.specs.Laid.{function_of, program_of};
ghost use Rattle.metadata_relation.specs.Stages.{Compiled};
ghost use Rattle.metadata_relation.specs.Steps.{AreAllCovered};
ghost use Rattle.reg_plan.specs.Planned.{ArePlannable};
ghost use Rattle.image_laws.specs.Images.Images.{IsChecked};
ghost use Rattle.image_laws.specs.Images.Expansions.{Laid, IsLaidExpansion, HasPlannableParts};
ghost use Rattle.flat_propagation.specs.Propagated.{propagated};
ghost use Rattle.image_laws.specs.Propagation.Homes.{HasHomes};
ghost use Rattle.image_laws.specs.Plans.Assignment.{HasOwnHomes};
ghost use Rattle.image_laws.specs.Plans.EntryLists.{AssignEntries};
ghost use Rattle.image_laws.specs.Plans.Instructions.{HasHomesEntered, IsDefinite, IsWhole};

use crate::laws::propagation::propagated_programs_are_plannable;
use metadata_relation::laws::laid::{
    homes_fit_into_activation_records, laid_programs_are_expanded,
};
use shadow_space::ShadowForm;

/// In the checked code of a valid program the home of an object is read where it is one of the body's, or where its
/// block was entered on each path: by what names it, by checks that compare with it, and where the block is left.
pub fn homes_are_read_in_their_blocks()
    ensures { (p : Program) (r : Tac) → is_valid_program p ≡ true → IsChecked p r → (u : ℕ) (c : CodeFunction)
        → slice_get r.functions u ≡ Some c → HasHomesEntered c }
{}

/// No temporary is needed where a function of it is entered: checks read what their accesses read.
pub fn no_temporary_is_needed_at_an_entry()
    ensures { (p : Program) (r : Tac) → is_valid_program p ≡ true → IsChecked p r → (u : ℕ) (c : CodeFunction)
        → slice_get r.functions u ≡ Some c → (z : ℕ) → IsLive c.code c.entry z → ⊥ }
{}

/// Where a call is charged the bytes for its variables, values and tags, each register has a home of its own.
pub fn registers_have_homes_of_their_own()
    ensures { (e : Expansion) (u height : ℕ) (c : CodeFunction) → HasRoom height c
        → HasOwnHomes (function_of e u c (homes c)) (register_count c) }
{
    homes_fit_into_activation_records();
}

/// The functions of checked code, all of whose instructions are covered, are definite, where they are whole.
pub fn checked_functions_are_definite()
    ensures { (p : Program) (x : Compiled) → is_valid_program p ≡ true → IsChecked p x.layout.expansion.code
        → AreAllCovered x → (u : ℕ) (c : CodeFunction) → function_in x.layout.expansion.code u ≡ Some c
        → IsWhole x.layout.expansion.code c → IsDefinite x.layout.expansion.code u c }
{}

/// A laid expansion of checked code, all of whose instructions are covered, can be planned with a home of its own for
/// each register: where its code is whole, its bodies are short, and the functions of the runtime can be planned.
pub fn laid_expansions_are_plannable<S: ShadowForm>()
    ensures { (p : Program) (r : Tac) (map : MapSizes) (l : Laid) (read write : EntryCode) → is_valid_program p ≡ true
        → IsChecked p r → AssignEntries read write → IsLaidExpansion read write S.entry (S.IsGood map) map r l
        → HasPlannableParts l → ArePlannable (program_of l.expansion homes l.runtime) }
{
    laid_programs_are_expanded::<S>();
    homes_fit_into_activation_records();
}

/// So it can be planned when it is propagated, where each register that a function of the runtime uses has a home of
/// its own.
pub fn propagated_expansions_are_plannable<S: ShadowForm>()
    ensures { (p : Program) (r : Tac) (map : MapSizes) (l : Laid) (read write : EntryCode) → is_valid_program p ≡ true
        → IsChecked p r → AssignEntries read write → IsLaidExpansion read write S.entry (S.IsGood map) map r l
        → HasPlannableParts l
        → ((k : ℕ) (f : FlatFunction) → slice_get l.runtime k ≡ Some f
        → HasHomes (program_of l.expansion homes l.runtime) (length l.expansion.code.functions + k) f)
        → ArePlannable (propagated (program_of l.expansion homes l.runtime)) }
{
    laid_programs_are_expanded::<S>();
    homes_fit_into_activation_records();
    propagated_programs_are_plannable();
}
