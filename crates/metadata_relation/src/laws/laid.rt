//! Laws of laid programs, each as the contract of a function that does nothing.

ghost use Rattle.std.specs.Prelude.{◌≡◌, ℕ, ◌+◌, ◌*◌, ◌<◌, ◌≤◌, List, Some, length, slice_get};
ghost use Rattle.tac_ir.specs.declared.function.CodeFunction.{CodeFunction};
ghost use Rattle.flat_code.specs.declared.function.FlatFunction.{FlatFunction};
ghost use Rattle.runtime_functions.specs.Runtime.{runtime_list, AreOfRuntime};
ghost use Rattle.metadata_plan.specs.Entries.{AreAllClosed};
ghost use Rattle.metadata_relation.specs.Contents.{AreKept};
ghost use Rattle.metadata_relation.specs.FunctionTypes.{HaveTypeKeys};
ghost use Rattle.metadata_relation.specs.Blocks.{Expansion};
ghost use Rattle.metadata_relation.specs.Expanded.{IsExpanded};
ghost use Rattle.metadata_relation.specs.Homes.{HasRoom, homes, register_count};
ghost use Rattle.metadata_relation.specs.Laid.{layout_of};

use shadow_space::ShadowForm;

/// Functions whose blocks are laid one behind the other, with those of the runtime behind them and last the one with
/// which a run begins, are what the relation asks for, whatever homes the virtual registers have.
pub fn laid_programs_are_expanded<S: ShadowForm>()
    ensures { (e : Expansion) (homes : CodeFunction → List ℕ) (runtime : List FlatFunction)
        → AreOfRuntime e.map S.entry (S.IsGood e.map) runtime_list runtime
        → HaveTypeKeys e.code.functions e.types → AreAllClosed e.code e.entries
        → ((u : ℕ) (c : CodeFunction) → slice_get e.code.functions u ≡ Some c
        → AreKept e.code c (e.contents u))
        → IsExpanded (layout_of e homes runtime) S.entry (S.IsGood e.map) }
{}

/// Each virtual register has a home, different ones have different homes, and where a call is charged the bytes for
/// variables, values and tags each is within the activation record, which has twice as many bytes.
pub fn homes_fit_into_activation_records()
    ensures count { (c : CodeFunction) → length (homes c) ≡ register_count c }
    ensures inside { (c : CodeFunction) (height : ℕ) → HasRoom height c → (r : ℕ) → r < register_count c
        → (h : ℕ) × ((slice_get (homes c) r ≡ Some h) × (8 * h + 16 ≤ 2 * c.room)) }
    ensures apart { (c : CodeFunction) (r q h : ℕ) → slice_get (homes c) r ≡ Some h → slice_get (homes c) q ≡ Some h
        → r ≡ q }
{}
