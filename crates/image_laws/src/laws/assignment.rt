//! Laws of what code assigns.

ghost use Rattle.std.specs.Prelude.{◌≡◌, ℕ, ◌<◌, ◌^◌, length, List, Some, true, slice_get, ◌+◌, ◌≤◌, []};
ghost use Rattle.addr_map.specs.Places.{MapSizes};
ghost use Rattle.tac_ir.specs.declared.instruction.Instruction.{Instruction};
ghost use Rattle.tac_ir.specs.declared.function.CodeFunction.{CodeFunction};
ghost use Rattle.tac_ir.specs.declared.function.Tac.{Tac};
ghost use Rattle.flat_code.specs.Calls.{function_in};
ghost use Rattle.flat_code.specs.Meaning.{parameters_of, results_of};
ghost use Rattle.flat_code.specs.declared.instruction.FlatInstruction.{FlatInstruction};
ghost use Rattle.flat_code.specs.declared.function.FlatFunction.{FlatFunction};
ghost use Rattle.flat_code.specs.declared.function.FlatProgram.{FlatProgram};
ghost use Rattle.tac_ir.specs.Edges.{successors};
ghost use Rattle.shadow_space.specs.Form.{EntryCode};
ghost use Rattle.shadow_space.specs.Direct.{direct_read, direct_write};
ghost use Rattle.shadow_space.specs.TwoLevel.Code.{two_level_read_behind, two_level_write_behind};
ghost use Rattle.metadata_plan.specs.Entries.{AreClosed, AreAllClosed};
ghost use Rattle.metadata_plan.specs.Laid.{body_of};
ghost use Rattle.metadata_relation.specs.Homes.{register_count};
ghost use Rattle.metadata_relation.specs.InlineLists.{inline_lists};
ghost use Rattle.metadata_relation.specs.Blocks.{Expansion, block};
ghost use Rattle.metadata_relation.specs.Expanded.{IsExpanded};
ghost use Rattle.metadata_relation.specs.Laid.{function_of, entry_of, program_of};
ghost use Rattle.metadata_relation.specs.Stages.{Compiled};
ghost use Rattle.metadata_relation.specs.Steps.{admits, covers};
ghost use Rattle.metadata_relation.specs.Waiting.{Layout};
ghost use Rattle.reg_plan.specs.Planned.{IsPlannable, ArePlannable};
ghost use Rattle.image_laws.specs.Plans.Assignment.{AssignsAll, NamesBelow, HasOwnHomes, IsAssignedAt, IsBegun};
ghost use Rattle.image_laws.specs.Plans.Assignment.{Assigns, Names, passed_over};
ghost use Rattle.image_laws.specs.Plans.EntryLists.{AssignEntries};
ghost use Rattle.image_laws.specs.Plans.Instructions.{made_registers, assigns_alone, IsSetOut, HasCallees};
ghost use Rattle.image_laws.specs.Plans.Instructions.{IsDefinite, HasDefiniteFunctions, hands_over};

use shadow_space::ShadowForm;

/// A function of laid blocks, whatever these are, can be planned: where the code of each node reads registers alone
/// that are assigned on each path to it, or that it has made itself, no value but a parameter is needed where the
/// function is entered. Each register that is named has a home of its own.
pub fn assigned_functions_are_plannable()
    ensures { (p : FlatProgram) (u count : ℕ) (put : Instruction → List FlatInstruction) (begin : List FlatInstruction)
        (c : CodeFunction) (begins : List ℕ) (made : Instruction → List ℕ) (f : FlatFunction)
        → f.body ≡ body_of put begin c → length f.body < 2 ^ 32
        → AssignsAll p u f.parameters put begin c begins made → NamesBelow p u put begin c count → HasOwnHomes f count
        → IsPlannable p u f }
{}

/// The block of an instruction that `assigns_alone` names, at a node of a function that is set out so, reads registers
/// alone that are given where the function begins, or made on each path to the node, or made by the block itself on
/// each way there; it makes those of the temporary that it gives, with its entry where that is kept, and those of the
/// homes of a block that it enters; and it names none but those that have homes.
pub fn blocks_assign_what_they_read()
    ensures { (p : FlatProgram) (u n parameters : ℕ) (e : Expansion) (read write : EntryCode) (c : CodeFunction)
        (begins : List ℕ) (i : Instruction) → AssignEntries read write → HasCallees p e.code
        → e.inline ≡ inline_lists read write e.map → IsSetOut e u c parameters begins → slice_get c.code n ≡ Some i
        → assigns_alone e.code c i ≡ true
        → Assigns p u (IsAssignedAt (IsBegun parameters begins) c (made_registers e u c) n) (block e u c i)
        (passed_over (successors i)) (made_registers e u c i)
        × Names p u (block e u c i) (λ y. y < register_count c) }
{}

/// Covered instructions are among these, where updates are of what they are of and calls hand over what is taken.
pub fn covered_instructions_assign()
    ensures { (x : Compiled) (c : CodeFunction) (u n : ℕ) (i : Instruction) → covers c i ≡ true → admits x u n i ≡ true
        → hands_over x.layout.expansion.code c i ≡ true → assigns_alone x.layout.expansion.code c i ≡ true }
{}

/// The lists by which both forms of the shadow space read and write entries assign what is asked of them.
pub fn forms_assign_entries()
    ensures direct { AssignEntries (λ map. direct_read) (λ map. direct_write) }
    ensures two_levels { AssignEntries two_level_read_behind two_level_write_behind }
{}

/// An expanded program has the functions that blocks call, with their parameters and results.
pub fn expanded_programs_have_callees<S: ShadowForm>()
    ensures { (map : MapSizes) (l : Layout) → IsExpanded l S.entry (S.IsGood map) → HasCallees l.program l.expansion.code }
{}

/// The expansion of a function of the code can be planned, where the lists of the shadow space assign what is asked of
/// them, each of its registers has a home of its own, and the function is definite: no value but a parameter is needed
/// where it is entered.
pub fn expanded_functions_are_plannable()
    ensures { (p : FlatProgram) (e : Expansion) (u : ℕ) (c : CodeFunction) (homes : List ℕ) (read write : EntryCode)
        → AssignEntries read write → HasCallees p e.code → e.inline ≡ inline_lists read write e.map
        → AreClosed e.code c (e.entries u) → IsDefinite e.code u c
        → length (function_of e u c homes).body < 2 ^ 32 → HasOwnHomes (function_of e u c homes) (register_count c)
        → IsPlannable p u (function_of e u c homes) }
{}

/// A function whose body by itself assigns what it reads, given its parameters, can be planned, where each register
/// that it names has a home of its own.
pub fn assigned_bodies_are_plannable()
    ensures { (p : FlatProgram) (u count : ℕ) (f : FlatFunction) → length f.body < 2 ^ 32
        → Assigns p u (λ y. y < f.parameters) f.body 0 [] → Names p u f.body (λ y. y < count) → HasOwnHomes f count
        → IsPlannable p u f }
{}

/// The function with which a run begins can be planned, where `main` takes nothing and gives at most two words.
pub fn entry_functions_are_plannable()
    ensures { (p : FlatProgram) (u : ℕ) (m : MapSizes) (t : Tac) → parameters_of (function_in p t.main) ≡ 0
        → results_of (function_in p t.main) ≤ 2 → IsPlannable p u (entry_of m t) }
{}

/// An expanded program can be planned, where its functions are definite, each register has a home of its own, and those
/// of the runtime can be planned.
pub fn expanded_programs_are_plannable()
    ensures { (e : Expansion) (homes : CodeFunction → List ℕ) (runtime : List FlatFunction) (read write : EntryCode)
        → AssignEntries read write → HasCallees (program_of e homes runtime) e.code
        → e.inline ≡ inline_lists read write e.map → AreAllClosed e.code e.entries → HasDefiniteFunctions e homes
        → ((k : ℕ) (f : FlatFunction) → slice_get runtime k ≡ Some f
        → IsPlannable (program_of e homes runtime) (length e.code.functions + k) f)
        → parameters_of (function_in (program_of e homes runtime) e.code.main) ≡ 0
        → results_of (function_in (program_of e homes runtime) e.code.main) ≤ 2
        → ArePlannable (program_of e homes runtime) }
{}
