//! Laws of the blocks, as contracts of functions that do nothing.

ghost use Rattle.std.specs.Prelude.{◌≡◌, ℕ};
ghost use Rattle.shadow_space.specs.Form.{EntryCode};
ghost use Rattle.tac_ir.specs.declared.instruction.Instruction.{Instruction};
ghost use Rattle.metadata_relation.specs.InlineLists.{inline_lists};
ghost use Rattle.metadata_relation.specs.Blocks.{Expansion, block};
ghost use Rattle.instruction_selection.specs.declared.context.FunctionContext.{FunctionContext};
ghost use Rattle.instruction_selection.specs.Contexts.{type_at};
ghost use Rattle.instruction_selection.specs.Selected.{entry_behind, selected};

/// The block of an instruction depends on the entries of its function by one alone: whether the temporary that it gives
/// has one behind it.
#[tactic(auto, using(crate::proofs::OneEntry::by_one_entry))]
pub fn blocks_depend_on_one_entry()
    ensures { (read write : EntryCode) (e : Expansion) (u : ℕ) (x : FunctionContext) (i : Instruction)
        → e.map ≡ x.map.now → e.code ≡ x.program.now → e.inline ≡ inline_lists read write e.map
        → ((f : ℕ) → e.types f ≡ type_at x f)
        → block e u x.function.now i ≡ selected read write x (entry_behind (e.entries u) i) i }
{}
