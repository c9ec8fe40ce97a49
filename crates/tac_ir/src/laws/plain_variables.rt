//! Laws, each as the contract of a function that does nothing.

ghost use Rattle.std.specs.Prelude.{◌≡◌, ℕ, List, false};
ghost use Rattle.source_meaning.specs.State.{Setting, State};
ghost use Rattle.tac_ir.specs.declared.function.Tac.{Tac};
ghost use Rattle.tac_ir.specs.declared.instruction.Instruction.{Instruction};
ghost use Rattle.tac_ir.specs.Stage.{Temps, Frame};
ghost use Rattle.tac_ir.specs.Meaning.{act};
ghost use Rattle.tac_ir.specs.PlainVariables.PlainChanges.{changes_plain, KeepsPlainAt};

/// A plain variable of the function that runs changes at no instructions but those that set or update it, where a
/// function is called, and where it returns.
pub fn plain_variables_change_at_named_instructions()
    ensures { (g : Setting) (t : Tac) (i : Instruction) (u : ℕ) (temps : Temps) (frames : List Frame) (s : State)
        (variable : ℕ) → changes_plain i variable ≡ false → KeepsPlainAt variable s (act g t i u temps frames s) }
{}
