//! Laws of programs that differ in their instructions alone, each as the contract of a function that does nothing.

ghost use Rattle.std.specs.Prelude.{◌≡◌, ℕ, List};
ghost use Rattle.sb_base.specs.Budgets.{BudgetSizes};
ghost use Rattle.source_meaning.specs.State.{Rvalue, Setting, State};
ghost use Rattle.tac_ir.specs.declared.function.Tac.{Tac};
ghost use Rattle.tac_ir.specs.declared.instruction.Instruction.{Instruction};
ghost use Rattle.tac_ir.specs.Meaning.{act, called, first_stage, setting_of_code, step};
ghost use Rattle.tac_ir.specs.SameTables.{SameTables};
ghost use Rattle.tac_ir.specs.Stage.{Begins, Frame, Temps};

/// In two programs with the same tables an instruction does the same, a call lays out the same, and so does the first
/// step.
pub fn instructions_do_the_same_over_the_same_tables()
    ensures act { (before after : Tac) → SameTables before after → (g : Setting) (i : Instruction) (u : ℕ)
        (temps : Temps) (frames : List Frame) (s : State)
        → act g after i u temps frames s ≡ act g before i u temps frames s }
    ensures called { (before after : Tac) → SameTables before after → (g : Setting) (f : ℕ) (vs : List Rvalue)
        (line : ℕ) (frames : List Frame) (s : State)
        → called g after f vs line frames s ≡ called g before f vs line frames s }
    ensures begins { (before after : Tac) → SameTables before after → (g : Setting) (s : State)
        → step g after (Begins s) ≡ step g before (Begins s) }
{}

/// Both have the same setting, and their runs begin at the same stage.
pub fn runs_begin_the_same_over_the_same_tables()
    ensures setting { (before after : Tac) → SameTables before after → (budgets : BudgetSizes)
        → setting_of_code after budgets ≡ setting_of_code before budgets }
    ensures first { (before after : Tac) → SameTables before after → (budgets : BudgetSizes) (input : List ℕ)
        → first_stage after budgets input ≡ first_stage before budgets input }
{}
