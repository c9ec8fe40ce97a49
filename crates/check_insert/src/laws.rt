//! Laws of the definitions, each as the contract of a function that does nothing.

ghost use Rattle.std.specs.Prelude.{◌≡◌, ◌+◌, ℕ, List};
ghost use Rattle.behaviours.specs.Behaviour.{Behaviour, Follows, IsSource};
ghost use Rattle.behaviours.specs.Steps.{run};
ghost use Rattle.sb_base.specs.Budgets.{BudgetSizes};
ghost use Rattle.tac_ir.specs.declared.function.Tac.{Tac};
ghost use Rattle.tac_ir.specs.Stage.{Stuck};
ghost use Rattle.tac_ir.specs.Structures.{AreasFit};
ghost use Rattle.tac_ir.specs.Meaning.{setting_of_code, step, first_stage, tac_meaning};
ghost use Rattle.check_insert.specs.Inserted.{Inserted};
ghost use Rattle.check_insert.specs.SameButChecks.{SameButChecks};

/// Code with checks shows what the code without them shows, at no more work than was counted for them, where that code
/// is never stuck.
pub fn checked_code_follows()
    ensures { (t : Tac) (r : Tac) → Inserted t r → (budgets : BudgetSizes) (input : List ℕ)
        → ((k : ℕ) → run (step (setting_of_code t budgets) t) k (first_stage t budgets input) ≡ Stuck → ⊥)
        → Follows 1 (tac_meaning t budgets input) (tac_meaning r budgets input) }
{}

/// Where the code without checks follows a source, the code with them does with the same factor, and is never stuck: an
/// access behind its checks is within the bounds of its pointer, whose object lives.
pub fn checked_code_is_never_stuck()
    ensures follows { (t : Tac) (r : Tac) → Inserted t r → (budgets : BudgetSizes) (input : List ℕ) (c : ℕ)
        (a : Behaviour) → IsSource a → Follows c a (tac_meaning t budgets input)
        → Follows c a (tac_meaning r budgets input) }
    ensures never { (t : Tac) (r : Tac) → Inserted t r → (budgets : BudgetSizes) (input : List ℕ) (c : ℕ)
        (a : Behaviour) → IsSource a → Follows c a (tac_meaning t budgets input) → (k : ℕ)
        → run (step (setting_of_code r budgets) r) k (first_stage r budgets input) ≡ Stuck → ⊥ }
{}

/// Code with its checks put in is the code without them but for its checks: its tables are the same, what is no access
/// that gets checks stays at its node, and no instruction needs more temporaries.
pub fn checked_code_is_the_same_but_for_checks()
    ensures { (t : Tac) (r : Tac) → Inserted t r → SameButChecks t r }
{}

/// In code that is another but for its checks the structures of temporaries take no larger areas.
pub fn checks_need_no_area()
    ensures { (t : Tac) (r : Tac) → SameButChecks t r → (bytes : ℕ → ℕ) → AreasFit t bytes → AreasFit r bytes }
{}
