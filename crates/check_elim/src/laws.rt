//! Laws of the definitions, each as the contract of a function that does nothing.

ghost use Rattle.std.specs.Prelude.{◌≡◌, ℕ, List};
ghost use Rattle.behaviours.specs.Behaviour.{Behaviour, Follows};
ghost use Rattle.behaviours.specs.Steps.{run};
ghost use Rattle.sb_base.specs.Budgets.{BudgetSizes};
ghost use Rattle.check_insert.specs.SameButChecks.{SameButChecks};
ghost use Rattle.tac_ir.specs.Bodies.{HaveClosedBodies, KeepVariables};
ghost use Rattle.tac_ir.specs.declared.function.CodeFunction.{CodeFunction};
ghost use Rattle.tac_ir.specs.declared.function.Tac.{Tac};
ghost use Rattle.tac_ir.specs.Meaning.{setting_of_code, step, first_stage, tac_meaning};
ghost use Rattle.tac_ir.specs.SameTables.{SameTables};
ghost use Rattle.tac_ir.specs.Stage.{Stuck};
ghost use Rattle.check_elim.specs.Available.{IsAvailable, IsDroppable, IsOpen};
ghost use Rattle.check_elim.specs.Dropped.{Dropped};
ghost use Rattle.check_elim.specs.Facts.{Fact};

/// A fact is available at a node exactly where no path leads there on which it is not known, as a least solution over
/// the nodes tells.
pub fn available_is_not_open()
    ensures leads { (function : CodeFunction) (f : Fact) (n : ℕ) → IsOpen function f n → IsAvailable function f n → ⊥ }
    ensures closed { (function : CodeFunction) (f : Fact) (n : ℕ) → (IsOpen function f n → ⊥)
        → IsAvailable function f n }
{}

/// Code without its available checks means the same as with them, moment for moment, where that is never stuck: output,
/// input, accesses, turns, work and ending. It is never stuck either, and follows what the code with them follows. The
/// tables are the same.
pub fn code_without_available_checks_means_the_same()
    ensures tables { (t : Tac) (r : Tac) → Dropped IsDroppable t r → SameTables t r }
    ensures meaning { (t : Tac) (r : Tac) → Dropped IsDroppable t r → (budgets : BudgetSizes) (input : List ℕ)
        → ((k : ℕ) → run (step (setting_of_code t budgets) t) k (first_stage t budgets input) ≡ Stuck → ⊥)
        → (n : ℕ) → tac_meaning r budgets input n ≡ tac_meaning t budgets input n }
    ensures never { (t : Tac) (r : Tac) → Dropped IsDroppable t r → (budgets : BudgetSizes) (input : List ℕ)
        → ((k : ℕ) → run (step (setting_of_code t budgets) t) k (first_stage t budgets input) ≡ Stuck → ⊥)
        → (k : ℕ) → run (step (setting_of_code r budgets) r) k (first_stage r budgets input) ≡ Stuck → ⊥ }
    ensures follows { (t : Tac) (r : Tac) → Dropped IsDroppable t r → (budgets : BudgetSizes) (input : List ℕ)
        → ((k : ℕ) → run (step (setting_of_code t budgets) t) k (first_stage t budgets input) ≡ Stuck → ⊥)
        → (c : ℕ) (a : Behaviour) → Follows c a (tac_meaning t budgets input)
        → Follows c a (tac_meaning r budgets input) }
{}

/// Code whose available checks are dropped is the same but for checks as the code without any, if it was so with them,
/// and the bodies of its counted loops stay closed and keep their variables.
pub fn code_without_available_checks_is_laid_out_the_same()
    ensures same { (t : Tac) (checked : Tac) (r : Tac) → SameButChecks t checked → Dropped IsDroppable checked r
        → SameButChecks t r }
    ensures closed { (t : Tac) (r : Tac) → Dropped IsDroppable t r → HaveClosedBodies t → HaveClosedBodies r }
    ensures variables { (t : Tac) (r : Tac) → Dropped IsDroppable t r → KeepVariables t → KeepVariables r }
{}
