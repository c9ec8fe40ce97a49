//! Laws of the definitions, each as the contract of a function that does nothing.

ghost use Rattle.std.specs.Prelude.{◌≡◌, ◌≤◌, ℕ, Bool, List, length, true, Some};
ghost use Rattle.behaviours.specs.Behaviour.{Follows};
ghost use Rattle.behaviours.specs.Steps.{run};
ghost use Rattle.sb_base.specs.Budgets.{BudgetSizes};
ghost use Rattle.addr_map.specs.Places.{AreMapped};
ghost use Rattle.c_tree.specs.Tree.{Expression, Lvalue};
ghost use Rattle.c_tree.specs.Programs.{Program};
ghost use Rattle.c_tree.specs.Room.{height};
ghost use Rattle.c_tree.specs.ValidProgram.{is_valid_program};
ghost use Rattle.source_meaning.specs.State.{State, Rvalue, Gives, Env};
ghost use Rattle.source_meaning.specs.Expressions.{place};
ghost use Rattle.source_meaning.specs.Meaning.{meaning, setting_of};
ghost use Rattle.tac_ir.specs.declared.function.Tac.{Tac};
ghost use Rattle.tac_ir.specs.declared.key.Key.{Key};
ghost use Rattle.tac_ir.specs.Keys.{gives};
ghost use Rattle.tac_ir.specs.Stage.{Stuck};
ghost use Rattle.tac_ir.specs.Meaning.{setting_of_code, step, first_stage, tac_meaning};
ghost use Rattle.c_lower.specs.Homes.{used};
ghost use Rattle.c_lower.specs.Keys.{place_key};
ghost use Rattle.c_lower.specs.Programs.{IsLowered};

pub mod liveness;

/// The code of a valid program of at most 4096 functions shows what the program shows, at each moment, for each budget
/// and input, with at most 8 units of work for each of the program's.
pub fn lowered_code_follows_its_program()
    ensures { (p : Program) (t : Tac) → IsLowered p t → is_valid_program p ≡ true → length p.functions ≤ 4096
        → (budgets : BudgetSizes)
        → AreMapped (setting_of p budgets).sizes → (input : List ℕ)
        → Follows 8 (meaning p budgets input) (tac_meaning t budgets input) }
{}

/// And it is never stuck: what its steps test is true. An access that gets no check, a zeroing, a literal stored and a
/// structure moved are of a live object or of contents, and the key of an access gives its pointer.
pub fn lowered_code_is_never_stuck()
    ensures { (p : Program) (t : Tac) → IsLowered p t → is_valid_program p ≡ true → length p.functions ≤ 4096
        → (budgets : BudgetSizes)
        → AreMapped (setting_of p budgets).sizes → (input : List ℕ) (k : ℕ)
        → run (step (setting_of_code t budgets) t) k (first_stage t budgets input) ≡ Stuck → ⊥ }
{}

/// The key of an lvalue gives its pointer where it was found, whichever static objects are string literals.
pub fn keys_give_pointers()
    ensures { (env : Env) (literals : List Bool) (p : Lvalue) (s t : State) (q : Rvalue) → place env p s ≡ Gives q t
        → (key : Key) → place_key literals p ≡ Some key → gives key t q.value ≡ true }
{}

/// The code of an expression never has more values waiting than the height of the expression counts.
pub fn temporaries_fit_the_height()
    ensures { (e : Expression) → used e ≤ height e }
{}
