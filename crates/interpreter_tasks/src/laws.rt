//! Laws of the definitions, each as the contract of a function that does nothing.

ghost use Rattle.std.specs.Prelude.{◌≡◌, ℕ, ◌+◌, List, [], ◌∷◌, ◌++◌};
ghost use Rattle.sb_base.specs.Budgets.{BudgetSizes};
ghost use Rattle.c_tree.specs.Programs.{Function, Program};
ghost use Rattle.source_meaning.specs.Acting.{Later, state_of};
ghost use Rattle.source_meaning.specs.State.{State, on, done};
ghost use Rattle.source_meaning.specs.Calls.{first_of, function_at};
ghost use Rattle.source_meaning.specs.Meaning.{line_of, outcome, setting_of, start};
ghost use Rattle.interpreter_tasks.specs.Registers.{Course, Registers, at_start, course_of};
ghost use Rattle.interpreter_tasks.specs.Tasks.{Task, Call, rest};
ghost use Rattle.interpreter_tasks.specs.Steps.{step};

/// A step of the first task keeps what all tasks mean: what comes of them is what comes of the step and then of the
/// tasks that it gives way to, before the others.
pub fn steps_keep_the_meaning()
    ensures { (c : Course) (t : Task) (ts : List Task) (r : Registers) (s : State)
        → rest c (t ∷ ts) r s ≡ on (step c t r s) (λ x. rest c (x.tasks ++ ts) x.registers) }
{}

/// What comes of a program is what comes of one task, the call of `main`: its value is the one found then.
pub fn runs_begin_with_main()
    ensures { (p : Program) (budgets : BudgetSizes) (input : List ℕ) (turns : ℕ) (f : Function)
        → outcome p budgets input turns
        ≡ on (rest (course_of p budgets turns) (Call p.main 0 (line_of (function_at p.functions p.main)) ∷ [])
        (at_start f (turns + 1)) (start p (setting_of p budgets) input)) (λ r. done (first_of r.values)) }
{}

/// What is left to do leads to later states: what a run has shown stays, and no work, turn, key or byte of the input is
/// taken back.
pub fn tasks_lead_to_later_states()
    ensures { (c : Course) (ts : List Task) (r : Registers) (s : State) → Later s (state_of (rest c ts r s)) }
{}
