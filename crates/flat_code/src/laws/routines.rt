//! Laws of routines, each as the contract of a function that does nothing: crates above rest on them. Those that speak
//! of any condition and any result are public lemmas of `proofs/Rules`, `proofs/Renamed` and `proofs/Wrapped`.

ghost use Rattle.std.specs.Prelude.{◌≡◌, ◌+◌, ◌*◌, ◌≤◌, ℕ, List, Bool, true, false, map, length};
ghost use Rattle.sb_base.specs.declared.ending.Ending.{Ending};
ghost use Rattle.behaviours.specs.Steps.{run};
ghost use Rattle.addr_map.specs.Places.{MapSizes};
ghost use Rattle.flat_code.specs.declared.instruction.FlatInstruction.{FlatInstruction};
ghost use Rattle.flat_code.specs.declared.function.FlatProgram.{FlatProgram};
ghost use Rattle.flat_code.specs.Calls.{function_in};
ghost use Rattle.flat_code.specs.State.{State, Frame, Stands};
ghost use Rattle.flat_code.specs.Meaning.{Context, Goes, body_of, context, step};
ghost use Rattle.flat_code.specs.Routines.Local.{local_run};
ghost use Rattle.flat_code.specs.Routines.Routine.{HasAt, Outcome, left_at};
ghost use Rattle.flat_code.specs.Routines.Effects.{effects, AreAllowed};
ghost use Rattle.flat_code.specs.Routines.Renaming.{rename, all_fit, IsRenaming, through};
ghost use Rattle.flat_code.specs.Routines.Lifted.{stage_of};
ghost use Rattle.flat_code.specs.Routines.Laws.{Arrives, work_of, report_length};
ghost use Rattle.flat_code.specs.Routines.InputOutput.{has_input_output};
ghost use Rattle.flat_code.specs.Routines.ExitStubs.{HasExitStubs, DoesWithStubs};

/// A routine does from any place of any function, and over any registers, what it does alone from place 0 and over its
/// own, in no more steps; all registers but those that it is given to write keep their values.
pub fn routines_do_the_same_anywhere()
    ensures { (c : Context) (n d : ℕ) (f : ℕ → ℕ) (r : List FlatInstruction) → IsRenaming n d f
        → all_fit n d (length r) 0 r ≡ true
        → (code : List FlatInstruction) (pc : ℕ) (s : State) → HasAt code pc (map (rename f) r)
        → (k : ℕ) (x : Outcome) → local_run c r k (Goes 0 (through f s)) ≡ left_at (length r) x
        → Arrives c n d f code k pc s (pc + length r) x }
{}

/// Instructions without jumps that may be done do what their effects say, one step each.
pub fn straight_code_has_its_effects()
    ensures { (c : Context) (code is : List FlatInstruction) (pc : ℕ) (s : State) → AreAllowed c is s → HasAt code pc is
        → local_run c code (length is) (Goes pc s) ≡ Goes (pc + length is) (effects c is s) }
{}

/// What a function does within itself, the run of its program does in as many steps.
pub fn programs_run_their_functions()
    ensures { (m : MapSizes) (p : FlatProgram) (f : ℕ) (frames : List Frame) (n pc : ℕ) (s : State) (place : ℕ)
        (x : Outcome) → local_run (context m p f frames) (body_of (function_in p f)) n (Goes pc s) ≡ left_at place x
        → run (step m p) n (Stands f pc s frames) ≡ stage_of f frames place x }
{}

/// So many steps within a function do at most twice their weight of work, and its weight once more for each byte of a
/// report.
pub fn runs_do_little_work()
    ensures { (c : Context) (code : List FlatInstruction) (n pc : ℕ) (s : State) (place : ℕ) (x : Outcome)
        → local_run c code n (Goes pc s) ≡ left_at place x
        → work_of x ≤ s.work + c.weight * (2 * n + report_length x) }
{}

/// In code that takes no input and puts no output they do at most their weight, and once more for each byte of a
/// report.
pub fn runs_without_input_and_output_do_less_work()
    ensures { (c : Context) (code : List FlatInstruction) → has_input_output code ≡ false
        → (n pc : ℕ) (s : State) (place : ℕ) (x : Outcome) → local_run c code n (Goes pc s) ≡ left_at place x
        → work_of x ≤ s.work + c.weight * (n + report_length x) }
{}

/// Where endings of a routine are jumps to exit stubs, the code does what the routine does. Where that ends the run,
/// the code ends it as well, or comes to the stub of the ending in the same state but for the work of the report.
pub fn endings_may_be_exit_stubs()
    ensures { (c : Context) (stub : Ending → ℕ) (routine code : List FlatInstruction) (from : ℕ)
        → HasExitStubs stub routine code from → (n q : ℕ) (s : State)
        → DoesWithStubs c code from stub n (Goes (from + q) s) (local_run c routine n (Goes q s)) }
{}
