//! Laws of the definitions, each as the contract of a function that does nothing: passes above rest on them.

ghost use Rattle.std.specs.Prelude.{◌≡◌, ℕ, List, Some, true, false, slice_get};
ghost use Rattle.behaviours.specs.Behaviour.{Behaviour, Follows, IsSource};
ghost use Rattle.behaviours.specs.Steps.{run, IsStepping};
ghost use Rattle.sb_base.specs.Budgets.{BudgetSizes};
ghost use Rattle.obj_memory.specs.declared.value.Tag.{Tag};
ghost use Rattle.obj_memory.specs.Objects.{Objects};
ghost use Rattle.source_meaning.specs.Judging.{is_within, is_live_tag};
ghost use Rattle.source_meaning.specs.State.{Setting, State};
ghost use Rattle.tac_ir.specs.declared.instruction.Instruction.{Instruction};
ghost use Rattle.tac_ir.specs.declared.instruction.Instruction.TheVariants.{Judge};
ghost use Rattle.tac_ir.specs.declared.instruction.Test.{Test};
ghost use Rattle.tac_ir.specs.declared.key.Key.{Key};
ghost use Rattle.tac_ir.specs.Changes.{ends_lives, KeepsLivesAt};
ghost use Rattle.tac_ir.specs.Edges.{is_local, GoesAlong, StaysIn};
ghost use Rattle.tac_ir.specs.Keys.{gives, same_tag};
ghost use Rattle.tac_ir.specs.Later.{ComesLater};
ghost use Rattle.tac_ir.specs.declared.function.Tac.{Tac};
ghost use Rattle.tac_ir.specs.Stage.{Temps, Frame, Stage, Stuck, seen};
ghost use Rattle.tac_ir.specs.Meaning.{fits, effect, act, function_in, keys_of, setting_of_code, step, first_stage};
ghost use Rattle.tac_ir.specs.Meaning.{tac_meaning};

pub mod plain_variables;
pub mod same_tables;

/// A step begins at most one turn, and what has ended, or is stuck, stays so.
pub fn steps_begin_at_most_one_turn()
    ensures { (g : Setting) (t : Tac) → IsStepping (step g t) seen (λ (x : Stage). x ≡ Stuck) }
{}

/// Code that follows a source is never stuck: whatever its steps test is true in each of its runs.
pub fn code_that_follows_is_never_stuck()
    ensures { (t : Tac) (budgets : BudgetSizes) (input : List ℕ) (c : ℕ) (a : Behaviour) → IsSource a
        → Follows c a (tac_meaning t budgets input) → (k : ℕ)
        → run (step (setting_of_code t budgets) t) k (first_stage t budgets input) ≡ Stuck → ⊥ }
{}

/// A step from a node goes along an edge of the function's graph to another node of it, over which the same callers
/// wait, or calls a function and waits at a successor, or returns to where the last caller waits, or ends the run.
pub fn steps_go_along_edges()
    ensures { (g : Setting) (t : Tac) (i : Instruction) (u : ℕ) (temps : Temps) (frames : List Frame) (s : State)
        → GoesAlong i u frames (act g t i u temps frames s) }
{}

/// An instruction that neither calls nor returns stays in its function: it goes along an edge of the function's graph,
/// over which the same callers wait, or ends the run.
pub fn local_instructions_stay_in_their_function()
    ensures { (g : Setting) (t : Tac) (i : Instruction) (u : ℕ) (temps : Temps) (frames : List Frame) (s : State)
        → is_local i ≡ true → StaysIn i u frames (act g t i u temps frames s) }
{}

/// A check that has a key, and is not stuck, is of what its key gives: the address and the tag.
pub fn checks_are_of_their_keys()
    ensures { (g : Setting) (t : Tac) (of : Test) (size line n a m u : ℕ) (temps : Temps) (frames : List Frame)
        (s : State) → (act g t (Judge of size line (Some n) a m) u temps frames s ≡ Stuck → ⊥)
        → (key : Key) × (slice_get (keys_of (function_in t u)) n ≡ Some key) × (gives key s (temps a).value ≡ true) }
{}

/// Tags that are the same allow the same accesses: their bounds hold the same bytes, and their objects live together.
pub fn same_tags_allow_the_same_accesses()
    ensures bounds { (a b : Tag) → same_tag a b ≡ true → (address size : ℕ)
        → is_within a address size ≡ is_within b address size }
    ensures life { (a b : Tag) → same_tag a b ≡ true → (objects : Objects)
        → is_live_tag a objects ≡ is_live_tag b objects }
{}

/// Objects die at no instructions but `free` and `realloc`, the end of a block and the return of a call.
pub fn objects_die_at_named_instructions()
    ensures { (g : Setting) (t : Tac) (i : Instruction) (u : ℕ) (temps : Temps) (frames : List Frame) (s : State)
        → ends_lives i ≡ false → KeepsLivesAt s (act g t i u temps frames s) }
{}

/// What an instruction that is not stuck is given fits, and it does its effect.
pub fn instructions_fit()
    ensures { (g : Setting) (t : Tac) (i : Instruction) (u : ℕ) (temps : Temps) (frames : List Frame) (s : State)
        → (act g t i u temps frames s ≡ Stuck → ⊥)
        → (fits g t i u temps s ≡ true) × (act g t i u temps frames s ≡ effect g t i u temps frames s) }
{}

/// An instruction leads to a later state of the run, a call and a return too: objects stay where they are and keep
/// their sizes, the dead stay dead, and what is shown, the work, the turns and the keys do not shrink.
pub fn instructions_lead_to_later_states()
    ensures { (g : Setting) (t : Tac) (i : Instruction) (u : ℕ) (temps : Temps) (frames : List Frame) (s : State)
        → ComesLater s (act g t i u temps frames s) }
{}
