//! Laws of the steps of three-address code of any program and its expansion, each as the contract of a function that
//! does nothing.

ghost use Rattle.std.specs.Prelude.{◌≡◌, ℕ, List};
ghost use Rattle.behaviours.specs.Behaviour.{Follows};
ghost use Rattle.behaviours.specs.Steps.{run};
ghost use Rattle.source_meaning.specs.State.{State};
ghost use Rattle.tac_ir.specs.Meaning.{step, objects_before, setting_of_code, first_stage, tac_meaning};
ghost use Rattle.tac_ir.specs.Stage.{Temps, Frame, Begins, Stands, Stuck};
ghost use Rattle.flat_code.specs.Memory.{Bytes, AreBytes, store};
ghost use Rattle.flat_code.specs.Meaning.{flat_meaning};
ghost use Rattle.flat_code.specs.Routines.Objects.StandsFor.{StandsFor, global_lock};
ghost use Rattle.flat_code.specs.Routines.Objects.Start.{start_keys};
ghost use Rattle.flat_actions.specs.Actions.{AreSpacesGood};
ghost use Rattle.flat_code.specs.State.{Stage as FlatStage};
ghost use Rattle.metadata_relation.specs.Stages.{Compiled, map_of, views, expansion_of, Matches};
ghost use Rattle.metadata_relation.specs.Steps.{IsCompiled, IsCovered, CoversMain, AreAllCovered, ComesToMatch};

use shadow_space::ShadowForm;

/// From matching stages at a node whose instruction is covered the expansion comes to where it matches the next stage
/// of the program, which is not stuck: with as many turns at least, at most 21 times as much work, and, where the run
/// ends, the same status and report.
pub fn covered_instructions_are_followed<S: ShadowForm>()
    ensures { (c : Compiled) → IsCompiled c (S.IsGood (map_of c)) → (u n : ℕ) (temps : Temps) (ws : List Frame)
        (s : State) → IsCovered c u n
        → (step c.setting (expansion_of c).code (Stands u n temps ws s) ≡ Stuck → ⊥) → (x : FlatStage)
        → Matches c (S.IsGood (map_of c)) (Stands u n temps ws s) x
        → ComesToMatch c (S.IsGood (map_of c)) (step c.setting (expansion_of c).code (Stands u n temps ws s)) x }
{}

/// Where a run begins the expansion stores the global lock word and the end of the object stack, which no file holds,
/// and calls `main`, which takes nothing, or the run ends where its objects do not fit: it comes to where it matches
/// the next stage.
pub fn the_first_call_is_followed<S: ShadowForm>()
    ensures { (c : Compiled) → IsCompiled c (S.IsGood (map_of c)) → c.entry ≡ S.entry → CoversMain c → (s : State)
        (x : FlatStage) → Matches c (S.IsGood (map_of c)) (Begins s) x
        → ComesToMatch c (S.IsGood (map_of c)) (step c.setting (expansion_of c).code (Begins s)) x }
{
    S::entries_are_local();
}

/// The expansion of a program whose instructions are all covered follows it: it shows what the program shows, at each
/// moment, for each input, with at most 21 units of work for each of the program's. Once the global lock word is stored
/// the memory at the start is to stand for the static objects, and the program is never to be stuck.
pub fn covered_programs_are_followed<S: ShadowForm>()
    ensures { (c : Compiled) → IsCompiled c (S.IsGood (map_of c)) → c.entry ≡ S.entry → AreAllCovered c
        → c.setting ≡ setting_of_code (expansion_of c).code (map_of c).budgets → (memory : Bytes) → AreBytes memory
        → StandsFor (views c) (start_keys (views c)) (objects_before (expansion_of c).code c.setting)
        (store 8 memory (global_lock (map_of c)) 1)
        → AreSpacesGood (map_of c) (S.IsGood (map_of c)) (store 8 memory (global_lock (map_of c)) 1) → (input : List ℕ)
        → ((k : ℕ) → run (step (setting_of_code (expansion_of c).code (map_of c).budgets) (expansion_of c).code) k
        (first_stage (expansion_of c).code (map_of c).budgets input) ≡ Stuck → ⊥)
        → Follows 21 (tac_meaning (expansion_of c).code (map_of c).budgets input)
        (flat_meaning (map_of c) c.layout.program memory input) }
{
    S::entries_are_local();
}
