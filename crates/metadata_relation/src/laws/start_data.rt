//! Laws of what a file has of the static objects, each as the contract of a function that does nothing.

ghost use Rattle.std.specs.Prelude.{◌≡◌, ℕ, ◌+◌, ◌^◌, ◌<◌, ◌≤◌, List, length, true};
ghost use Rattle.addr_map.specs.declared.region.Region.TheVariants.{Globals};
ghost use Rattle.addr_map.specs.Places.{AreMapped, MapSizes, objects_begin, region_end};
ghost use Rattle.obj_memory.specs.Objects.{Objects};
ghost use Rattle.obj_memory.specs.Sound.{IsSound};
ghost use Rattle.tac_ir.specs.declared.function.StaticData.{StaticData};
ghost use Rattle.tac_ir.specs.Meaning.{placed_data};
ghost use Rattle.source_meaning.specs.State.{State as Source};
ghost use Rattle.flat_code.specs.Memory.{Bytes, store};
ghost use Rattle.flat_code.specs.State.{State};
ghost use Rattle.flat_code.specs.Routines.Metadata.{View};
ghost use Rattle.flat_code.specs.Routines.Objects.StandsFor.{global_lock};
ghost use Rattle.flat_code.specs.Routines.Objects.Start.{start_keys};
ghost use Rattle.shadow_space.specs.declared.start.StartEntry.{StartEntry};
ghost use Rattle.shadow_space.specs.Start.{AreStartEntries};
ghost use Rattle.flat_actions.specs.Actions.{IsFor, IsShown, views_of};
ghost use Rattle.flat_actions.specs.Start.{AreEntriesOf, AreStatics};
ghost use Rattle.sb_base.specs.Budgets.{BudgetSizes};
ghost use Rattle.c_tree.specs.Programs.{Program};
ghost use Rattle.c_tree.specs.ValidProgram.{is_valid_program};
ghost use Rattle.source_meaning.specs.Meaning.{initial_objects, setting_of};
ghost use Rattle.tac_ir.specs.Meaning.{objects_before};
ghost use Rattle.flat_code.specs.Routines.Objects.StandsFor.{StandsFor};
ghost use Rattle.flat_actions.specs.Actions.{AreSpacesGood};
ghost use Rattle.metadata_relation.specs.Stages.{Compiled, expansion_of, map_of, views};
ghost use Rattle.metadata_relation.specs.StartData.{AreSpacesInFile, HoldsStatics, entries_of_statics, statics_end};
ghost use Rattle.metadata_relation.specs.Steps.{IsCompiled};

use shadow_space::ShadowForm;

/// The entries of sound static objects that lie in their region are what a shadow space can begin with, and they are
/// just those of the words that hold tags.
pub fn static_entries_are_those_of_tags()
    ensures start { (map : MapSizes) (functions : ℕ) (types : ℕ → ℕ) (ds : List StaticData)
        → ((f : ℕ) → types f < 2 ^ 63) → functions ≤ 2 ^ 32 → global_lock map < 2 ^ 64
        → IsSound functions (placed_data objects_begin ds 0)
        → objects_begin + statics_end ds 0 ≤ region_end map Globals
        → AreStartEntries map (entries_of_statics types (global_lock map) objects_begin ds 0) }
    ensures tags { (map : MapSizes) (functions : ℕ) (types : ℕ → ℕ) (entry : View) (ds : List StaticData)
        → ((f : ℕ) → types f < 2 ^ 63) → functions ≤ 2 ^ 32 → global_lock map < 2 ^ 64
        → IsSound functions (placed_data objects_begin ds 0)
        → AreEntriesOf (views_of map functions types entry) (placed_data objects_begin ds 0)
        (entries_of_statics types (global_lock map) objects_begin ds 0) }
{}

/// Static objects whose bytes a memory has are all there, live, static and apart.
pub fn static_bytes_are_the_objects()
    ensures { (map : MapSizes) (functions : ℕ) (ds : List StaticData) (m : Bytes)
        → IsSound functions (placed_data objects_begin ds 0)
        → objects_begin + statics_end ds 0 ≤ region_end map Globals → HoldsStatics ds m
        → AreStatics map functions (placed_data objects_begin ds 0) m }
{}

/// Once 1 is stored at the global lock word, which lies behind all that a file can hold, the memory of a file with
/// static objects and their entries stands for the objects before the run.
pub fn a_file_stands_for_the_source<S: ShadowForm>()
    ensures { (map : MapSizes) → AreMapped map → (functions : ℕ) (types : ℕ → ℕ) (es : List StartEntry)
        (objects : Objects) (m : Bytes) → AreStartEntries map es → AreStatics map functions objects m
        → AreEntriesOf (views_of map functions types S.entry) objects es
        → AreSpacesInFile map S.entry (S.IsGood map) es m → (x : Source) (f : State) → x.objects ≡ objects
        → x.keys ≡ 0 → f.memory ≡ store 8 m (global_lock map) 1 → IsShown x f
        → IsFor (views_of map functions types S.entry) (start_keys (views_of map functions types S.entry))
        (S.IsGood map) x f }
{
    S::entries_are_local();
}

/// The static objects of the code of a valid program, as its initializers make them, are sound, and lie in their
/// region.
pub fn static_objects_are_sound_and_in_their_region()
    ensures sound { (p : Program) (budgets : BudgetSizes) → AreMapped (setting_of p budgets).sizes
        → is_valid_program p ≡ true → (ds : List StaticData)
        → placed_data objects_begin ds 0 ≡ initial_objects p (setting_of p budgets)
        → IsSound (length p.functions) (placed_data objects_begin ds 0) }
    ensures region { (p : Program) (budgets : BudgetSizes) → AreMapped (setting_of p budgets).sizes
        → is_valid_program p ≡ true → (ds : List StaticData)
        → placed_data objects_begin ds 0 ≡ initial_objects p (setting_of p budgets)
        → objects_begin + statics_end ds 0 ≤ region_end (setting_of p budgets).sizes Globals }
{}

/// A memory that begins with the static objects and with their entries stands for the source before the run, once 1 is
/// stored at the global lock word.
pub fn a_file_with_static_objects_stands_for_the_source<S: ShadowForm>()
    ensures { (c : Compiled) → IsCompiled c (S.IsGood (map_of c)) → c.entry ≡ S.entry → (m : Bytes)
        → HoldsStatics (expansion_of c).code.statics m
        → AreSpacesInFile (map_of c) S.entry (S.IsGood (map_of c)) (entries_of_statics (expansion_of c).types
        (global_lock (map_of c)) objects_begin (expansion_of c).code.statics 0) m
        → (StandsFor (views c) (start_keys (views c)) (objects_before (expansion_of c).code c.setting)
        (store 8 m (global_lock (map_of c)) 1))
        × AreSpacesGood (map_of c) (S.IsGood (map_of c)) (store 8 m (global_lock (map_of c)) 1) }
{
    S::entries_are_local();
}
