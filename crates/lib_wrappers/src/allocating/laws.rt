//! Laws of what the routines do and take for granted, each as the contract of a function that does nothing.

ghost use Rattle.std.specs.Prelude.{◌≡◌, ℕ, ◌+◌, ◌≤◌, List, [], ◌∷◌, true};
ghost use Rattle.addr_map.specs.Places.{MapSizes, AreMapped};
ghost use Rattle.obj_memory.specs.declared.object.Storage.{Storage};
ghost use Rattle.obj_memory.specs.declared.object.Storage.TheVariants.{Automatic};
ghost use Rattle.obj_memory.specs.Objects.{Objects, object_at, with_new, with_dead, with_zeroed};
ghost use Rattle.obj_memory.specs.Sound.{KeepsObjects};
ghost use Rattle.source_meaning.specs.State.{State as Source, Home};
ghost use Rattle.flat_code.specs.Memory.{Bytes};
ghost use Rattle.flat_code.specs.Routines.Registers.{AreBelow};
ghost use Rattle.flat_code.specs.Routines.InputOutput.{IsWithoutInputOutput};
ghost use Rattle.flat_code.specs.Routines.Shape.{HasShape};
ghost use Rattle.flat_code.specs.Routines.Metadata.{View};
ghost use Rattle.flat_code.specs.Routines.Objects.StandsFor.{Views, Keys, StandsFor};
ghost use Rattle.heap_space.specs.Table.{IsTableGood};
ghost use Rattle.flat_actions.specs.Actions.{views_of};
ghost use Rattle.lib_wrappers.specs.AllocatingRoutines.Entering.{IsHomeOf, AreOfLock, AreNewlyKeyed};
ghost use Rattle.lib_wrappers.specs.AllocatingRoutines.Entering.{IsLeaveRoutine, leave_code};
ghost use Rattle.lib_wrappers.specs.AllocatingRoutines.Premises.{HaveBytes};
ghost use Rattle.lib_wrappers.specs.AllocatingRoutines.Zeroing.{IsZeroed};

use shadow_space::ShadowForm;

/// Where the bytes of a live object become zero, and its words words without a pointer, as by `zero`, the memory stands
/// for the objects with that one set to zero.
pub fn a_zeroed_object_is_zero()
    ensures { (map : MapSizes) (functions : ℕ) (types : ℕ → ℕ) (entry : View) (k : Keys) (objects : Objects) (n : ℕ)
        (m m' : Bytes) → AreMapped map → StandsFor (views_of map functions types entry) k objects m
        → IsTableGood map m → (object_at objects n).is_live ≡ true
        → IsZeroed map entry (object_at objects n).address (object_at objects n).size m m'
        → StandsFor (views_of map functions types entry) k (with_zeroed n objects) m' }
{}

/// Live automatic objects have bytes still when one is made that has, when one dies, and when bytes and tags are
/// written.
pub fn objects_have_bytes_still()
    ensures none { HaveBytes [] }
    ensures new { (storage : Storage) (address size : ℕ) (objects : Objects) → (storage ≡ Automatic → 1 ≤ size)
        → HaveBytes objects → HaveBytes (with_new storage address size objects) }
    ensures dead { (n : ℕ) (objects : Objects) → HaveBytes objects → HaveBytes (with_dead n objects) }
    ensures kept { (old new : Objects) → KeepsObjects old new → HaveBytes old → HaveBytes new }
{}

/// While one of its objects lives, the lock word of a block stays that of its objects alone, whatever other objects are
/// made and die.
pub fn the_lock_word_of_a_block_stays_its_own()
    ensures { (g : Views) (k k' : Keys) (x x' : Source) (homes : List Home) (lock : ℕ) (m m' : Bytes)
        → StandsFor g k x.objects m → StandsFor g k' x'.objects m' → AreNewlyKeyed x x' k k' → (some : ℕ)
        → IsHomeOf some homes → (object_at x'.objects some).is_live ≡ true → AreOfLock k x homes lock
        → AreOfLock k' x' homes lock }
{}

/// The instructions of `leave` leave a block, over whatever registers meet its premises, in functions of the program
/// and of the runtime. They are eleven, and name three registers behind the one that they are given.
pub fn blocks_are_left_exactly<S: ShadowForm>()
    ensures does { (map : MapSizes) (lock t : ℕ) → AreMapped map → AreBelow t (lock ∷ [])
        → IsLeaveRoutine map S.entry (S.IsGood map) lock t (leave_code map lock t) }
    ensures shape { (map : MapSizes) (lock t : ℕ) → AreMapped map → AreBelow t (lock ∷ [])
        → HasShape (leave_code map lock t) 11 (t + 3) }
    ensures computes { (map : MapSizes) (lock t : ℕ) → IsWithoutInputOutput (leave_code map lock t) }
{
    S::entries_are_local()
}
