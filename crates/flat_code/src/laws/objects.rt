//! Laws of the relation, each as the contract of a function that does nothing: crates above rest on them.

ghost use Rattle.std.specs.Prelude.{◌≡◌, ◌≢◌, ◌+◌, ◌<◌, ◌≤◌, ℕ, List, true, length, get_or};
ghost use Rattle.addr_map.specs.Places.{AreMapped};
ghost use Rattle.obj_memory.specs.declared.object.Storage.TheVariants.{Static};
ghost use Rattle.obj_memory.specs.declared.value.Place.{Place};
ghost use Rattle.obj_memory.specs.Objects.{Objects, object_at};
ghost use Rattle.obj_memory.specs.Access.{move_range, write_bytes};
ghost use Rattle.obj_memory.specs.Sound.{IsSound, IsPlace, KeepsObjects};
ghost use Rattle.flat_code.specs.Memory.{Bytes};
ghost use Rattle.flat_code.specs.Routines.Objects.StandsFor.{Views, Keys, StandsFor};
ghost use Rattle.flat_code.specs.Routines.Objects.Start.{start_keys, IsStart};
ghost use Rattle.flat_code.specs.Routines.Objects.Changes.{Changes, IsPut, IsMoved, AreBorn, AreDead};

/// Where a live object and its bytes and entries become others, and nothing else changes, the memory stands for the
/// objects with that one changed.
pub fn one_object_changes()
    ensures { (g : Views) (k : Keys) (n : ℕ) (old new : Objects) (m m' : Bytes) → AreMapped g.sizes
        → StandsFor g k old m → (object_at old n).is_live ≡ true
        → KeepsObjects old new → IsSound g.functions new → ((j : ℕ) → j ≢ n → object_at new j ≡ object_at old j)
        → Changes g k (object_at old n) (object_at new n) m m' → StandsFor g k new m' }
{}

/// Bytes put into a live object.
pub fn bytes_are_put()
    ensures { (g : Views) (k : Keys) (old : Objects) (m m' : Bytes) (new : List ℕ) (p : Place) → AreMapped g.sizes
        → StandsFor g k old m
        → (object_at old p.object).is_live ≡ true → IsPlace old p (length new) → ((j : ℕ) → get_or new j 0 < 256)
        → IsPut g new ((object_at old p.object).address + p.offset) m m' → StandsFor g k (write_bytes new p old) m' }
{}

/// A range moved from one place of live objects to another.
pub fn a_range_is_moved()
    ensures { (g : Views) (k : Keys) (old : Objects) (m m' : Bytes) (size : ℕ) (d s : Place) → AreMapped g.sizes
        → StandsFor g k old m
        → (object_at old d.object).is_live ≡ true → (object_at old s.object).is_live ≡ true → IsPlace old d size
        → IsPlace old s size
        → IsMoved g size ((object_at old d.object).address + d.offset)
        ((object_at old s.object).address + s.offset) m m'
        → StandsFor g k (move_range size d s old) m' }
{}

/// The objects of an entered block, or a block of the heap, made under one lock word with the next key.
pub fn objects_are_born()
    ensures { (g : Views) (k k' : Keys) (old new : Objects) (lock : ℕ) (m m' : Bytes) → AreMapped g.sizes
        → StandsFor g k old m → AreBorn g k k' old new lock m m' → StandsFor g k' new m' }
{}

/// All objects under one lock word died.
pub fn objects_die()
    ensures { (g : Views) (k : Keys) (old new : Objects) (lock : ℕ) (m m' : Bytes) → AreMapped g.sizes
        → StandsFor g k old m → AreDead g k old new lock m m' → StandsFor g k new m' }
{}

/// Two objects that are not static and have one key, as those of one entered block, have one lock word too, and so has
/// each between them by number; every other key differs.
pub fn objects_with_one_key_share_their_lock_word()
    ensures { (g : Views) (k : Keys) (objects : Objects) (m : Bytes) (n i j : ℕ) → StandsFor g k objects m → n ≤ i
        → i ≤ j → j < length objects → (object_at objects n).storage ≢ Static → (object_at objects i).storage ≢ Static
        → (object_at objects j).storage ≢ Static → (k.held n).key ≡ (k.held j).key
        → (k.held i ≡ k.held n) × (k.held j ≡ k.held n) }
{}

/// The memory with which a run begins stands for the static objects.
pub fn the_start_stands_for_static_objects()
    ensures { (g : Views) (objects : Objects) (m : Bytes) → AreMapped g.sizes → IsStart g objects m
        → StandsFor g (start_keys g) objects m }
{}
