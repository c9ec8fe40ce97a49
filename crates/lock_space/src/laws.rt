//! Laws of the lock space, each as the contract of a function that does nothing: crates above rest on them.

ghost use Rattle.std.specs.Prelude.{◌≡◌, ℕ};
ghost use Rattle.addr_map.specs.Places.{MapSizes, AreMapped};
ghost use Rattle.flat_code.specs.Memory.{Bytes, load};
ghost use Rattle.flat_code.specs.Routines.Objects.StandsFor.{IsLock};
ghost use Rattle.lock_space.specs.Locks.{key_counter, AreLocksGood, KeepsLocks, IsLockStart};

/// Lock words, the counter of keys and what holds of the free list depend on the bytes of the lock space alone.
pub fn locks_are_local()
    ensures good { (s : MapSizes) (m m' : Bytes) → AreMapped s → KeepsLocks s m m' → AreLocksGood s m
        → AreLocksGood s m' }
    ensures words { (s : MapSizes) (m m' : Bytes) → AreMapped s → KeepsLocks s m m' → (a : ℕ) → IsLock s a
        → load 8 m' a ≡ load 8 m a }
    ensures counter { (s : MapSizes) (m m' : Bytes) → AreMapped s → KeepsLocks s m m'
        → key_counter s m' ≡ key_counter s m }
{}

/// Where the global lock word holds 1 and all else of the lock space is zero, every other lock word is free, and the
/// next key is 2.
pub fn the_lock_space_begins_good()
    ensures good { (s : MapSizes) (m : Bytes) → AreMapped s → IsLockStart s m → AreLocksGood s m }
    ensures counter { (s : MapSizes) (m : Bytes) → AreMapped s → IsLockStart s m → key_counter s m ≡ 2 }
{}
