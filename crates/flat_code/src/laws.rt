//! Laws of the definitions, each as the contract of a function that does nothing: passes above rest on them.

ghost use Rattle.std.specs.Prelude.{◌≡◌, ◌⊎◌, ◌+◌, ◌^◌, ◌<◌, ◌≤◌, ℕ};
ghost use Rattle.behaviours.specs.Steps.{IsStepping};
ghost use Rattle.addr_map.specs.Places.{MapSizes};
ghost use Rattle.flat_code.specs.declared.function.FlatProgram.{FlatProgram};
ghost use Rattle.flat_code.specs.Memory.{Bytes, load, store, AreBytes, KeepsBut, Keeps};
ghost use Rattle.flat_code.specs.State.{Stage, Stuck, seen};
ghost use Rattle.flat_code.specs.Meaning.{step};
ghost use Rattle.flat_code.specs.Words.{HasWords};

pub mod objects;
pub mod routines;
pub mod spaces;

/// A step begins at most one turn, and what has ended, or is stuck, stays so.
pub fn steps_begin_at_most_one_turn()
    ensures { (m : MapSizes) (p : FlatProgram) → IsStepping (step m p) seen (λ (x : Stage). x ≡ Stuck) }
{}

/// A number that fits is loaded as it was stored, and the bytes beside it stay, and so do the numbers there.
pub fn stored_numbers_are_loaded()
    ensures loaded { (n : ℕ) (m : Bytes) (a v : ℕ) → v < 256 ^ n → load n (store n m a v) a ≡ v }
    ensures others { (n : ℕ) (m : Bytes) (a v : ℕ) → KeepsBut a n m (store n m a v) }
    ensures beside { (n k : ℕ) (m : Bytes) (a b v : ℕ) → (b + n ≤ a) ⊎ (a + k ≤ b)
        → load n (store k m a v) b ≡ load n m b }
    ensures kept { (n : ℕ) (m m' : Bytes) (a : ℕ) → Keeps a n m m' → load n m' a ≡ load n m a }
{}

/// Bytes stay bytes when a number is stored, and what is loaded fits into its bytes.
pub fn loaded_numbers_fit()
    ensures fits { (n : ℕ) (m : Bytes) (a : ℕ) → AreBytes m → load n m a < 256 ^ n }
    ensures bytes { (n : ℕ) (m : Bytes) (a v : ℕ) → AreBytes m → AreBytes (store n m a v) }
{}

/// Every value stays a word of 64 bits, those of waiting activation records too, and every byte a byte.
pub fn steps_keep_words()
    ensures { (m : MapSizes) (p : FlatProgram) (x : Stage) → HasWords x → HasWords (step m p x) }
{}
