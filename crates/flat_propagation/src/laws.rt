//! Laws of propagated programs, each as the contract of a function that does nothing.

ghost use Rattle.std.specs.Prelude.{◌≡◌, ℕ, List};
ghost use Rattle.behaviours.specs.Steps.{run};
ghost use Rattle.addr_map.specs.Places.{MapSizes};
ghost use Rattle.flat_code.specs.declared.function.FlatProgram.{FlatProgram};
ghost use Rattle.flat_code.specs.Memory.{Bytes, AreBytes};
ghost use Rattle.flat_code.specs.Meaning.{step, started, flat_meaning};
ghost use Rattle.flat_propagation.specs.Propagated.{propagated};

use flat_code::laws::steps_keep_words;

/// A propagated program is at the same stages, step by step, and means the same, moment by moment.
pub fn propagated_programs_mean_the_same()
    ensures runs { (m : MapSizes) (p : FlatProgram) (memory : Bytes) (input : List ℕ) → AreBytes memory → (n : ℕ)
        → run (step m (propagated p)) n (started (propagated p) memory input)
        ≡ run (step m p) n (started p memory input) }
    ensures meaning { (m : MapSizes) (p : FlatProgram) (memory : Bytes) (input : List ℕ) → AreBytes memory → (n : ℕ)
        → flat_meaning m (propagated p) memory input n ≡ flat_meaning m p memory input n }
{
    steps_keep_words();
}
