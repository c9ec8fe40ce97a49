//! Laws of the instructions of loads and stores, over whatever registers, each as the contract of a function that does
//! nothing: compiled code has these instructions inline.

ghost use Rattle.std.specs.Prelude.{ℕ, ◌+◌, ◌∷◌};
ghost use Rattle.addr_map.specs.Places.{MapSizes, AreMapped};
ghost use Rattle.flat_code.specs.Routines.Registers.{AreBelow};
ghost use Rattle.flat_code.specs.Routines.InputOutput.{IsWithoutInputOutput};
ghost use Rattle.flat_code.specs.Routines.Shape.{HasShape};
ghost use Rattle.flat_actions.specs.Actions.{registers_of, program_basis};
ghost use Rattle.lib_wrappers.specs.declared.accesses.held.HeldScalar.{HeldScalar};
ghost use Rattle.lib_wrappers.specs.AccessRoutines.Holding.{holder_in, IsApartFrom};
ghost use Rattle.lib_wrappers.specs.AccessRoutines.Accessing.{IsLoadRoutine, load_code, load_length};
ghost use Rattle.lib_wrappers.specs.AccessRoutines.Accessing.{IsStoreRoutine, store_code, store_length};

use shadow_space::ShadowForm;

/// The instructions of `load` load a scalar, over whatever registers meet its premises. They name no register from the
/// third behind `scratch` on.
pub fn loads_are_exact<S: ShadowForm>()
    ensures does { (map : MapSizes) (address : ℕ) (into : HeldScalar) (t : ℕ) → AreMapped map
        → AreBelow t (address ∷ registers_of (holder_in into)) → IsApartFrom address into
        → IsLoadRoutine (program_basis map S.entry (S.IsGood map)) address into t
        (load_code S.entry_read map address into t) }
    ensures shape { (map : MapSizes) (address : ℕ) (into : HeldScalar) (t : ℕ) → AreMapped map
        → AreBelow t (address ∷ registers_of (holder_in into))
        → HasShape (load_code S.entry_read map address into t) (load_length into) (t + 3) }
    ensures computes { (map : MapSizes) (address : ℕ) (into : HeldScalar) (t : ℕ) → AreMapped map
        → AreBelow t (address ∷ registers_of (holder_in into))
        → IsWithoutInputOutput (load_code S.entry_read map address into t) }
{
    S::entries_are_read_and_written()
}

/// The instructions of `store` store a scalar, over whatever registers meet its premises. They name no register from
/// the fifth behind `scratch` on.
pub fn stores_are_exact<S: ShadowForm>()
    ensures does { (map : MapSizes) (address : ℕ) (from : HeldScalar) (t : ℕ) → AreMapped map
        → AreBelow t (address ∷ registers_of (holder_in from))
        → IsStoreRoutine (program_basis map S.entry (S.IsGood map)) address from t
        (store_code S.entry_write map address from t) }
    ensures shape { (map : MapSizes) (address : ℕ) (from : HeldScalar) (t : ℕ) → AreMapped map
        → AreBelow t (address ∷ registers_of (holder_in from))
        → HasShape (store_code S.entry_write map address from t) (store_length from) (t + 5) }
    ensures computes { (map : MapSizes) (address : ℕ) (from : HeldScalar) (t : ℕ) → AreMapped map
        → AreBelow t (address ∷ registers_of (holder_in from))
        → IsWithoutInputOutput (store_code S.entry_write map address from t) }
{
    S::entries_are_local();
    S::entries_are_read_and_written()
}
