//! Laws of actions, each as the contract of a function that does nothing: crates above rest on them.

ghost use Rattle.std.specs.Prelude.{◌≡◌, ℕ, ◌+◌, List, true};
ghost use Rattle.addr_map.specs.Places.{MapSizes, AreMapped};
ghost use Rattle.obj_memory.specs.Objects.{Objects};
ghost use Rattle.source_meaning.specs.State.{State as Source};
ghost use Rattle.flat_code.specs.declared.instruction.RightOperand.{RightOperand};
ghost use Rattle.flat_code.specs.Memory.{Bytes};
ghost use Rattle.flat_code.specs.State.{State};
ghost use Rattle.flat_code.specs.declared.registers.Held.{Held};
ghost use Rattle.flat_code.specs.Routines.Registers.{AreBelow};
ghost use Rattle.flat_code.specs.Routines.Metadata.{held_registers};
ghost use Rattle.flat_code.specs.Routines.InputOutput.{IsWithoutInputOutput};
ghost use Rattle.flat_code.specs.Routines.Shape.{HasShape, has_right};
ghost use Rattle.flat_code.specs.Routines.Objects.Start.{start_keys};
ghost use Rattle.shadow_space.specs.declared.start.StartEntry.{StartEntry};
ghost use Rattle.flat_actions.specs.Actions.{views_of, IsShown, IsFor};
ghost use Rattle.flat_actions.specs.Judgement.Code.{spatial_code, temporal_code};
ghost use Rattle.flat_actions.specs.Judgement.Testing.{IsBelow, IsSpatialRoutine, IsTemporalRoutine};
ghost use Rattle.flat_actions.specs.Narrowing.{CanNarrow, IsNarrowRoutine, IsMoveOnRoutine, narrow_code};
ghost use Rattle.flat_actions.specs.Start.{AreStatics, AreEntriesOf, AreSpacesAtStart};

use shadow_space::ShadowForm;

/// The memory with which an image begins, with static objects in it and the runtime's spaces as their crates give
/// them, stands for the objects before the run.
pub fn the_start_stands_for_the_source<S: ShadowForm>()
    ensures { (map : MapSizes) → AreMapped map → (functions : ℕ) (types : ℕ → ℕ) (es : List StartEntry)
        (objects : Objects) (m : Bytes) → AreStatics map functions objects m
        → AreEntriesOf (views_of map functions types S.entry) objects es
        → AreSpacesAtStart map S.entry (S.IsGood map) es m
        → (x : Source) (f : State) → x.objects ≡ objects → x.keys ≡ 0 → f.memory ≡ m → IsShown x f
        → IsFor (views_of map functions types S.entry) (start_keys (views_of map functions types S.entry))
        (S.IsGood map) x f }
{}

/// The instructions of both tests of an access test it, over whatever registers meet the premises of `spatial_check`
/// and `temporal_check`, in functions of the program and of the runtime. They are seven and three, and name one
/// register behind those that they are given; a size that is a number has to be one that an instruction holds.
pub fn the_tests_of_an_access_are_exact()
    ensures spatial { (h : Held) (size : RightOperand) (line t : ℕ) → AreBelow t (held_registers h) → IsBelow t size
        → IsSpatialRoutine h size line t (spatial_code h size line t) }
    ensures temporal { (h : Held) (line t : ℕ) → AreBelow t (held_registers h)
        → IsTemporalRoutine h line t (temporal_code h line t) }
    ensures spatial_shape { (h : Held) (size : RightOperand) (line t : ℕ) → AreBelow t (held_registers h)
        → has_right t size ≡ true → HasShape (spatial_code h size line t) 7 (t + 1) }
    ensures temporal_shape { (h : Held) (line t : ℕ) → AreBelow t (held_registers h)
        → HasShape (temporal_code h line t) 3 (t + 1) }
    ensures spatial_computes { (h : Held) (size : RightOperand) (line t : ℕ)
        → IsWithoutInputOutput (spatial_code h size line t) }
    ensures temporal_computes { (h : Held) (line t : ℕ) → IsWithoutInputOutput (temporal_code h line t) }
{}

/// The instructions that narrow a pointer do so over whatever registers meet the premise of `narrow`, in functions of
/// the program and of the runtime. They are eight, and name one register behind those that they are given; an operand
/// that is a number has to be one that an instruction holds.
pub fn pointers_are_narrowed_exactly()
    ensures narrows { (h : Held) (offset size : RightOperand) (t : ℕ) → CanNarrow h offset size t
        → IsNarrowRoutine h offset size t (narrow_code h offset size t) }
    ensures goes_on { (h : Held) (offset size : RightOperand) (t : ℕ) → CanNarrow h offset size t
        → IsMoveOnRoutine h offset t (narrow_code h offset size t) }
    ensures shape { (h : Held) (offset size : RightOperand) (t : ℕ) → AreBelow t (held_registers h)
        → has_right t offset ≡ true → has_right t size ≡ true → HasShape (narrow_code h offset size t) 8 (t + 1) }
    ensures computes { (h : Held) (offset size : RightOperand) (t : ℕ)
        → IsWithoutInputOutput (narrow_code h offset size t) }
{}
