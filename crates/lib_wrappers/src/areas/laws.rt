//! What keeps areas, and what areas keep: laws, each as the contract of a function that does nothing.

ghost use Rattle.std.specs.Prelude.{◌≡◌, ◌+◌, ◌≤◌, ◌<◌, ℕ, List};
ghost use Rattle.addr_map.specs.declared.region.Region.TheVariants.{StructureValues};
ghost use Rattle.addr_map.specs.Places.{MapSizes, AreMapped, region_start};
ghost use Rattle.obj_memory.specs.Objects.{ObjectState, Objects};
ghost use Rattle.obj_memory.specs.Sound.{IsSoundObject};
ghost use Rattle.source_meaning.specs.State.{State as Source};
ghost use Rattle.flat_code.specs.declared.instruction.RightOperand.{RightOperand};
ghost use Rattle.flat_code.specs.declared.instruction.FlatInstruction.{FlatInstruction};
ghost use Rattle.flat_code.specs.Memory.{Bytes};
ghost use Rattle.flat_code.specs.State.{State};
ghost use Rattle.flat_code.specs.declared.registers.Held.{Held};
ghost use Rattle.flat_code.specs.Routines.InputOutput.{IsWithoutInputOutput};
ghost use Rattle.flat_code.specs.Routines.Metadata.{ShowsNothing, held_registers};
ghost use Rattle.flat_code.specs.Routines.Registers.{AreBelow, AreDistinct};
ghost use Rattle.flat_code.specs.Routines.Shape.{HasShape};
ghost use Rattle.flat_code.specs.Routines.Objects.StandsFor.{Views, Keys};
ghost use Rattle.flat_actions.specs.Actions.{KeepsHeld, IsFor, registers_of, views_of};
ghost use Rattle.flat_actions.specs.Narrowing.{IsMoveOnRoutine};
ghost use Rattle.lib_wrappers.specs.declared.accesses.held.HeldScalar.{HeldScalar};
ghost use Rattle.lib_wrappers.specs.AccessRoutines.Holding.{holder_in};
ghost use Rattle.lib_wrappers.specs.AreaRoutines.Areas.{IsArea};
ghost use Rattle.lib_wrappers.specs.AreaRoutines.Parts.{IsNarrowPartRoutine};
ghost use Rattle.lib_wrappers.specs.AreaRoutines.Reading.{IsReadPartRoutine, read_length, read_part_code};

use shadow_space::ShadowForm;

/// An area holds what it held, whatever routines do that leave the spaces behind the table of blocks as they were,
/// while objects are made with keys of their own: the contents hold no tags of those.
pub fn areas_stay()
    ensures { (map : MapSizes) (g : Views) (before after : Keys) (objects : Objects) (c : ObjectState) (address : ℕ)
        (m m' : Bytes) → region_start map StructureValues ≤ address
        → ((b : ℕ) → region_start map StructureValues ≤ b → m' b ≡ m b) → KeepsHeld objects before after
        → IsSoundObject g.functions objects c → IsArea g before c address m → IsArea g after c address m' }
{}

/// A memory that changes behind the table of blocks alone, as where an area is written, stands for the same state of
/// the source.
pub fn objects_stay_where_areas_change<S: ShadowForm>()
    ensures { (map : MapSizes) → AreMapped map → (functions : ℕ) (types : ℕ → ℕ) (k : Keys) (x : Source) (f f' : State)
        → ((b : ℕ) → b < region_start map StructureValues → f'.memory b ≡ f.memory b) → ShowsNothing f f'
        → IsFor (views_of map functions types S.entry) k (S.IsGood map) x f
        → IsFor (views_of map functions types S.entry) k (S.IsGood map) x f' }
{
    S::entries_are_local();
}

/// What narrows pointers narrows parts of contents as well, in place: these have no lock word, so the address alone
/// goes on, to the member that the source narrows the part to.
pub fn members_of_contents_are_narrowed_in_place()
    ensures { (h : Held) (by : RightOperand) (t : ℕ) (r : List FlatInstruction) → IsMoveOnRoutine h by t r
        → IsNarrowPartRoutine h by t r }
{}

/// The instructions of `read_part` read a scalar out of contents, over whatever registers meet its premises, in
/// functions of the program and of the runtime. They name no register from the seventh behind `scratch` on.
pub fn parts_are_read_exactly()
    ensures does { (h : Held) (into : HeldScalar) (t : ℕ) → AreBelow t (held_registers h)
        → AreBelow t (registers_of (holder_in into)) → AreDistinct (registers_of (holder_in into))
        → IsReadPartRoutine h into t (read_part_code h into t) }
    ensures shape { (h : Held) (into : HeldScalar) (t : ℕ) → AreBelow t (held_registers h)
        → AreBelow t (registers_of (holder_in into))
        → HasShape (read_part_code h into t) (read_length into) (t + 7) }
    ensures computes { (h : Held) (into : HeldScalar) (t : ℕ) → IsWithoutInputOutput (read_part_code h into t) }
{}
