//! Laws of the code that is generated, each as the contract of a function that does nothing: what is above rests on
//! them.

ghost use Rattle.std.specs.Prelude.{◌≡◌, ◌^◌, ◌<◌, ℕ, List};
ghost use Rattle.addr_map.specs.Places.{MapSizes, AreMapped};
ghost use Rattle.behaviours.specs.Behaviour.{Follows};
ghost use Rattle.behaviours.specs.Steps.{run};
ghost use Rattle.flat_code.specs.declared.function.FlatProgram.{FlatProgram};
ghost use Rattle.flat_code.specs.Memory.{Bytes, AreBytes};
ghost use Rattle.flat_code.specs.State.{Stuck};
ghost use Rattle.flat_code.specs.Meaning.{step, started, flat_meaning};
ghost use Rattle.reg_plan.specs.declared.plan.FunctionPlan.{FunctionPlan};
ghost use Rattle.reg_plan.specs.Tests.{AreAccepted};
ghost use Rattle.rv_asm.specs.Items.{AreApart, AreThere};
ghost use Rattle.rv_asm.specs.Forms.{IsAssemblable, longest_size};
ghost use Rattle.rv_sim.specs.Behaviour.{behaviour};
ghost use Rattle.machine_laws.specs.View.Segments.{Hold};
ghost use Rattle.machine_laws.specs.Calls.Table.{start_address};
ghost use Rattle.machine_laws.specs.Following.Code.{IsEncodable};
ghost use Rattle.machine_laws.specs.Following.Matching.{object_bytes, space_bytes};
ghost use Rattle.machine_laws.specs.Following.Start.{layout_of, IsStartable, begins};
ghost use Rattle.machine_laws.specs.Layout.Lists.{bytes_of, items_of, ArePlaced};
ghost use Rattle.machine_laws.specs.Segments.Segments.{begin, function_words, code_words, table_words};
ghost use Rattle.machine_laws.specs.Segments.Segments.{FitsSegments};

use rv_asm::laws::targets_are_met;

/// In the list of a function no label stands twice, and each label that an item goes to stands somewhere. So it can be
/// assembled where its longest forms have fewer than 2^28 words together.
pub fn lists_can_be_assembled()
    ensures apart { (map : MapSizes) (p : FlatProgram) (plans : List FunctionPlan) (f : ℕ)
        → AreApart (items_of map p plans f) }
    ensures there { (map : MapSizes) (p : FlatProgram) (plans : List FunctionPlan) (f : ℕ)
        → AreThere (items_of map p plans f) }
    ensures assembled { (map : MapSizes) (p : FlatProgram) (plans : List FunctionPlan) (f : ℕ)
        → longest_size (items_of map p plans f) < 2 ^ 28 → IsAssemblable (items_of map p plans f) }
{}

/// Where the segments have room, the words of each function stand in its segment, and the jump table leads to them.
pub fn generated_code_is_placed()
    ensures { (map : MapSizes) (p : FlatProgram) (plans : List FunctionPlan) → FitsSegments map p plans
        → (place : (function item : ℕ) → ℕ)
        × ArePlaced map p plans (layout_of map (bytes_of (table_words map p plans)) (bytes_of (code_words map p plans)))
        (begin map p plans) (function_words map p plans) place }
{
    targets_are_met();
}

/// The machine with the code that is generated follows flat code, at most six instructions for each unit of work: where
/// the plans are accepted, the segments have room, the data segments' bytes are those of the run's memory, and the run
/// is never stuck.
pub fn generated_code_follows()
    ensures { (map : MapSizes) (p : FlatProgram) (plans : List FunctionPlan) (objects spaces : List ℕ)
        (memory : Bytes) (input : List ℕ) → AreMapped map → AreAccepted p plans → IsEncodable p → IsStartable map p
        → FitsSegments map p plans → Hold (object_bytes map) (space_bytes map) memory objects spaces → AreBytes memory
        → ((k : ℕ) → run (step map p) k (started p memory input) ≡ Stuck → ⊥)
        → Follows 6 (flat_meaning map p memory input)
        (behaviour (begins (start_address p) (bytes_of (table_words map p plans)) (bytes_of (code_words map p plans))
        objects spaces) input) }
{
    targets_are_met();
}
