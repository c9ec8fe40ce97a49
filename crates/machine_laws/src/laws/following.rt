//! The law of the back end, as the contract of a function that does nothing: what is above rests on it.

ghost use Rattle.std.specs.Prelude.{◌≡◌, ℕ, List};
ghost use Rattle.addr_map.specs.Places.{MapSizes, AreMapped};
ghost use Rattle.behaviours.specs.Behaviour.{Follows};
ghost use Rattle.behaviours.specs.Steps.{run};
ghost use Rattle.flat_code.specs.declared.function.FlatProgram.{FlatProgram};
ghost use Rattle.flat_code.specs.Memory.{Bytes, AreBytes};
ghost use Rattle.flat_code.specs.State.{Stuck};
ghost use Rattle.flat_code.specs.Meaning.{step, started, flat_meaning};
ghost use Rattle.reg_plan.specs.declared.plan.FunctionPlan.{FunctionPlan};
ghost use Rattle.reg_plan.specs.Tests.{AreAccepted};
ghost use Rattle.rv_sim.specs.Behaviour.{behaviour};
ghost use Rattle.machine_laws.specs.View.Segments.{Hold};
ghost use Rattle.machine_laws.specs.View.Views.{Fits, AllStand};
ghost use Rattle.machine_laws.specs.Following.Code.{IsLaid, IsEncodable};
ghost use Rattle.machine_laws.specs.Following.Matching.{object_bytes, space_bytes};
ghost use Rattle.machine_laws.specs.Following.Start.{layout_of, start_block, IsStartable, begins};

/// The machine follows flat code: where the instructions that stand for a program under accepted plans lie in memory,
/// with the data segments' bytes those of the run's memory, and the run is never stuck, it shows what the run
/// shows: the
/// same output, report, bytes of the input, ending, and accesses of object space by the functions of the program; with
/// at most six instructions for each unit of work.
pub fn the_machine_follows_flat_code()
    ensures { (map : MapSizes) (p : FlatProgram) (plans : List FunctionPlan) (table code : List ℕ)
        (address : (function pc : ℕ) → ℕ) (entry : (function : ℕ) → ℕ) (start : ℕ) (objects spaces : List ℕ)
        (memory : Bytes) (input : List ℕ) → AreMapped map → AreAccepted p plans → IsEncodable p → IsStartable map p
        → Fits (layout_of map table code) → IsLaid map p plans (layout_of map table code) address entry
        → AllStand (layout_of map table code) start (start_block map p)
        → Hold (object_bytes map) (space_bytes map) memory objects spaces → AreBytes memory
        → ((k : ℕ) → run (step map p) k (started p memory input) ≡ Stuck → ⊥)
        → Follows 6 (flat_meaning map p memory input) (behaviour (begins start table code objects spaces) input) }
{}
