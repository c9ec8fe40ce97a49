//! The laws of the program, each as the contract of a function that does nothing.

ghost use Rattle.std.specs.Prelude.{List, [], ℕ, ◌+◌};
ghost use Rattle.std.specs.Global.{Global};
ghost use Rattle.behaviours.specs.Behaviour.{Follows};
ghost use Rattle.behaviours.specs.Steps.{run};
ghost use Rattle.flat_code.specs.Memory.{Bytes, AreBytes};
ghost use Rattle.flat_code.specs.Meaning.{step, started, flat_meaning};
ghost use Rattle.reg_plan.specs.declared.plan.FunctionPlan.{FunctionPlan};
ghost use Rattle.elf_image.specs.Layout.{content_of};
ghost use Rattle.rv_sim.specs.Behaviour.{behaviour};
ghost use Rattle.rv_sim.specs.Start.{start_of};
ghost use Rattle.machine_laws.specs.View.Segments.{Hold};
ghost use Rattle.machine_laws.specs.Following.Matching.{object_bytes, space_bytes};
ghost use Rattle.machine_laws.specs.Following.Start.{begins};
ghost use Rattle.machine_laws.specs.Calls.Table.{start_address};
ghost use Rattle.machine_laws.specs.Layout.Lists.{bytes_of};
ghost use Rattle.machine_laws.specs.Segments.Segments.{code_words, table_words};
ghost use Rattle.rv_codegen.specs.MachineImages.Image.{filled, IsImage};
ghost use Rattle.rv_codegen_example.specs.Program.{sizes, doublings, program, MeetsPremises, HasNearForms};
ghost use Rattle.rv_codegen_example.specs.Program.{StandsBefore, Ends};

use machine_laws::laws::segments::generated_code_follows;
use rv_codegen::images::laws::{images_follow, programs_have_images};

/// The program meets every premise under plans that keep all its values but one in registers, wherever these lie in
/// memory; so the machine with its code follows it, whatever the data and the input are. Under these plans a branch and
/// a jump of it have a longer form than the shortest.
pub fn premises_are_met()
    ensures { (alloc : Global) → (plans : List FunctionPlan) × MeetsPremises plans × HasNearForms plans
        × ((objects spaces : List ℕ) (memory : Bytes) (input : List ℕ)
        → Hold (object_bytes sizes) (space_bytes sizes) memory objects spaces → AreBytes memory
        → Follows 6 (flat_meaning sizes program memory input)
        (behaviour (begins (start_address program) (bytes_of (table_words sizes program plans))
        (bytes_of (code_words sizes program plans)) objects spaces) input)) }
{
    generated_code_follows();
}

/// So does the machine that begins the program's image, which has no data but zeros.
pub fn its_image_follows()
    ensures { (alloc : Global) → (plans : List FunctionPlan) × (file : List ℕ) × IsImage sizes program plans [] [] file
        × ((memory : Bytes) (input : List ℕ)
        → Hold (object_bytes sizes) (space_bytes sizes) memory (filled (object_bytes sizes) [])
        (filled (space_bytes sizes) []) → AreBytes memory
        → Follows 6 (flat_meaning sizes program memory input) (behaviour (start_of (content_of file)) input)) }
{
    programs_have_images();
    images_follow();
}

/// The program sends three bytes, and ends with status 0.
pub fn three_bytes_are_sent()
    ensures { (memory : Bytes) (input : List ℕ)
        → Ends memory input (run (step sizes program) 50 (started program memory input)) }
{}

/// The run takes the branch that goes past the doublings, and behind them the jump back over them.
pub fn longer_forms_are_taken()
    ensures { (memory : Bytes) (input : List ℕ)
        → StandsBefore 1 5 (run (step sizes program) 12 (started program memory input))
        × StandsBefore 1 (doublings + 6) (run (step sizes program) 13 (started program memory input))
        × StandsBefore 1 3 (run (step sizes program) 14 (started program memory input)) }
{}
