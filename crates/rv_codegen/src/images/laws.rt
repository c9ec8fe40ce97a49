//! Laws of images, each as the contract of a function that does nothing.

ghost use Rattle.std.specs.Prelude.{◌<◌, ◌≤◌, ℕ, List, length};
ghost use Rattle.std.specs.List.{All};
ghost use Rattle.addr_map.specs.Places.{MapSizes, AreMapped};
ghost use Rattle.flat_code.specs.declared.function.FlatProgram.{FlatProgram};
ghost use Rattle.flat_code.specs.Memory.{AreBytes};
ghost use Rattle.reg_plan.specs.declared.plan.FunctionPlan.{FunctionPlan};
ghost use Rattle.machine_laws.specs.View.Segments.{Hold};
ghost use Rattle.machine_laws.specs.Following.Matching.{object_bytes, space_bytes};
ghost use Rattle.elf_image.specs.Writing.{image_bytes};
ghost use Rattle.machine_laws.specs.Segments.Segments.{FitsSegments};
ghost use Rattle.rv_codegen.specs.MachineImages.Image.{written, IsImage, ImageFollows, filled, data_memory};

use machine_laws::laws::segments::generated_code_follows;

/// The machine that begins an image follows the program of which it is one.
pub fn images_follow()
    ensures { (map : MapSizes) (p : FlatProgram) (plans : List FunctionPlan) (objects spaces file : List ℕ)
        → AreMapped map → IsImage map p plans objects spaces file → ImageFollows map p plans objects spaces file }
{
    generated_code_follows();
}

/// A program whose code fits its segments has an image: the file with these bytes.
pub fn programs_have_images()
    ensures { (map : MapSizes) (p : FlatProgram) (plans : List FunctionPlan) (objects spaces : List ℕ) → AreMapped map
        → FitsSegments map p plans → length objects ≤ object_bytes map → length spaces ≤ space_bytes map
        → IsImage map p plans objects spaces (image_bytes (written map p plans objects spaces)) }
{}

/// There is a memory that has the data of an image, and is of bytes where the data is.
pub fn data_is_held()
    ensures held { (map : MapSizes) (objects spaces : List ℕ) → AreMapped map → length objects ≤ object_bytes map
        → length spaces ≤ space_bytes map
        → Hold (object_bytes map) (space_bytes map)
        (data_memory (filled (object_bytes map) objects) (filled (space_bytes map) spaces))
        (filled (object_bytes map) objects) (filled (space_bytes map) spaces) }
    ensures bytes { (objects spaces : List ℕ) (m n : ℕ) → All (λ b. b < 256) objects → All (λ b. b < 256) spaces
        → AreBytes (data_memory (filled m objects) (filled n spaces)) }
{}
