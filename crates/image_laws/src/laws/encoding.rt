//! Laws of what numbers flat code has.

ghost use Rattle.std.specs.Prelude.{◌≡◌, ℕ, List};
ghost use Rattle.addr_map.specs.Places.{MapSizes, AreMapped};
ghost use Rattle.tac_ir.specs.declared.function.CodeFunction.{CodeFunction};
ghost use Rattle.flat_code.specs.declared.function.FlatFunction.{FlatFunction};
ghost use Rattle.shadow_space.specs.Form.{EntryCode};
ghost use Rattle.shadow_space.specs.Direct.{direct_read, direct_write};
ghost use Rattle.shadow_space.specs.TwoLevel.Code.{two_level_read_behind, two_level_write_behind};
ghost use Rattle.runtime_functions.specs.Runtime.{runtime_list, AreOfRuntime};
ghost use Rattle.metadata_relation.specs.InlineLists.{inline_lists};
ghost use Rattle.metadata_relation.specs.Blocks.{Expansion};
ghost use Rattle.metadata_relation.specs.Laid.{program_of};
ghost use Rattle.machine_laws.specs.Following.Code.{IsEncodable};
ghost use Rattle.machine_laws.specs.Following.Start.{IsStartable};
ghost use Rattle.image_laws.specs.Encoding.Fitting.{FitEntries, HasShortPlaces, FitsCode, HasRooms};

use addr_map::laws::regions_stand_in_order;
use runtime_functions::laws::functions_of_the_runtime_are_encodable;
use shadow_space::ShadowForm;

/// The places of the regions of a map are numbers of instructions.
pub fn places_are_short()
    ensures { (m : MapSizes) → AreMapped m → HasShortPlaces m }
{
    regions_stand_in_order();
}

/// The lists by which both forms of the shadow space read and write entries are of instructions that the machine has.
pub fn forms_fit_entries()
    ensures direct { (m : MapSizes) → FitEntries (λ map. direct_read) (λ map. direct_write) m }
    ensures two_levels { (m : MapSizes) → AreMapped m → FitEntries two_level_read_behind two_level_write_behind m }
{}

/// An expanded program is encodable, whatever homes its registers have: where the numbers of its code are those of
/// their types, and each function of the runtime has room for its return address.
pub fn expanded_programs_are_encodable<S: ShadowForm>()
    ensures { (e : Expansion) (homes : CodeFunction → List ℕ) (runtime : List FlatFunction) (read write : EntryCode)
        → FitEntries read write e.map → HasShortPlaces e.map → e.inline ≡ inline_lists read write e.map → FitsCode e
        → AreOfRuntime e.map S.entry (S.IsGood e.map) runtime_list runtime → HasRooms runtime
        → IsEncodable (program_of e homes runtime) }
{
    functions_of_the_runtime_are_encodable::<S>();
}

/// And it can be begun.
pub fn expanded_programs_are_startable()
    ensures { (e : Expansion) (homes : CodeFunction → List ℕ) (runtime : List FlatFunction)
        → IsStartable e.map (program_of e homes runtime) }
{}
