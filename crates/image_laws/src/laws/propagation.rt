//! Laws of propagated programs for what stands behind propagation, each as the contract of a function that does
//! nothing.

ghost use Rattle.std.specs.Prelude.{◌≡◌};
ghost use Rattle.addr_map.specs.Places.{MapSizes};
ghost use Rattle.flat_code.specs.declared.function.FlatProgram.{FlatProgram};
ghost use Rattle.reg_plan.specs.Planned.{ArePlannable};
ghost use Rattle.machine_laws.specs.Following.Code.{IsEncodable};
ghost use Rattle.machine_laws.specs.Following.Start.{IsStartable};
ghost use Rattle.flat_propagation.specs.Propagated.{propagated};
ghost use Rattle.image_laws.specs.Propagation.Homes.{HaveHomes};

/// A program that can be planned, and in which each virtual register that is used has a home of its own, can be planned
/// as well when it is propagated: what is needed longer then is kept apart from what is needed with it, and where a
/// function is entered no more is needed than before.
pub fn propagated_programs_are_plannable()
    ensures { (p : FlatProgram) → ArePlannable p → HaveHomes p → ArePlannable (propagated p) }
{}

/// One whose instructions are ones of the machine has such instructions when it is propagated: numbers that are put in
/// are short.
pub fn propagated_programs_are_encodable()
    ensures { (p : FlatProgram) → IsEncodable p → IsEncodable (propagated p) }
{}

/// One that the machine can begin can be begun when it is propagated.
pub fn propagated_programs_are_startable()
    ensures { (map : MapSizes) (p : FlatProgram) → IsStartable map p → IsStartable map (propagated p) }
{}
