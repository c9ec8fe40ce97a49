//! Laws of code in the spaces of the runtime, each as the contract of a function that does nothing.

ghost use Rattle.std.specs.Prelude.{List};
ghost use Rattle.addr_map.specs.Places.{AreMapped};
ghost use Rattle.flat_code.specs.declared.instruction.FlatInstruction.{FlatInstruction};
ghost use Rattle.flat_code.specs.State.{State};
ghost use Rattle.flat_code.specs.Meaning.{Context};
ghost use Rattle.flat_code.specs.Routines.Effects.{effects, AreAllowed};
ghost use Rattle.flat_code.specs.Routines.Metadata.{ShowsNothing};
ghost use Rattle.flat_code.specs.Routines.Spaces.Quiet.{AreQuiet};

/// Code without jumps whose accesses all lie in the spaces of the runtime may be done, and shows nothing.
pub fn quiet_code_shows_nothing()
    ensures allowed { (c : Context) (is : List FlatInstruction) (s : State) → AreQuiet c is s → AreAllowed c is s }
    ensures shows { (c : Context) (is : List FlatInstruction) (s : State) → AreMapped c.sizes → AreQuiet c is s
        → ShowsNothing s (effects c is s) }
{}
