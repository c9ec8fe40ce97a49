//! Laws of liveness, each as the contract of a function that does nothing.

ghost use Rattle.std.specs.Prelude.{ℕ, Bool, List};
ghost use Rattle.c_tree.specs.declared.expression.Kind.{Kind};
ghost use Rattle.c_tree.specs.Programs.{Function};
ghost use Rattle.tac_ir.specs.declared.function.CodeFunction.{CodeFunction};
ghost use Rattle.c_lower.specs.Programs.{LowersFunction};
ghost use Rattle.c_lower.specs.Liveness.Liveness.{IsLive};

/// In the code of a function lowered no temporary is read before it is written: none is live where a call begins.
pub fn no_temporary_is_live_at_the_entry()
    ensures { (texts : List (List ℕ)) (literals : List Bool) (result : Kind) (height : ℕ) (f : Function)
        (c : CodeFunction) (y : ℕ)
        → LowersFunction texts literals result height f c → IsLive c.code c.entry y → ⊥ }
{}
