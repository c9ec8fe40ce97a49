//! Laws of the temporaries that have entries, each as the contract of a function that does nothing.

ghost use Rattle.tac_ir.specs.declared.function.CodeFunction.{CodeFunction};
ghost use Rattle.tac_ir.specs.declared.function.Tac.{Tac};
ghost use Rattle.metadata_plan.specs.Entries.{AreClosed, every};

/// Every temporary may have an entry at every node: the set of all is closed, whatever the function is.
pub fn every_temporary_may_have_an_entry()
    ensures { (t : Tac) (c : CodeFunction) → AreClosed t c every }
{}
