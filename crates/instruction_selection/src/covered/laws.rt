//! Laws of what is covered, as contracts of functions that do nothing.

ghost use Rattle.std.specs.Prelude.{ℕ};
ghost use Rattle.tac_ir.specs.declared.function.CodeFunction.{CodeFunction};
ghost use Rattle.tac_ir.specs.declared.function.Tac.{Tac};
ghost use Rattle.metadata_relation.specs.Contents.{AreKept};
ghost use Rattle.metadata_relation.specs.Stages.{Compiled};
ghost use Rattle.metadata_relation.specs.Steps.{AreAllCovered};
ghost use Rattle.instruction_selection.specs.Covered.{no_contents, IsCoveredCode};

/// All instructions of a compiled program are covered where its code is, with the contents of its expansion.
#[tactic(auto, using(crate::proofs::Coverages::all_covered))]
pub fn programs_of_covered_code_are_covered()
    ensures { (c : Compiled) → IsCoveredCode c.layout.expansion.code c.layout.expansion.contents → AreAllCovered c }
{}

/// Where no temporary has contents, that is kept by every function.
pub fn no_contents_are_kept()
    ensures { (t : Tac) (u : ℕ) (k : CodeFunction) → AreKept t k (no_contents u) }
{}
