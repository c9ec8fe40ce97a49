//! Laws of operators in programs, each as the contract of a function that does nothing.

ghost use Rattle.metadata_plan.specs.Operators.{AreOperators};
ghost use Rattle.metadata_plan.specs.OperatorLists.Operators.{operators};

/// The lists of `flat_operators` compute what `metadata_plan` asks of the operators of a program.
pub fn operators_compute()
    ensures { AreOperators operators }
{}
