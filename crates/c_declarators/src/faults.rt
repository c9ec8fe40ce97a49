//! The rules that the type of a declarator may violate by itself (C99 6.7.5.2, 6.7.5.3).

ghost use Rattle.std.specs.Prelude.{◌≡◌};

use c_faults::Rule;

/// Which rules a type violates by itself.
#[derive(Clone, Copy, Debug, PartialEq, Eq)]
pub struct TypeFaults {
    /// The elements of an array have an incomplete type.
    pub incomplete: bool,
    /// A function results in an array or a function, or an array has functions as elements.
    pub misplaced: bool,
    /// The size of an array is no integer constant expression, or is below 1.
    pub miscounted: bool,
    /// An array has more than 2^32 bytes.
    pub large: bool,
}

impl TypeFaults {
    ghost use Rattle.std.specs.Prelude.{◌≡◌};
    ghost use Rattle.c_declarators.specs.Faults.{and_faults, no_faults, rule_of};

    /// None of them.
    pub fn none() -> Self
        ensures { result ≡ no_faults }
    {
        TypeFaults {
            incomplete: false,
            misplaced: false,
            miscounted: false,
            large: false,
        }
    }

    /// These and others.
    pub fn and(self, others: TypeFaults) -> Self
        ensures { result ≡ and_faults self others }
    {
        TypeFaults {
            incomplete: self.incomplete || others.incomplete,
            misplaced: self.misplaced || others.misplaced,
            miscounted: self.miscounted || others.miscounted,
            large: self.large || others.large,
        }
    }

    /// The first of them in the order of the rules, if there is one.
    pub fn rule(self) -> Option<Rule>
        ensures { result ≡ rule_of self }
    {
        if self.incomplete {
            Some(Rule::Incomplete)
        } else if self.misplaced {
            Some(Rule::MisplacedFunction)
        } else if self.miscounted {
            Some(Rule::NoConstant)
        } else if self.large {
            Some(Rule::LargeType)
        } else {
            None
        }
    }
}
