//! The lists that are too long.

ghost use Rattle.std.specs.Prelude.{◌≡◌, List, ◌∷◌, None};
ghost use Rattle.c_counts.specs.Counts.{Count, of_members, of_parameters};
ghost use Rattle.c_counts.specs.Excess.{or_above, with_counts};

/// The most parameters of a function declarator.
const MOST_PARAMETERS: u128 = 127;

/// The most members of a structure or union.
const MOST_MEMBERS: u128 = 1024;

/// How many parameters the first list that has more than 127 has, and how many members the first that has more than
/// 1024, if there are such lists.
#[derive(Clone, Copy, Debug, PartialEq, Eq)]
pub struct Excess {
    pub parameters: Option<u128>,
    pub members: Option<u128>,
}

// A number that is kept, or else one that is above a limit.
fn or_above(most: u128, kept: Option<u128>, count: u128) -> Option<u128>
    ensures { result ≡ or_above most kept count }
{
    match kept {
        Some(_) => kept,
        None if most < count => Some(count),
        None => None,
    }
}

impl Excess {
    /// No list was found.
    pub(crate) fn none() -> Self
        ensures { result ≡ record { parameters = None; members = None } }
    {
        Excess {
            parameters: None,
            members: None,
        }
    }

    /// With a list of so many parameters.
    pub(crate) fn with_parameters(self, count: u128) -> Self
        ensures { (cs : List Count) → with_counts cs result ≡ with_counts (of_parameters count ∷ cs) self }
    {
        Excess {
            parameters: or_above(MOST_PARAMETERS, self.parameters, count),
            ..self
        }
    }

    /// With a list of so many members.
    pub(crate) fn with_members(self, count: u128) -> Self
        ensures { (cs : List Count) → with_counts cs result ≡ with_counts (of_members count ∷ cs) self }
    {
        Excess {
            members: or_above(MOST_MEMBERS, self.members, count),
            ..self
        }
    }
}
