//! What expressions demand of the room of a call.

ghost use Rattle.std.specs.Prelude.{◌≡◌, ℕ};
ghost use Rattle.c_tree.specs.Room.{structure_bytes};
ghost use Rattle.c_tree.specs.Walk.{sum_of};
ghost use Rattle.c_room.specs.Demands.{beside, next, nothing, start, value};
ghost use Rattle.c_room.specs.Numbers.{fitting};

use crate::number::{greater, plus};

/// What expressions demand of the room of a call. A number is `None` where it is 2^64 or more.
#[derive(Clone, Copy, Debug, PartialEq, Eq)]
pub struct Demand {
    /// How many values are needed at once.
    pub height: Option<u64>,
    /// The bytes of the structures that calls in them pass and give, each rounded up to 16.
    pub passed: Option<u64>,
}

/// What operands demand that come in turn, each of which is kept.
#[derive(Clone, Copy, Debug, PartialEq, Eq)]
pub struct InTurn {
    /// How many values are kept when the next one comes.
    pub kept: Option<u64>,
    /// What those so far demand.
    pub demand: Demand,
}

impl Demand {
    /// Of no expression.
    pub(crate) fn nothing() -> Demand
        ensures { result ≡ nothing }
    {
        Demand {
            height: Some(0),
            passed: Some(0),
        }
    }

    /// Of a value alone.
    #[tactic(auto, unfolding(crate::specs::Demands::value, crate::specs::Numbers::fitting))]
    pub(crate) fn value() -> Demand
        ensures { result ≡ value 0 }
    {
        Demand {
            height: Some(1),
            passed: Some(0),
        }
    }

    /// With another expression, of which one at a time is evaluated.
    #[tactic(auto, unfolding(crate::specs::Demands::beside))]
    pub(crate) fn beside(self, other: Demand) -> Demand
        ensures { result ≡ beside self other }
    {
        Demand {
            height: greater(self.height, other.height),
            passed: plus(self.passed, other.passed),
        }
    }
}

impl InTurn {
    /// Of no operand so far, where so many values are kept.
    #[tactic(auto, unfolding(crate::specs::Demands::start))]
    pub(crate) fn start(kept: u64) -> InTurn
        ensures { result ≡ start kept 0 }
    {
        InTurn {
            kept: Some(kept),
            demand: Demand::value(),
        }
    }

    /// Of no operand so far of a node that takes so many bytes of structures.
    #[tactic(auto, unfolding(crate::specs::Demands::start, crate::specs::Demands::value))]
    pub(crate) fn passing(passed: Option<u64>) -> InTurn
        ensures { (bytes : ℕ) → passed ≡ fitting bytes → result ≡ start 0 bytes }
    {
        InTurn {
            kept: Some(0),
            demand: Demand {
                height: Some(1),
                passed,
            },
        }
    }

    /// With the next operand.
    #[tactic(auto, unfolding(crate::specs::Demands::next))]
    pub(crate) fn next(self, operand: Demand) -> InTurn
        ensures { result ≡ next self operand }
    {
        InTurn {
            kept: plus(self.kept, Some(1)),
            demand: Demand {
                height: greater(self.demand.height, plus(self.kept, operand.height)),
                passed: plus(self.demand.passed, operand.passed),
            },
        }
    }
}
