//! Conversions that leave each value as it is.

ghost use Rattle.std.specs.Prelude.{◌≡◌};
ghost use Rattle.c_lower.specs.Conversions.{keeps, keeps_words};
ghost use Rattle.program_lowering.specs.ExpressionCode.Last.{conversion_in};

use c_tree::Kind;
use obj_memory::{IntType, Scalar};
use tac_ir::Instruction;

// Whether each word of an integer type is one of another.
#[tactic(auto, unfolding(c_lower::specs::Conversions::keeps_words))]
fn keeps_words(from: IntType, to: IntType) -> bool
    ensures { result ≡ keeps_words from to }
{
    if to.size() == 8 {
        return true;
    }
    if from.is_signed() {
        return to.is_signed() && from.size() <= to.size();
    }
    if to.is_signed() {
        return from.size() < to.size();
    }
    from.size() <= to.size()
}

// Whether a conversion leaves each value of a kind as it is.
fn keeps(from: Kind, to: Kind) -> bool
    ensures { result ≡ keeps from to }
{
    match (from, to) {
        (Kind::Scalar(Scalar::Integer(from)), Kind::Scalar(Scalar::Integer(to))) => {
            keeps_words(from, to)
        }
        (Kind::Scalar(Scalar::Pointer), Kind::Scalar(Scalar::Pointer)) => true,
        _ => false,
    }
}

/// What a conversion of a value in a temporary to a kind does; nothing where it leaves each value as it is.
pub fn conversion_in(from: Kind, kind: Kind, d: usize, next: usize) -> Option<Instruction>
    ensures { result ≡ conversion_in (keeps from kind) kind d next }
{
    if keeps(from, kind) {
        return None;
    }
    Some(Instruction::Convert {
        kind,
        to: d,
        from: d,
        next,
    })
}
