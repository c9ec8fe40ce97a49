//! Values, and what operators make of them.

ghost use Rattle.std.specs.Prelude.{◌≡◌, ℕ, ◌*◌, not, IfSome};
ghost use Rattle.source_meaning.specs.State.{State};
ghost use Rattle.source_meaning.specs.Actions.{converted, difference_value, given, integer, is_zero, moved_back};
ghost use Rattle.source_meaning.specs.Actions.{offset_value, operate, updated};
ghost use Rattle.obj_memory.specs.Judgement.{moved};
ghost use Rattle.obj_memory.specs.Operators.{one_if};
ghost use Rattle.source_interp.specs.Answers.{value_or_end};

use c_tree::{Fixity, Kind, OffsetForm, Update};
use obj_memory::{BinaryOperator, IntType, Scalar, Tag, Value};

/// An integer, which has no tag.
pub fn integer(word: u64) -> Value
    ensures { result ≡ integer word }
{
    Value {
        word,
        tag: Tag::Untagged,
    }
}

/// Whether a value is zero.
pub fn is_zero(value: Value) -> bool
    ensures { result ≡ is_zero value }
{
    value.word == 0
}

/// Whether a value is not zero, as an int (C99 6.5.3.3, 6.5.13, 6.5.14).
pub fn truth(value: Value) -> Value
    ensures { result ≡ integer (one_if (not (is_zero value))) }
{
    integer(u64::from(value.word != 0))
}

/// A value converted to a kind (C99 6.3.1.3, 6.3.2.3).
pub fn converted(kind: Kind, value: Value) -> Value
    ensures { result ≡ converted kind value }
{
    match kind {
        Kind::Void => integer(0),
        Kind::Scalar(Scalar::Integer(of)) => integer(of.fit(value.word)),
        Kind::Scalar(Scalar::Pointer) | Kind::Structure(_) | Kind::Array(_) => value,
    }
}

// A pointer moved forward by so many elements of some bytes.
#[tactic(auto, using(crate::proofs::Moves::forward_wraps), unfolding(obj_memory::specs::Judgement::moved))]
fn forward(size: u64, pointer: Value, count: u64) -> Value
    ensures { result ≡ moved (count * size) pointer }
{
    pointer.moved(count.wrapping_mul(size))
}

// The same back.
#[tactic(auto, using(crate::proofs::Moves::back_wraps), unfolding(obj_memory::specs::Judgement::moved))]
fn back(size: u64, pointer: Value, count: u64) -> Value
    ensures { result ≡ moved_back (count * size) pointer }
{
    pointer.moved(0u64.wrapping_sub(count.wrapping_mul(size)))
}

/// A pointer and an index of elements of so many bytes, in the order of the form (C99 6.5.6 paragraph 8).
pub fn offset_value(form: OffsetForm, size: u64, left: Value, right: Value) -> Value
    ensures { result ≡ offset_value form size left right }
{
    match form {
        OffsetForm::PointerPlusIndex => forward(size, left, right.word),
        OffsetForm::IndexPlusPointer => forward(size, right, left.word),
        OffsetForm::PointerMinusIndex => back(size, left, right.word),
    }
}

/// The difference of two pointers in elements of some bytes (C99 6.5.6 paragraph 9), where these are not 0.
#[tactic(auto, using(crate::proofs::Moves::differing))]
pub fn difference_value(size: u64, left: Value, right: Value) -> Option<Value>
    ensures { IfSome result (λ v. v ≡ difference_value size left right) }
{
    let bytes = left.word.wrapping_sub(right.word);
    match BinaryOperator::Divide.apply(IntType::Long, bytes, size) {
        Some(elements) => Some(integer(elements)),
        None => None,
    }
}

/// A binary operator in a type; none where the divisor is zero, which ends the run.
pub fn operate(operator: BinaryOperator, of: IntType, left: Value, right: Value) -> Option<Value>
    ensures { (line : ℕ) (s : State) → operate operator of left right line s ≡ value_or_end result line s }
{
    match operator.apply(of, left.word, right.word) {
        Some(word) => Some(integer(word)),
        None => None,
    }
}

/// The new value of a scalar that is updated (C99 6.5.16.2); none where a divisor is zero, which ends the run.
pub fn updated(update: Update, scalar: Scalar, right: Value, old: Value) -> Option<Value>
    ensures { (line : ℕ) (s : State) → updated update scalar right line old s ≡ value_or_end result line s }
{
    match update {
        Update::Arithmetic(operator, of) => {
            match operate(operator, of, integer(of.fit(old.word)), right) {
                Some(new) => Some(converted(Kind::Scalar(scalar), new)),
                None => None,
            }
        }
        Update::Forward(size) => Some(forward(size, old, right.word)),
        Update::Back(size) => Some(back(size, old, right.word)),
    }
}

/// The new value where the operator stands before the operand, else the old one (C99 6.5.2.4, 6.5.3.1).
pub fn given(fixity: Fixity, old: Value, new: Value) -> Value
    ensures { result ≡ given fixity old new }
{
    match fixity {
        Fixity::Prefix => new,
        Fixity::Postfix => old,
    }
}
