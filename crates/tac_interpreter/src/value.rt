//! Values, and what is made of them without a state.

use c_tree::{Fixity, Kind, OffsetForm};
use obj_memory::{BinaryOperator, IntType, Scalar, Tag, Value};

/// The address of the first function's entry in the jump table, and how far it is from one to the next.
const FUNCTIONS: u64 = 0x1_0000;

const ENTRY: u64 = 16;

/// An integer, which has no tag.
pub(crate) fn integer(word: u64) -> Value {
    Value {
        word,
        tag: Tag::Untagged,
    }
}

/// The address of a function.
pub(crate) fn function_address(number: usize) -> u64 {
    FUNCTIONS.wrapping_add((number as u64).wrapping_mul(ENTRY))
}

/// The pointer to a function.
pub(crate) fn function_pointer(number: usize) -> Value {
    Value {
        word: function_address(number),
        tag: Tag::OfFunction(number),
    }
}

/// A value converted to a scalar.
pub(crate) fn converted_to(scalar: Scalar, value: Value) -> Value {
    match scalar {
        Scalar::Integer(of) => integer(of.fit(value.word)),
        Scalar::Pointer => value,
    }
}

/// A value converted to a kind.
pub(crate) fn converted(kind: Kind, value: Value) -> Value {
    match kind {
        Kind::Void => integer(0),
        Kind::Scalar(scalar) => converted_to(scalar, value),
        Kind::Structure(_) | Kind::Array(_) => value,
    }
}

/// A pointer so many bytes back.
pub(crate) fn moved_back(pointer: Value, offset: u64) -> Value {
    pointer.moved(offset.wrapping_neg())
}

/// A pointer and an index of elements of so many bytes, in the order of the form.
pub(crate) fn offset_value(form: OffsetForm, size: u64, left: Value, right: Value) -> Value {
    match form {
        OffsetForm::PointerPlusIndex => left.moved(right.word.wrapping_mul(size)),
        OffsetForm::IndexPlusPointer => right.moved(left.word.wrapping_mul(size)),
        OffsetForm::PointerMinusIndex => moved_back(left, right.word.wrapping_mul(size)),
    }
}

/// The difference of two pointers in elements of so many bytes.
pub(crate) fn difference_value(size: u64, left: Value, right: Value) -> Value {
    let bytes = left.word.wrapping_sub(right.word);
    let elements = BinaryOperator::Divide.apply(IntType::Long, bytes, size);
    integer(elements.unwrap_or(0))
}

/// The old value or the new one.
pub(crate) fn given(fixity: Fixity, old: Value, new: Value) -> Value {
    match fixity {
        Fixity::Prefix => new,
        Fixity::Postfix => old,
    }
}

/// The signed number of the low 32 bits of a word.
pub(crate) fn int_of(word: u64) -> i32 {
    ((word & 0xffff_ffff) as u32).cast_signed()
}
