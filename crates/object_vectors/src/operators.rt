//! Operators, conversions and integer types.

use crate::row::{BINARY, UNARY, found, integer_type, number};
use anyhow::Result;
use obj_memory::Scalar;

/// Prints a word, or `none`.
pub fn put(rt: &HostRuntime, word: Option<u64>) -> Result<()> {
    match word {
        Some(word) => println!(rt; "{word:x}")?,
        None => println!(rt; "none")?,
    }
    Ok(())
}

/// `TYPE WORD`: the word converted to the type.
pub fn fit(given: &str) -> Result<u64> {
    let mut words = given.split(' ');
    let to = integer_type(words.next())?;
    Ok(to.fit(number(words.next())?))
}

/// `OPERATOR TYPE WORD`: the operator's value at the word of the type.
pub fn unary(given: &str) -> Result<u64> {
    let mut words = given.split(' ');
    let operator = found(&UNARY, words.next())?;
    let of = integer_type(words.next())?;
    Ok(operator.apply(of, number(words.next())?))
}

/// `OPERATOR TYPE WORD WORD`: the operator's value at the words of the type, if it has one.
pub fn binary(given: &str) -> Result<Option<u64>> {
    let mut words = given.split(' ');
    let operator = found(&BINARY, words.next())?;
    let of = integer_type(words.next())?;
    let left = number(words.next())?;
    Ok(operator.apply(of, left, number(words.next())?))
}

/// The size of a pointer.
pub fn pointer_size() -> u64 {
    Scalar::Pointer.size()
}

/// `TYPE TYPE`: prints the type of a sum of both.
pub fn put_common(rt: &HostRuntime, given: &str) -> Result<()> {
    let mut words = given.split(' ');
    let left = integer_type(words.next())?;
    let common = left.common(integer_type(words.next())?);
    println!(rt; "{common:?}")?;
    Ok(())
}

/// `TYPE`: prints its size, also as that of a scalar, and its rank; whether it is signed; the type to which it is
/// promoted, and its unsigned type.
pub fn put_type(rt: &HostRuntime, given: &str) -> Result<()> {
    let of = integer_type(Some(given))?;
    let numbers = [of.size(), Scalar::Integer(of).size(), of.rank() as u64];
    let sign = if of.is_signed() { "signed" } else { "unsigned" };
    println!(rt;
        "{numbers:?} {sign} {:?} {:?}",
        of.promoted(),
        of.unsigned()
    )?;
    Ok(())
}
