//! Fields of instructions, read from text.

ghost use Rattle.std.specs.Prelude.{◌≡◌, ◌≤◌, ◌%◌, ◌^◌, ◌==◌, true, if◌then◌else◌, IfOk, IfSome, Ok, Err};
ghost use Rattle.rv_listing.specs.Fields.{number_in, signed_in, register_in, written_in, in_field, read_field};
ghost use Rattle.rv_listing.specs.Fields.{unless_range, signed_field, together, is_form, read_operands, of_pair};
ghost use Rattle.rv_listing.specs.Fields.{value_from, is_numeral, are_digits, is_digit, in_triple, in_based, cut};
ghost use Rattle.rv_listing.specs.Operands.{IsField, IsShape, Fits, FitShape};
ghost use Rattle.rv_listing.specs.declared.fault.ListFault.TheVariants.{Range};
ghost use Rattle.rv_listing.specs.declared.operands.Field.TheVariants.{Signed, Offset};
ghost use Rattle.rv_listing.specs.declared.operands.Shape.TheVariants.{Pair, Triple, Based};

use crate::fault::ListFault;
use crate::operands::{Field, Operands, Shape};
use crate::text::cut;

// The number that a text is, without a sign; in place of one above 2^64 - 1 it is that.
#[tactic(auto, unfolding(crate::specs::Fields::number_in))]
pub fn number_in(text: &[u8]) -> Option<u64>
    ensures { result ≡ number_in text.now }
{
    if !is_numeral(text) {
        return None;
    }
    Some(value(text))
}

fn is_digit(byte: u8) -> bool
    ensures { result ≡ is_digit byte }
{
    byte.is_ascii_digit()
}

#[tactic(auto, unfolding(crate::specs::Fields::is_numeral, crate::specs::Fields::are_digits))]
fn is_numeral(text: &[u8]) -> bool
    ensures value { result ≡ is_numeral text.now }
    ensures digits { result ≡ true → are_digits text.now ≡ true }
{
    match text {
        [] => false,
        [digit] => is_digit(*digit),
        [first, ..] => *first != b'0' && are_digits(text),
    }
}

#[tactic(auto, unfolding(crate::specs::Fields::are_digits))]
fn are_digits(text: &[u8]) -> bool
    ensures { result ≡ are_digits text.now }
{
    for byte in text {
        if !is_digit(*byte) {
            return false;
        }
    }
    true
}

#[tactic(auto, unfolding(crate::specs::Fields::value_from, crate::specs::Fields::are_digits))]
fn value(text: &[u8]) -> u64
    requires { are_digits text.now ≡ true }
    ensures { result ≡ value_from 0 text.now }
{
    let mut value: u64 = 0;
    for byte in text {
        value = value
            .saturating_mul(10)
            .saturating_add(u64::from(*byte - b'0'));
    }
    value
}

// Whether a number is below zero, and how much it is without its sign.
#[tactic(auto, unfolding(crate::specs::Fields::signed_in))]
pub fn signed_in(text: &[u8]) -> Option<(bool, u64)>
    ensures value { result ≡ signed_in text.now }
    ensures some { IfSome result (λ x. x.0 ≡ true → 1 ≤ x.1) }
{
    let [first, rest @ ..] = text else {
        return None;
    };
    if *first != b'-' {
        let number = number_in(text)?;
        return Some((false, number));
    }
    let number = number_in(rest)?;
    if number == 0 {
        None
    } else {
        Some((true, number))
    }
}

#[tactic(auto, unfolding(crate::specs::Fields::register_in))]
fn register_in(text: &[u8]) -> Option<(bool, u64)>
    ensures value { result ≡ register_in text.now }
    ensures some { IfSome result (λ x. x.0 ≡ true → 1 ≤ x.1) }
{
    let [first, rest @ ..] = text else {
        return None;
    };
    if *first != b'x' {
        return None;
    }
    let number = number_in(rest)?;
    Some((false, number))
}

#[tactic(auto, unfolding(crate::specs::Fields::written_in))]
fn written_in(field: Field, text: &[u8]) -> Option<(bool, u64)>
    ensures value { result ≡ written_in field text.now }
    ensures some { IfSome result (λ x. x.0 ≡ true → 1 ≤ x.1) }
{
    match field {
        Field::Register => register_in(text),
        Field::Unsigned(_) | Field::Signed(_) | Field::Offset(_) => signed_in(text),
    }
}

fn unless_range(fits: bool, number: u64) -> Result<u64, ListFault>
    ensures { result ≡ unless_range fits number }
{
    if fits {
        Ok(number)
    } else {
        Err(ListFault::Range)
    }
}

#[tactic(auto, unfolding(crate::specs::Fields::signed_field))]
fn signed_field(half: u64, is_negative: bool, number: u64) -> Result<u64, ListFault>
    requires some { 1 ≤ half }
    requires signed { is_negative ≡ true → 1 ≤ number }
    requires small { half ≤ 2 ^ 20 }
    ensures value { result ≡ signed_field half (is_negative, number) }
    ensures fits { IfOk result (Fits (Signed half)) }
    ensures even { number % 2 ≡ 0 → IfOk result (λ n. n % 2 ≡ 0) }
{
    if !is_negative {
        return unless_range(number < half, number);
    }
    if number > half {
        return Err(ListFault::Range);
    }
    Ok(2 * half - number)
}

// The number in a field, where what is written fits it.
#[tactic(auto, unfolding(crate::specs::Fields::in_field))]
fn in_field(field: Field, is_negative: bool, number: u64) -> Result<u64, ListFault>
    requires field { IsField field }
    requires signed { is_negative ≡ true → 1 ≤ number }
    ensures value { result ≡ in_field field (is_negative, number) }
    ensures fits { IfOk result (Fits field) }
{
    match field {
        Field::Register => unless_range(!is_negative && number < 32, number),
        Field::Unsigned(count) => unless_range(!is_negative && number < count, number),
        Field::Signed(half) => signed_field(half, is_negative, number),
        Field::Offset(half) => even_field(half, is_negative, number),
    }
}

fn even_field(half: u64, is_negative: bool, number: u64) -> Result<u64, ListFault>
    requires some { 1 ≤ half }
    requires signed { is_negative ≡ true → 1 ≤ number }
    requires small { half ≤ 2 ^ 20 }
    ensures value { result
        ≡ (if number % 2 == 0 then signed_field half (is_negative, number) else Err Range) }
    ensures fits { IfOk result (Fits (Offset half)) }
{
    if number % 2 != 0 {
        return Err(ListFault::Range);
    }
    signed_field(half, is_negative, number)
}

#[tactic(auto, unfolding(crate::specs::Fields::read_field))]
fn read_field(field: Field, text: &[u8]) -> Result<u64, ListFault>
    requires { IsField field }
    ensures value { result ≡ read_field field text.now }
    ensures fits { IfOk result (Fits field) }
{
    let Some((is_negative, number)) = written_in(field, text) else {
        return Err(ListFault::Form);
    };
    in_field(field, is_negative, number)
}

fn is_form(field: Result<u64, ListFault>) -> bool
    ensures { result ≡ is_form field }
{
    match field {
        Err(ListFault::Form) => true,
        Ok(_) | Err(ListFault::Range) | Err(ListFault::Length) => false,
    }
}

// Fields beside one another, or what is wrong with them.
#[tactic(auto, unfolding(crate::specs::Fields::together))]
fn together(
    first: Result<u64, ListFault>,
    second: Result<u64, ListFault>,
    third: Result<u64, ListFault>,
) -> Result<Operands, ListFault>
    ensures value { result ≡ together first second third }
    ensures parts { IfOk result (λ o. (first ≡ Ok o.first) × (second ≡ Ok o.second) × (third ≡ Ok o.third)) }
{
    if is_form(first) || is_form(second) || is_form(third) {
        return Err(ListFault::Form);
    }
    Ok(Operands {
        first: first?,
        second: second?,
        third: third?,
    })
}

/// The operands of a text, which is what stands behind the space of a line.
#[tactic(auto, unfolding(crate::specs::Fields::read_operands))]
pub fn read_operands(shape: Shape, text: &[u8]) -> Result<Operands, ListFault>
    requires { IsShape shape }
    ensures value { result ≡ read_operands shape text.now }
    ensures fits { IfOk result (FitShape shape) }
{
    match shape {
        Shape::Empty => Err(ListFault::Form),
        Shape::Pair(last) => read_pair(last, text),
        Shape::Triple(last) => read_triple(last, text),
        Shape::Based => read_based(text),
    }
}

fn read_pair(last: Field, text: &[u8]) -> Result<Operands, ListFault>
    requires { IsField last }
    ensures value { result ≡ of_pair last (cut 44 text.now) }
    ensures fits { IfOk result (FitShape (Pair last)) }
{
    let Some((first, second)) = cut(text, b',') else {
        return Err(ListFault::Form);
    };
    together(
        read_field(Field::Register, first),
        read_field(last, second),
        Ok(0),
    )
}

fn read_triple(last: Field, text: &[u8]) -> Result<Operands, ListFault>
    requires { IsField last }
    ensures value { result ≡ in_triple last (cut 44 text.now) }
    ensures fits { IfOk result (FitShape (Triple last)) }
{
    let Some((first, rest)) = cut(text, b',') else {
        return Err(ListFault::Form);
    };
    let Some((second, third)) = cut(rest, b',') else {
        return Err(ListFault::Form);
    };
    together(
        read_field(Field::Register, first),
        read_field(Field::Register, second),
        read_field(last, third),
    )
}

fn read_based(text: &[u8]) -> Result<Operands, ListFault>
    ensures value { result ≡ in_based (cut 44 text.now) }
    ensures fits { IfOk result (FitShape Based) }
{
    let Some((first, rest)) = cut(text, b',') else {
        return Err(ListFault::Form);
    };
    let Some((second, rest)) = cut(rest, b'(') else {
        return Err(ListFault::Form);
    };
    let Some((base, rest)) = cut(rest, b')') else {
        return Err(ListFault::Form);
    };
    if !rest.is_empty() {
        return Err(ListFault::Form);
    }
    together(
        read_field(Field::Register, first),
        read_field(Field::Signed(1 << 11), second),
        read_field(Field::Register, base),
    )
}
