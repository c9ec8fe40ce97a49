//! The lines of pieces, put behind a text.

ghost use Rattle.std.specs.Prelude.{◌≡◌, ◌≤◌, ◌<◌, ◌^◌, ◌++◌, ◌∷◌, [], decimal, flat_map, OnOk};
ghost use Rattle.rv_listing.specs.Fields.{signed_text, field_text, operands_text};
ghost use Rattle.rv_listing.specs.Lines.{byte_text, line_text, group, instruction as piece_of, hexadecimal_digit};
ghost use Rattle.rv_listing.specs.Operands.{IsField, IsShape};

use crate::mnemonic::Mnemonic;
use crate::operands::{Field, Operands, Shape};
use itoa::Buffer;
use rv_isa::Instr;
use std::alloc::AllocError;

/// Puts a word, a number and a newline.
pub fn put_count(text: &mut Vec<u8>, word: &[u8], count: u64) -> Result<(), AllocError>
    ensures { OnOk result (text.new.items ≡ text.old.items ++ ((word.now ++ decimal count) ++ (10 ∷ []))) }
{
    text.extend_from_slice(word)?;
    put_number(text, count)?;
    text.extend_from_slice(b"\n")
}

/// Puts the line of one to four bytes.
#[tactic(auto, unfolding(crate::specs::Lines::piece_text))]
pub fn put_group(text: &mut Vec<u8>, bytes: &[u8]) -> Result<(), AllocError>
    ensures { OnOk result (text.new.items ≡ text.old.items ++ line_text (group bytes.now)) }
{
    text.extend_from_slice(b".byte")?;
    put_bytes(text, bytes)?;
    text.extend_from_slice(b"\n")
}

fn put_bytes(text: &mut Vec<u8>, bytes: &[u8]) -> Result<(), AllocError>
    ensures { OnOk result (text.new.items ≡ text.old.items ++ flat_map byte_text bytes.now) }
{
    for byte in bytes {
        put_byte(text, *byte)?;
    }
    Ok(())
}

#[tactic(auto, unfolding(crate::specs::Lines::byte_text))]
fn put_byte(text: &mut Vec<u8>, byte: u8) -> Result<(), AllocError>
    ensures { OnOk result (text.new.items ≡ text.old.items ++ byte_text byte) }
{
    text.extend_from_slice(&[
        b' ',
        hexadecimal_digit(byte / 16),
        hexadecimal_digit(byte % 16),
    ])
}

fn hexadecimal_digit(value: u8) -> u8
    requires { value < 16 }
    ensures { result ≡ hexadecimal_digit value }
{
    if value < 10 {
        b'0' + value
    } else {
        b'a' + (value - 10)
    }
}

/// Puts the line of an instruction.
#[tactic(auto, unfolding(crate::specs::Lines::piece_text, crate::specs::Lines::instruction_text))]
pub fn put_instruction(text: &mut Vec<u8>, instruction: &Instr) -> Result<(), AllocError>
    ensures { OnOk result (text.new.items ≡ text.old.items ++ line_text (piece_of instruction.now)) }
{
    let mnemonic = Mnemonic::of(instruction);
    text.extend_from_slice(mnemonic.name())?;
    let operands = Operands::of(instruction);
    put_operands(text, mnemonic.shape(), &operands)?;
    text.extend_from_slice(b"\n")
}

#[tactic(auto, unfolding(crate::specs::Fields::operands_text))]
fn put_operands(text: &mut Vec<u8>, shape: Shape, operands: &Operands) -> Result<(), AllocError>
    requires { IsShape shape }
    ensures { OnOk result (text.new.items ≡ text.old.items ++ operands_text shape operands.now) }
{
    match shape {
        Shape::Empty => Ok(()),
        Shape::Pair(last) => {
            put_field(text, b" ", Field::Register, operands.first)?;
            put_field(text, b",", last, operands.second)
        }
        Shape::Triple(last) => {
            put_field(text, b" ", Field::Register, operands.first)?;
            put_field(text, b",", Field::Register, operands.second)?;
            put_field(text, b",", last, operands.third)
        }
        Shape::Based => {
            put_field(text, b" ", Field::Register, operands.first)?;
            put_field(text, b",", Field::Signed(1 << 11), operands.second)?;
            put_field(text, b"(", Field::Register, operands.third)?;
            text.extend_from_slice(b")")
        }
    }
}

// Puts what stands before a field, and the field.
#[tactic(auto, unfolding(crate::specs::Fields::field_text))]
fn put_field(text: &mut Vec<u8>, before: &[u8], field: Field, number: u64) -> Result<(), AllocError>
    requires { IsField field }
    ensures { OnOk result (text.new.items ≡ text.old.items ++ (before.now ++ field_text field number)) }
{
    text.extend_from_slice(before)?;
    match field {
        Field::Register => {
            text.extend_from_slice(b"x")?;
            put_number(text, number)
        }
        Field::Unsigned(_) => put_number(text, number),
        Field::Signed(half) | Field::Offset(half) => put_signed(text, half, number),
    }
}

#[tactic(auto, unfolding(crate::specs::Fields::signed_text))]
fn put_signed(text: &mut Vec<u8>, half: u64, number: u64) -> Result<(), AllocError>
    requires { half ≤ 2 ^ 20 }
    ensures { OnOk result (text.new.items ≡ text.old.items ++ signed_text half number) }
{
    if number < half {
        return put_number(text, number);
    }
    text.extend_from_slice(b"-")?;
    put_number(text, (2 * half).saturating_sub(number))
}

fn put_number(text: &mut Vec<u8>, number: u64) -> Result<(), AllocError>
    ensures { OnOk result (text.new.items ≡ text.old.items ++ decimal number) }
{
    let mut digits = Buffer::new();
    text.extend_from_slice(digits.format(number).as_bytes())
}
