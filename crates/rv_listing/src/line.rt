//! Lines of a listing, read.

ghost use Rattle.std.specs.Prelude.{◌≡◌, ◌≤◌, true, take, length, IfOk, IfSome, option_map};
ghost use Rattle.rv_listing.specs.Fields.{read_operands};
ghost use Rattle.rv_listing.specs.Lines.{size_in, image_in, bytes_in, group_in, read_instruction, named_alone};
ghost use Rattle.rv_listing.specs.Lines.{read_line, byte_in, is_hexadecimal, hexadecimal_value, LineFits, IsLine};
ghost use Rattle.rv_listing.specs.Names.{shape_of, named};
ghost use Rattle.rv_listing.specs.Operands.{FitShape};

use crate::fault::ListFault;
use crate::field::{read_operands, signed_in};
use crate::mnemonic::Mnemonic;
use crate::operands::{Operands, Shape};
use crate::text::cut;
use rv_isa::{Instr, encode};

/// The bytes of a line behind the first.
#[derive(Clone, Copy)]
pub enum Line {
    /// So many zeros, 1 to 67108864.
    Zeros(u64),
    /// The first `count` of these, at most four.
    Group { bytes: [u8; 4], count: usize },
}

/// The line that a text without its newline is, or what is wrong with it.
#[tactic(auto, unfolding(crate::specs::Lines::read_line, crate::specs::Lines::instruction_bytes))]
pub fn read_line(text: &[u8]) -> Result<Line, ListFault>
    ensures value { IsLine (read_line text.now) result }
    ensures fits { IfOk result LineFits }
{
    if text.starts_with(b".zero ") {
        let count = size_in(&text[6..])?;
        return Ok(Line::Zeros(count));
    }
    if text.starts_with(b".byte") {
        return group_in(&text[5..]);
    }
    let instruction = read_instruction(text)?;
    let bytes = encode(instruction).to_le_bytes();
    Ok(Line::Group { bytes, count: 4 })
}

/// The count of bytes that the first line tells.
#[tactic(auto, unfolding(crate::specs::Lines::image_in))]
pub fn image_in(text: &[u8]) -> Result<u64, ListFault>
    ensures value { result ≡ image_in text.now }
    ensures small { IfOk result (λ n. n ≤ 67108864) }
{
    if !text.starts_with(b".image ") {
        return Err(ListFault::Form);
    }
    size_in(&text[7..])
}

// A count of bytes.
#[tactic(auto, unfolding(crate::specs::Lines::size_in))]
fn size_in(text: &[u8]) -> Result<u64, ListFault>
    ensures value { result ≡ size_in text.now }
    ensures small { IfOk result (λ n. n ≤ 67108864) }
{
    let Some((is_negative, number)) = signed_in(text) else {
        return Err(ListFault::Form);
    };
    if is_negative || number < 1 || number > 67108864 {
        return Err(ListFault::Range);
    }
    Ok(number)
}

#[tactic(auto, unfolding(crate::specs::Lines::group_in))]
fn group_in(text: &[u8]) -> Result<Line, ListFault>
    ensures value { IsLine (group_in text.now) result }
    ensures fits { IfOk result LineFits }
{
    if text.is_empty() || text.len() > 12 {
        return Err(ListFault::Form);
    }
    let Some(group) = bytes_in(text) else {
        return Err(ListFault::Form);
    };
    let bytes = group.0;
    let count = group.1;
    Ok(Line::Group { bytes, count })
}

// Up to four bytes of two digits, each after a space, and how many they are.
fn bytes_in(text: &[u8]) -> Option<([u8; 4], usize)>
    requires { length text.now ≤ 12 }
    ensures value { option_map (λ g. take g.1 g.0) result ≡ bytes_in text.now }
    ensures few { IfSome result (λ g. g.1 ≤ 4) }
{
    let mut bytes = [0; 4];
    let mut count = 0;
    let mut rest = text;
    while rest.len() >= 3 {
        let (byte, after) = rest.split_at(3);
        let Some(value) = byte_in(byte[0], byte[1], byte[2]) else {
            return None;
        };
        bytes[count] = value;
        count += 1;
        rest = after;
    }
    if !rest.is_empty() {
        return None;
    }
    Some((bytes, count))
}

fn byte_in(space: u8, high: u8, low: u8) -> Option<u8>
    ensures { result ≡ byte_in space high low }
{
    if space != b' ' || !is_hexadecimal(high) || !is_hexadecimal(low) {
        return None;
    }
    Some(hexadecimal_value(high) * 16 + hexadecimal_value(low))
}

fn is_hexadecimal(byte: u8) -> bool
    ensures { result ≡ is_hexadecimal byte }
{
    byte.is_ascii_digit() || (b'a' <= byte && byte <= b'f')
}

fn hexadecimal_value(digit: u8) -> u8
    requires { is_hexadecimal digit ≡ true }
    ensures value { result ≡ hexadecimal_value digit }
    ensures small { result ≤ 15 }
{
    if digit <= b'9' {
        digit - b'0'
    } else {
        digit - b'a' + 10
    }
}

#[tactic(auto, unfolding(crate::specs::Lines::read_instruction))]
fn read_instruction(text: &[u8]) -> Result<Instr, ListFault>
    ensures { result ≡ read_instruction text.now }
{
    let Some((name, operands)) = cut(text, b' ') else {
        return named_alone(text);
    };
    let Some(mnemonic) = Mnemonic::named(name) else {
        return Err(ListFault::Form);
    };
    let operands = operands_behind(mnemonic, operands)?;
    Ok(mnemonic.instruction(operands))
}

// The operands that stand behind a name.
#[tactic(auto, unfolding(crate::specs::Names::shape_of))]
fn operands_behind(mnemonic: Mnemonic, text: &[u8]) -> Result<Operands, ListFault>
    ensures value { result ≡ read_operands (shape_of mnemonic) text.now }
    ensures fits { IfOk result (FitShape (shape_of mnemonic)) }
{
    read_operands(mnemonic.shape(), text)
}

#[tactic(auto, unfolding(crate::specs::Names::shape_of))]
fn named_alone(text: &[u8]) -> Result<Instr, ListFault>
    ensures { result ≡ named_alone (named text.now) }
{
    let Some(mnemonic) = Mnemonic::named(text) else {
        return Err(ListFault::Form);
    };
    match mnemonic.shape() {
        Shape::Empty => Ok(mnemonic.instruction(Operands::NONE)),
        Shape::Pair(_) | Shape::Triple(_) | Shape::Based => Err(ListFault::Form),
    }
}
