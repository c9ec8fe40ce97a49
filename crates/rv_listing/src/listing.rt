//! The listing of a file.

ghost use Rattle.std.specs.Prelude.{◌≡◌, ◌≤◌, ◌^◌, ◌+◌, ◌++◌, ◌∷◌, List, None, length, if◌then◌else◌};
ghost use Rattle.std.specs.Prelude.{OnOk, IfOk};
ghost use Rattle.rv_isa.specs.Decoding.{decoded};
ghost use Rattle.rv_listing.specs.Lines.{Piece};
ghost use Rattle.rv_listing.specs.Listings.{listing_text, is_code, holds_word, word_piece, words, merged};
ghost use Rattle.rv_listing.specs.Listings.{with_zeros, zeros_text, text_of};

use crate::piece::{put_count, put_group, put_instruction};
use byteorder::{ByteOrder, LittleEndian};
use rv_isa::{Instr, decode};
use std::alloc::{AllocError, Global};

/// The listing of the bytes of a file, whose code lies in these ranges: each is a first place in the file and how many
/// bytes it has. Memory is all that can be wanting.
#[tactic(auto, unfolding(crate::specs::Listings::listing_text))]
pub fn list_text(alloc: Global, bytes: &[u8], code: &[(u64, u64)]) -> Result<Vec<u8>, AllocError>
    ensures { IfOk result (λ text. text.items ≡ listing_text bytes.now code.now) }
{
    let mut text = Vec::with_capacity(alloc, room_for(bytes.len()))?;
    put_count(&mut text, b".image ", bytes.len() as u64)?;
    put_words(&mut text, bytes, code)?;
    Ok(text)
}

// At least as many bytes as the lines of so many bytes can have: a word has at most twenty. Of more than 4 GiB only a
// part is taken at once.
fn room_for(length: usize) -> usize {
    length.min(1 << 32) * 5 + 64
}

fn put_words(text: &mut Vec<u8>, bytes: &[u8], code: &[(u64, u64)]) -> Result<(), AllocError>
    ensures { OnOk result (text.new.items ≡ text.old.items ++ text_of (merged (words code.now 0 bytes.now))) }
{
    let mut zeros = 0;
    let mut place = 0;
    let mut rest = bytes;
    while rest.len() >= 4 {
        let (word, after) = rest.split_at(4);
        let is_code = is_code(code, place);
        zeros = put_word(text, is_code, word, zeros)?;
        place += 4;
        rest = after;
    }
    put_zeros(text, zeros)?;
    if rest.is_empty() {
        return Ok(());
    }
    put_group(text, rest)?;
    Ok(())
}

// Whether a word lies wholly in a range.
#[tactic(auto, unfolding(crate::specs::Listings::is_code))]
fn is_code(ranges: &[(u64, u64)], place: u64) -> bool
    ensures { result ≡ is_code ranges.now place }
{
    for range in ranges {
        if holds_word(range.0, range.1, place) {
            return true;
        }
    }
    false
}

fn holds_word(first: u64, count: u64, place: u64) -> bool
    ensures { result ≡ holds_word place (first, count) }
{
    first <= place && count >= 4 && place - first <= count - 4
}

// Puts the lines of a word behind those before it, of which so many zeros are still to be put, and gives how many are
// then.
#[tactic(auto, unfolding(crate::specs::Listings::word_piece))]
fn put_word(text: &mut Vec<u8>, is_code: bool, word: &[u8], zeros: u64) -> Result<u64, AllocError>
    requires four { length word.now ≡ 4 }
    requires few { zeros ≤ 2 ^ 63 }
    ensures text { IfOk result (λ left. (ps : List Piece)
        → text.new.items ++ text_of (with_zeros left (merged ps))
        ≡ text.old.items ++ text_of (with_zeros zeros (merged (word_piece is_code word.now ∷ ps)))) }
    ensures few { IfOk result (λ left. left ≤ zeros + 4) }
{
    let number = LittleEndian::read_u32(word);
    if let Some(instruction) = instruction_of(is_code, number) {
        put_zeros(text, zeros)?;
        put_instruction(text, &instruction)?;
        return Ok(0);
    }
    if number == 0 {
        return Ok(zeros + 4);
    }
    put_zeros(text, zeros)?;
    put_group(text, word)?;
    Ok(0)
}

fn instruction_of(is_code: bool, word: u32) -> Option<Instr>
    ensures { result ≡ (if is_code then decoded word else None) }
{
    if is_code { decode(word) } else { None }
}

// Puts the line of a run of zeros, where there are some.
#[tactic(auto, unfolding(crate::specs::Lines::piece_text))]
fn put_zeros(text: &mut Vec<u8>, count: u64) -> Result<(), AllocError>
    ensures { OnOk result (text.new.items ≡ text.old.items ++ zeros_text count) }
{
    if count == 0 {
        return Ok(());
    }
    put_count(text, b".zero ", count)
}
