//! The pieces of a format of `printf` (C99 7.19.6.1).

ghost use Rattle.std.specs.Prelude.{◌≡◌, ℕ, ◌∷◌, List, IfOk};
ghost use Rattle.c_tree.specs.Format.{pieces};
ghost use Rattle.c_tree.specs.Scanning.{pieces_from};
ghost use Rattle.source_meaning.specs.Printing.{pieces_or_none};
ghost use Rattle.instruction_selection.specs.Formats.{behind_byte};

use c_tree::format::{Next, Piece, Place, next_in};
use std::alloc::{AllocError, Global};

/// What a byte of a format is.
#[derive(Clone, Copy)]
pub enum FormatByte {
    /// Its end.
    Stop,
    /// Part of a directive that the subset has not.
    Fail,
    /// Part of a directive: what comes is read at this place.
    Go(Place),
    /// The end of a piece.
    Give(Piece),
}

// What a byte is, at a place.
#[tactic(auto, using(crate::proofs::FormatSteps::step_is))]
fn classified(place: Place, byte: u8) -> FormatByte
    ensures { (others : List ℕ) → pieces_from place (byte ∷ others) ≡ behind_byte result others }
{
    match next_in(place, byte) {
        Next::End => FormatByte::Stop,
        Next::Wrong => FormatByte::Fail,
        Next::On(Place::Text, Some(directive)) => FormatByte::Give(Piece::Directive(directive)),
        Next::On(Place::Text, None) => FormatByte::Give(Piece::Byte(byte)),
        Next::On(place, _) => FormatByte::Go(place),
    }
}

/// The pieces of a format; none where it has a directive that the subset has not. It fails only for want of memory.
pub fn pieces_of(alloc: Global, format: &[u8]) -> Result<Vec<Piece>, AllocError>
    ensures { IfOk result (λ list. list.items ≡ pieces_or_none (pieces format.now)) }
{
    let mut list = Vec::new(alloc);
    let mut place = Place::Text;
    for byte in format {
        match classified(place, *byte) {
            FormatByte::Stop => return Ok(list),
            FormatByte::Fail => return Ok(Vec::new(alloc)),
            FormatByte::Go(next) => place = next,
            FormatByte::Give(piece) => {
                list.push(piece)?;
                place = Place::Text;
            }
        }
    }
    match place {
        Place::Text => Ok(list),
        Place::Percent | Place::Long => Ok(Vec::new(alloc)),
    }
}
