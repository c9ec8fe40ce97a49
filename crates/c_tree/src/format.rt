//! The pieces of a format of `printf` (C99 7.19.6.1), of which the subset has directives without flags, widths and
//! precisions.

ghost use Rattle.std.specs.Prelude.{◌≡◌};
ghost use Rattle.c_tree.specs.Format.{long_piece_of, piece_of};
ghost use Rattle.c_tree.specs.Scanning.{behind_piece, next_in};

/// A directive that takes an argument.
#[derive(Clone, Copy, Debug, PartialEq, Eq)]
pub enum Directive {
    /// `%d`, of an `int` or `unsigned int`, converted to `int`.
    Int,
    /// `%u`, of an `int` or `unsigned int`, converted to `unsigned int`.
    UnsignedInt,
    /// `%x`, of an `int` or `unsigned int`, converted to `unsigned int`, in lower-case hexadecimal digits.
    Hexadecimal,
    /// `%c`, of an `int` or `unsigned int`, converted to `unsigned char`.
    Character,
    /// `%ld`, of an integer of 8 bytes, converted to `long`.
    Long,
    /// `%lu`, of an integer of 8 bytes, converted to `unsigned long`.
    UnsignedLong,
    /// `%s`, of a pointer to characters or to `void`.
    String,
}

/// A piece of a format.
#[derive(Clone, Copy, Debug, PartialEq, Eq)]
pub enum Piece {
    /// A byte that is put as it stands. `%%` is the byte `%`.
    Byte(u8),
    /// A directive, which puts its argument.
    Directive(Directive),
}

/// Where a format is read.
#[derive(Clone, Copy)]
pub enum Place {
    /// In its text.
    Text,
    /// Behind a `%`.
    Percent,
    /// Behind `%l`.
    Long,
}

/// What comes behind a byte.
#[derive(Clone, Copy)]
pub enum Next {
    /// Nothing: the format ends.
    End,
    /// There is no such directive.
    Wrong,
    /// The next byte, at this place, behind this directive, if one ends here.
    On(Place, Option<Directive>),
}

/// What stands for a conversion specifier behind `%`; none where the subset has no such directive.
fn piece_of(byte: u8) -> Option<Piece>
    ensures { result ≡ piece_of byte }
{
    if byte == 37 {
        Some(Piece::Byte(37))
    } else if byte == 99 {
        Some(Piece::Directive(Directive::Character))
    } else if byte == 100 {
        Some(Piece::Directive(Directive::Int))
    } else if byte == 115 {
        Some(Piece::Directive(Directive::String))
    } else if byte == 117 {
        Some(Piece::Directive(Directive::UnsignedInt))
    } else if byte == 120 {
        Some(Piece::Directive(Directive::Hexadecimal))
    } else {
        None
    }
}

/// The same behind `%l`.
fn long_piece_of(byte: u8) -> Option<Piece>
    ensures { result ≡ long_piece_of byte }
{
    if byte == 100 {
        Some(Piece::Directive(Directive::Long))
    } else if byte == 117 {
        Some(Piece::Directive(Directive::UnsignedLong))
    } else {
        None
    }
}

/// What comes behind a piece that is no text.
fn behind_piece(piece: Option<Piece>) -> Next
    ensures { result ≡ behind_piece piece }
{
    match piece {
        None => Next::Wrong,
        Some(Piece::Byte(_)) => Next::On(Place::Text, None),
        Some(Piece::Directive(directive)) => Next::On(Place::Text, Some(directive)),
    }
}

/// What comes behind a byte at a place.
pub fn next_in(place: Place, byte: u8) -> Next
    ensures { result ≡ next_in place byte }
{
    match place {
        Place::Text => {
            if byte == 0 {
                Next::End
            } else if byte == 37 {
                Next::On(Place::Percent, None)
            } else {
                Next::On(Place::Text, None)
            }
        }
        Place::Percent => {
            if byte == 108 {
                Next::On(Place::Long, None)
            } else {
                behind_piece(piece_of(byte))
            }
        }
        Place::Long => behind_piece(long_piece_of(byte)),
    }
}
