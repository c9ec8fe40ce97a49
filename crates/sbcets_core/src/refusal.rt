//! Why a source is refused.
use c_faults::Fault;
use c_lexer::LexFault;
use c_pre::PreFault;
use sb_base::Line;
use std::alloc::{AllocError, Global};
use std::marker::Model;
use thiserror::Error;

/// What there is too much of.
#[derive(Clone, Copy, Debug, PartialEq, Eq)]
pub enum Counted {
    /// Bytes of the source, at most 1048576.
    Source,
    /// Functions that are defined, at most 4096.
    Functions,
    /// Parameters of a function declarator, at most 127.
    Parameters,
    /// Members of a structure or union, at most 1024.
    Members,
    /// Bytes of the static objects, in whole pages of 4096, at most 4194304.
    Globals,
    /// Bytes of the compiled code, at most 8388608.
    Code,
}

/// The word of a refusal: a copy of the bytes that spell a token. Contracts see the list of the bytes.
#[derive(Debug, Drop)]
pub struct RefusedWord {
    bytes: Vec<u8>,
}

impl Model for RefusedWord {
    ghost use Rattle.std.specs.Prelude.{ℕ, List};

    ghost Value = { List ℕ };

    ghost view = { λ w. w.bytes.items };
}

impl RefusedWord {
    ghost use Rattle.std.specs.Prelude.{◌≡◌, IfOk};

    /// A copy of these bytes.
    pub fn copy(alloc: Global, bytes: &[u8]) -> Result<Self, AllocError>
        ensures { IfOk result (λ word. word ≡ bytes.now) }
    {
        let mut copy = Vec::new(alloc);
        copy.extend_from_slice(bytes)?;
        Ok(RefusedWord { bytes: copy })
    }

    /// The bytes.
    pub fn bytes(&self) -> &[u8]
        ensures { result.now ≡ self.now }
    {
        &self.bytes
    }
}

/// Why a source is refused. First comes `TooLarge` of the source's bytes; then a lexical fault, a fault of a directive,
/// an unsupported word, `Syntax` or `Nesting`; then a violated rule of typing, and last of these an initializer that is
/// not constant; then `TooLarge` of functions, parameters, members or globals, in this order; then `RoomTooLarge`. Last
/// comes why an accepted source is not built: what is too large, of a program of integers alone, and `Uncompiled`, of
/// any other.
#[derive(Debug, Drop, Error)]
pub enum SourceRefusal {
    /// The first place where no token stands.
    #[error("no token stands at a place of the source")]
    Lex(LexFault),
    /// The first fault of a directive or a macro.
    #[error("a directive of the source is at fault")]
    Pre(PreFault),
    /// The first of the expanded tokens that is of no part of C that is compiled: `float`, `double`, `_Bool`,
    /// `_Complex`, `_Imaginary`, `volatile`, `restrict`, `goto`, `...` or a wide literal (the word `L`).
    #[error("the source has a word that is not supported")]
    Unsupported(RefusedWord, Line),
    /// No well-formed tree of at most 200 levels has the expanded tokens (C99 6.5 to 6.9), and those up to the one
    /// where the parser stood open at most 200 of `(`, `[` and `{` more than they close.
    #[error("the source is no text of the grammar")]
    Syntax {
        /// The number of that token, from 0; the end of the text counts as one.
        at: u64,
        /// The line of that token, or that on which the text ends.
        line: Line,
    },
    /// The same where these tokens open over 200 more than they close.
    #[error("the source is nested too deep")]
    Nesting {
        /// The number of that token, from 0; the end of the text counts as one.
        at: u64,
        /// The line of that token, or that on which the text ends.
        line: Line,
    },
    /// The first typing rule that is violated, in the order of the tokens, with the line of the token at which it is.
    #[error("the source violates a rule of typing")]
    Typing(Fault),
    /// The first expression that the initializer of a static object stores and that is not constant (C99 6.7.8
    /// paragraph 4) is on this line.
    #[error("an initializer of the source is not constant")]
    Const(Line),
    /// There is more of something than its limit, and how much there is.
    #[error("there is too much of something in the source")]
    TooLarge {
        which: Counted,
        count: u128,
    },
    /// The source is accepted and its program is not one of integers alone, but it has no image: an instruction of its
    /// code is not covered yet, as of structures by value, or a test of the back end fails. Which programs pass these
    /// tests is not proved. The text ends on this line.
    #[error("the program of the source is not compiled yet")]
    Uncompiled(Line),
    /// The function with this number has a room of 2^64 bytes or more.
    #[error("a function of the source has too much room")]
    RoomTooLarge(usize),
    /// A function has 2^32 virtual registers or more, or 2^31 instructions or more.
    #[error("the numbers of a function are too large")]
    NumbersTooLarge,
    /// There was no memory to compile it.
    #[error("out of memory")]
    Memory,
}
