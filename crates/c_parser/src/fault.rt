//! Why a text has no tree.

use crate::unsupported::UnsupportedWord;
use sb_base::Line;

/// Why a text has no tree.
#[derive(Clone, Copy, Debug, PartialEq, Eq)]
pub enum ParseFault {
    /// There was no memory for the tree.
    Memory,
    /// A token of the text has a word that is in no part of the subset: the first such word, and its line.
    Unsupported(UnsupportedWord, Line),
    /// No word is so, no well-formed tree of at most 200 levels has the words of the text, and the tokens up to the one
    /// where the parser stood open at most 200 brackets more than they close.
    Syntax {
        /// The number of that token, from 0; the end of the text counts as one.
        at: u64,
        /// The line of that token, or that on which the text ends.
        line: Line,
    },
    /// The same where these tokens have over 200 more of `(`, `[` and `{` than of `)`, `]` and `}`.
    Nesting {
        /// The number of that token, from 0; the end of the text counts as one.
        at: u64,
        /// The line of that token, or that on which the text ends.
        line: Line,
    },
}
