//! Definitions of macros (C99 6.10.3 paragraphs 9 and 10).

use crate::name::MacroName;
use c_lexer::Token;

/// What a name is defined as. All of it stays where it stands in the text.
#[derive(Clone, Copy)]
pub struct Macro<'t, 'a> {
    /// The tokens between the parentheses of a function-like macro: different names parted by commas, or none.
    pub parameters: Option<&'t [Token<'a>]>,
    /// The replacement list.
    pub list: &'t [Token<'a>],
}

/// A macro: its name, and what that is defined as.
#[derive(Drop)]
pub struct Definition<'t, 'a> {
    /// The name.
    pub name: MacroName<'a>,
    /// What it is defined as.
    pub meaning: Macro<'t, 'a>,
}
