//! Punctuators (C99 6.4.6), without `##` and digraphs.

ghost use Rattle.std.specs.Prelude.{◌≡◌};
ghost use Rattle.c_lexer.specs.Spellings.{punctuator_spelling};

/// A punctuator.
#[derive(Clone, Copy, Debug, PartialEq, Eq)]
pub enum Punctuator {
    /// `[`
    LeftBracket,
    /// `]`
    RightBracket,
    /// `(`
    LeftParenthesis,
    /// `)`
    RightParenthesis,
    /// `{`
    LeftBrace,
    /// `}`
    RightBrace,
    /// `.`
    Dot,
    /// `->`
    Arrow,
    /// `++`
    Increment,
    /// `--`
    Decrement,
    /// `&`
    Ampersand,
    /// `*`
    Star,
    /// `+`
    Plus,
    /// `-`
    Minus,
    /// `~`
    Tilde,
    /// `!`
    Exclamation,
    /// `/`
    Slash,
    /// `%`
    Percent,
    /// `<<`
    ShiftLeft,
    /// `>>`
    ShiftRight,
    /// `<`
    Less,
    /// `>`
    Greater,
    /// `<=`
    LessOrEqual,
    /// `>=`
    GreaterOrEqual,
    /// `==`
    Equal,
    /// `!=`
    NotEqual,
    /// `^`
    Caret,
    /// `|`
    Bar,
    /// `&&`
    And,
    /// `||`
    Or,
    /// `?`
    Question,
    /// `:`
    Colon,
    /// `;`
    Semicolon,
    /// `...`
    Ellipsis,
    /// `=`
    Assign,
    /// `*=`
    MultiplyAssign,
    /// `/=`
    DivideAssign,
    /// `%=`
    RemainderAssign,
    /// `+=`
    AddAssign,
    /// `-=`
    SubtractAssign,
    /// `<<=`
    ShiftLeftAssign,
    /// `>>=`
    ShiftRightAssign,
    /// `&=`
    AndAssign,
    /// `^=`
    XorAssign,
    /// `|=`
    OrAssign,
    /// `,`
    Comma,
    /// `#`
    Hash,
}

/// The punctuators, each once, the longer ones first.
pub static PUNCTUATORS: [Punctuator; 47] = [
    Punctuator::Ellipsis,
    Punctuator::ShiftLeftAssign,
    Punctuator::ShiftRightAssign,
    Punctuator::Arrow,
    Punctuator::Increment,
    Punctuator::Decrement,
    Punctuator::ShiftLeft,
    Punctuator::ShiftRight,
    Punctuator::LessOrEqual,
    Punctuator::GreaterOrEqual,
    Punctuator::Equal,
    Punctuator::NotEqual,
    Punctuator::And,
    Punctuator::Or,
    Punctuator::MultiplyAssign,
    Punctuator::DivideAssign,
    Punctuator::RemainderAssign,
    Punctuator::AddAssign,
    Punctuator::SubtractAssign,
    Punctuator::AndAssign,
    Punctuator::XorAssign,
    Punctuator::OrAssign,
    Punctuator::LeftBracket,
    Punctuator::RightBracket,
    Punctuator::LeftParenthesis,
    Punctuator::RightParenthesis,
    Punctuator::LeftBrace,
    Punctuator::RightBrace,
    Punctuator::Dot,
    Punctuator::Ampersand,
    Punctuator::Star,
    Punctuator::Plus,
    Punctuator::Minus,
    Punctuator::Tilde,
    Punctuator::Exclamation,
    Punctuator::Slash,
    Punctuator::Percent,
    Punctuator::Less,
    Punctuator::Greater,
    Punctuator::Caret,
    Punctuator::Bar,
    Punctuator::Question,
    Punctuator::Colon,
    Punctuator::Semicolon,
    Punctuator::Assign,
    Punctuator::Comma,
    Punctuator::Hash,
];

impl Punctuator {
    /// How it is spelled.
    #[tactic(auto, unfolding(crate::specs::Spellings::punctuator_spelling))]
    pub fn spelling(self) -> &'static [u8]
        ensures { result.now ≡ punctuator_spelling self }
    {
        match self {
            Punctuator::LeftBracket => b"[",
            Punctuator::RightBracket => b"]",
            Punctuator::LeftParenthesis => b"(",
            Punctuator::RightParenthesis => b")",
            Punctuator::LeftBrace => b"{",
            Punctuator::RightBrace => b"}",
            Punctuator::Dot => b".",
            Punctuator::Arrow => b"->",
            Punctuator::Increment => b"++",
            Punctuator::Decrement => b"--",
            Punctuator::Ampersand => b"&",
            Punctuator::Star => b"*",
            Punctuator::Plus => b"+",
            Punctuator::Minus => b"-",
            Punctuator::Tilde => b"~",
            Punctuator::Exclamation => b"!",
            Punctuator::Slash => b"/",
            Punctuator::Percent => b"%",
            Punctuator::ShiftLeft => b"<<",
            Punctuator::ShiftRight => b">>",
            Punctuator::Less => b"<",
            Punctuator::Greater => b">",
            Punctuator::LessOrEqual => b"<=",
            Punctuator::GreaterOrEqual => b">=",
            Punctuator::Equal => b"==",
            Punctuator::NotEqual => b"!=",
            Punctuator::Caret => b"^",
            Punctuator::Bar => b"|",
            Punctuator::And => b"&&",
            Punctuator::Or => b"||",
            Punctuator::Question => b"?",
            Punctuator::Colon => b":",
            Punctuator::Semicolon => b";",
            Punctuator::Ellipsis => b"...",
            Punctuator::Assign => b"=",
            Punctuator::MultiplyAssign => b"*=",
            Punctuator::DivideAssign => b"/=",
            Punctuator::RemainderAssign => b"%=",
            Punctuator::AddAssign => b"+=",
            Punctuator::SubtractAssign => b"-=",
            Punctuator::ShiftLeftAssign => b"<<=",
            Punctuator::ShiftRightAssign => b">>=",
            Punctuator::AndAssign => b"&=",
            Punctuator::XorAssign => b"^=",
            Punctuator::OrAssign => b"|=",
            Punctuator::Comma => b",",
            Punctuator::Hash => b"#",
        }
    }
}
