//! Laws of words and tokens, each as the contract of a function that does nothing: layers above rest on them.

ghost use Rattle.std.specs.Prelude.{◌≡◌, ◌≤◌, ℕ, suc, List, length, take, Some, Ok};
ghost use Rattle.std.specs.List.{All};
ghost use Rattle.c_lexer.specs.Constants.{constant_of, greatest_of};
ghost use Rattle.c_lexer.specs.Longest.{front_token};
ghost use Rattle.c_lexer.specs.Sound.{HasMeaning, IsTokenOf, IsWord};
ghost use Rattle.c_lexer.specs.Spelled.{TokenList};
ghost use Rattle.c_lexer.specs.Spellings.{keyword_of, keyword_spelling, punctuator_of, punctuator_spelling};
ghost use Rattle.c_lexer.specs.Text.{newlines, tokens};
ghost use Rattle.c_lexer.specs.Words.{spelling_of, word_of};
ghost use Rattle.c_lexer.specs.declared.integer.IntegerConstant.{IntegerConstant};
ghost use Rattle.c_lexer.specs.declared.keyword.Keyword.{Keyword};
ghost use Rattle.c_lexer.specs.declared.punctuator.Punctuator.{Punctuator};
ghost use Rattle.c_lexer.specs.declared.token.TokenKind.{TokenKind};

/// The word that all of some bytes spell has these bytes, so two texts never spell one word.
pub fn words_have_their_spellings()
    ensures { (z : List ℕ) (w : TokenKind) → word_of z ≡ Some w → spelling_of w ≡ z }
{}

/// Each keyword and each punctuator is read back from its spelling, so no two are spelled alike.
pub fn spellings_differ()
    ensures keywords { (k : Keyword) → keyword_of (keyword_spelling k) ≡ Some k }
    ensures punctuators { (p : Punctuator) → punctuator_of (punctuator_spelling p) ≡ Some p }
{}

/// The token at the front of a text has the bytes there, at least one.
pub fn front_tokens_have_their_bytes()
    ensures { (z : List ℕ) (w : TokenKind) (n : ℕ) → front_token z ≡ Some (w, n)
        → (spelling_of w ≡ take n z) × (1 ≤ n) × (n ≤ length z) }
{}

/// The value of an integer constant fits its type.
pub fn constants_fit()
    ensures { (z : List ℕ) (c : IntegerConstant) → constant_of z ≡ Some c → c.value ≤ greatest_of c.integer_type }
{}

/// An integer constant among tokens has a type and a value, a character constant a value, a string literal its bytes.
pub fn literals_have_meanings()
    ensures { (w : TokenKind) → IsWord w → HasMeaning w }
{}

/// Each token of a text is the word that its bytes spell, and has a line of the text. There are at most as many tokens
/// as bytes. The end is on the last line.
pub fn tokens_are_words()
    ensures words { (text : List ℕ) (found : TokenList) → tokens text ≡ Ok found → All (IsTokenOf text) found.tokens }
    ensures few { (text : List ℕ) (found : TokenList) → tokens text ≡ Ok found → length found.tokens ≤ length text }
    ensures end { (text : List ℕ) (found : TokenList) → tokens text ≡ Ok found → found.end ≡ suc (newlines text) }
{}
