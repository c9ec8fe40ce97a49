//! What is known of trees, their words and their reading, for those who build on them.

ghost use Rattle.std.specs.Prelude.{◌≡◌, [], Ok, Err};
ghost use Rattle.c_syntax.specs.Statements.{Unit};
ghost use Rattle.c_syntax.specs.Words.{Words, unit_words};
ghost use Rattle.c_syntax.specs.Formed.{IsWellFormed};
ghost use Rattle.c_grammar.specs.UnitReader.{unit_from};

/// Two well-formed files with equal words are equal, the positions of their tokens included.
#[tactic(auto, using(crate::proofs::Unique::one_tree))]
pub fn words_have_one_tree()
    ensures { (a b : Unit) → IsWellFormed a → IsWellFormed b → unit_words a ≡ unit_words b → a ≡ b }
{}

/// The reader of files is exact: what it reads is well formed, has exactly these words, and leaves none; each
/// well-formed file is read from its words; and of words that it refuses there is no well-formed file.
#[tactic(auto, using(crate::proofs::Refused::reading))]
pub fn reading_is_exact()
    ensures sound { (i : Words) (u : Unit) (r : Words) → unit_from i ≡ Ok (u, r)
        → (r ≡ []) × IsWellFormed u × (unit_words u ≡ i) }
    ensures complete { (u : Unit) → IsWellFormed u → unit_from (unit_words u) ≡ Ok (u, []) }
    ensures refused { (i r : Words) → unit_from i ≡ Err r → (u : Unit) → IsWellFormed u → unit_words u ≡ i → ⊥ }
{}
