//! Laws of expanded tokens, each as the contract of a function that does nothing.

ghost use Rattle.std.specs.Prelude.{◌≡◌, [], ◌∷◌, ◌++◌, ℕ, Bool, true, false, List, All, Ok, Option};
ghost use Rattle.c_pre.specs.Conditions.{condition_at};
ghost use Rattle.c_pre.specs.Directives.{if_defined, if_condition, elif, else_group, endif_line, line_kind};
ghost use Rattle.c_pre.specs.Groups.{Group, OtherGroups, IsFormed, AreFormed, lines_of, other_lines};
ghost use Rattle.c_pre.specs.Lines.{Tokens};
ghost use Rattle.c_pre.specs.Expansion.{ends, expansion, replacement, turn};
ghost use Rattle.c_pre.specs.HideSets.{HidingToken};
ghost use Rattle.c_pre.specs.Origin.{ComesFrom};
ghost use Rattle.c_pre.specs.Names.{Name, Macros};
ghost use Rattle.c_pre.specs.Reading.{expanded_tokens, holds, read_behind, read_lines};
ghost use Rattle.c_pre.specs.Sections.{State, chosen, is_read, opened, with_section};
ghost use Rattle.c_pre.specs.Trace.{line_of};

/// Each expanded token is a token of the text or of a header, perhaps on another line. So what spells it is a slice
/// of the text or of the table of headers.
pub fn expanded_tokens_are_tokens()
    ensures { (text out : Tokens) → expanded_tokens text ≡ Ok out → All (ComesFrom text) out }
{}

/// Just which groups are skipped (C99 6.10.1 paragraph 6). In a group that is skipped all lines are. A section that
/// stands in text that is read begins with a group that is read where its condition holds, and is skipped where that
/// does not. Behind a group that is skipped so the section ends, or the group of its `#else` is read, or its `#elif`
/// tells of the next group what `#if` told of the first. Behind a group that was read all others are skipped to the
/// end of the section, and no condition of theirs is read. A group that is skipped gives no token, has no fault and
/// changes no macro.
pub fn groups_are_skipped()
    ensures nested { (g : Group) (s : State) (rest : List Tokens) → IsFormed g → is_read s.sections ≡ false →
        read_lines s (lines_of g ++ rest) ≡ read_lines s rest }
    ensures defined { (s : State) (opening : Tokens) (rest : List Tokens) (name : Name) (wanted : Bool) →
        is_read s.sections ≡ true → line_kind opening ≡ if_defined name wanted →
        read_lines s (opening ∷ rest)
        ≡ read_lines (with_section (opened (line_of opening) (holds wanted (s.macros name))) s) rest }
    ensures condition { (s : State) (opening : Tokens) (rest : List Tokens) (tokens : Tokens) →
        is_read s.sections ≡ true → line_kind opening ≡ if_condition tokens →
        read_lines s (opening ∷ rest)
        ≡ read_behind (line_of opening) s (condition_at (line_of opening) s.macros s.room tokens) rest }
    ensures unmet { (s : State) (line : ℕ) (g : Group) (closing : Tokens) (rest : List Tokens) →
        IsFormed g → line_kind closing ≡ endif_line true →
        read_lines (with_section (opened line false) s) (lines_of g ++ (closing ∷ rest)) ≡ read_lines s rest }
    ensures to_else { (s : State) (line : ℕ) (g : Group) (middle : Tokens) (rest : List Tokens) →
        IsFormed g → line_kind middle ≡ else_group true →
        read_lines (with_section (opened line false) s) (lines_of g ++ (middle ∷ rest))
        ≡ read_lines (with_section (chosen line) s) rest }
    ensures to_elif { (s : State) (line : ℕ) (g : Group) (middle : Tokens) (rest : List Tokens) (tokens : Tokens) →
        IsFormed g → line_kind middle ≡ elif tokens →
        read_lines (with_section (opened line false) s) (lines_of g ++ (middle ∷ rest))
        ≡ read_behind line s (condition_at (line_of middle) s.macros s.room tokens) rest }
    ensures met { (s : State) (line : ℕ) (others : OtherGroups) (rest : List Tokens) → AreFormed others true →
        read_lines (with_section (opened line true) s) (other_lines others ++ rest) ≡ read_lines s rest }
    ensures last { (s : State) (line : ℕ) (closing : Tokens) (rest : List Tokens) →
        line_kind closing ≡ endif_line true →
        read_lines (with_section (chosen line) s) (closing ∷ rest) ≡ read_lines s rest }
{}

/// What the definition of expansion means without its bound on depth: no tokens give none, and each token stays, or is
/// replaced, together with what follows, by expansions that are not bounded either (C99 6.10.3.4).
#[tactic(auto, using(crate::proofs::Unfolding::expansion_nil, crate::proofs::Unfolding::expansion_turn))]
pub fn expansion_is_unbounded()
    ensures none { (macros : Macros) (outer : Option ℕ) (room : ℕ) → expansion macros outer room [] ≡ ends room }
    ensures one { (macros : Macros) (outer : Option ℕ) (room : ℕ) (x : HidingToken) (follow : List HidingToken) →
        expansion macros outer room (x ∷ follow)
        ≡ turn (expansion macros) outer x (replacement macros x) room follow }
{}
