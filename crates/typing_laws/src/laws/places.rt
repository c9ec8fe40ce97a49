//! Laws of the places of statements.

ghost use Rattle.std.specs.Prelude.{◌≡◌, true, List};
ghost use Rattle.c_syntax.specs.Statements.{BlockItems, Statement};
ghost use Rattle.c_unit_typing.specs.Constructs.{Around, Labels};
ghost use Rattle.c_unit_typing.specs.Files.{File};
ghost use Rattle.c_unit_typing.specs.Statements.{block_items, statement};
ghost use Rattle.typing_laws.specs.Places.Placed.{AreFine, IfGives, IsFineStatement, are_placed};

/// In what a statement or the items of a block are typed to, `break` and `continue` stand where they may (C99 6.8.6),
/// the
/// labels of each switch are all different and of the type of its value (6.8.4.2), and no declaration is the body of a
/// selection or iteration statement (6.8.2).
pub fn statements_stand_where_they_may()
    ensures statement { (a : Around) (ls : Labels) (s : Statement) (f : File) → AreFine ls ls.own
        → IfGives (IsFineStatement a ls) (statement a ls s f) }
    ensures items { (a : Around) (xs : BlockItems) (f : File)
        → IfGives (λ ss. are_placed a.inside ss ≡ true) (block_items a xs f) }
{}
