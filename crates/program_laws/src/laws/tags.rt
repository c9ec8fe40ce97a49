//! Laws of the tags of structures and unions.

ghost use Rattle.std.specs.Prelude.{◌≡◌, ℕ, Bool, true, List, Option, Ok};
ghost use Rattle.c_syntax.specs.Statements.{Declaration, External};
ghost use Rattle.c_unit_typing.specs.Declarations.{declaration};
ghost use Rattle.c_unit_typing.specs.Files.{File};
ghost use Rattle.c_unit_typing.specs.Units.{externals, file_with};
ghost use Rattle.typing_laws.specs.Validity.Sound.{IsFormed};
ghost use Rattle.typing_laws.specs.Scopes.Defined.{define_functions};
ghost use Rattle.typing_laws.specs.Scopes.Regular.{are_regular_externals};
ghost use Rattle.program_laws.specs.Sizes.Tags.{IfBodiesStay, TagsAreComplete};

/// At the end of a file each structure or union is complete that was declared at file scope by a tag whose members the
/// file lists at file scope (C99 6.7.2.1, 6.9.2).
pub fn tags_with_members_are_complete()
    ensures { (objects : Option (List (List Bool))) (end : ℕ) (es : List External) (f : File)
        → are_regular_externals es ≡ true → define_functions es ≡ true → file_with objects end es ≡ Ok f
        → TagsAreComplete f }
{}

/// Behind declarations and definitions of functions a structure or union that was declared at file scope by a tag keeps
/// its number and its tag (C99 6.7.2.3).
pub fn structures_keep_their_tags()
    ensures declarations { (in_head : Bool) (d : Declaration) (f : File)
        → IfBodiesStay f.state (declaration in_head d f) }
    ensures externals { (es : List External) → are_regular_externals es ≡ true → (f : File) → IsFormed f.state
        → IfBodiesStay f.state (externals es f) }
{}
