//! What operators ask of the types of their operands.

ghost use Rattle.std.specs.Prelude.{◌≡◌};
ghost use Rattle.c_rules.specs.Types.{object_of, target_of};

use c_tree::{Extent, MAX_SIZE, TypeWord};
use obj_memory::IntType;

/// What a pointer points to (C99 6.2.5).
#[derive(Clone, Copy)]
pub enum Target {
    /// An object of a complete type, of so many bytes.
    Object(u64),
    /// An object of an incomplete type other than void.
    Incomplete,
    /// Void.
    Void,
    /// A function.
    Function,
}

/// What an operator asks of the type of an operand. Every other type fits no row of a table.
#[derive(Clone, Copy)]
pub enum Class {
    /// An integer, or an enumeration, whose values are ints.
    Integer(IntType),
    /// A pointer.
    Pointer(Target),
    /// A structure, a union or void.
    Other,
}

impl Class {
    ghost use Rattle.std.specs.Prelude.{◌≡◌};
    ghost use Rattle.c_rules.specs.Types.{class_of};

    /// That of a type, among structures and unions with these extents.
    pub fn of(structures: &[Option<Extent>], words: &[TypeWord]) -> Class
        ensures { result ≡ class_of structures.now words.now }
    {
        match words {
            [TypeWord::Integer(t), ..] => Class::Integer(*t),
            [TypeWord::Enumeration(_), ..] => Class::Integer(IntType::Int),
            [TypeWord::Pointer, target @ ..] => Class::Pointer(target_of(structures, target)),
            [TypeWord::Const, behind @ ..] => Class::of(structures, behind),
            _ => Class::Other,
        }
    }
}

// What a pointer to a type points to.
fn target_of(structures: &[Option<Extent>], words: &[TypeWord]) -> Target
    ensures { result ≡ target_of structures.now words.now }
{
    match words {
        [TypeWord::Void, ..] => Target::Void,
        [TypeWord::Takes | TypeWord::Gives, ..] => Target::Function,
        [TypeWord::Const, behind @ ..] => target_of(structures, behind),
        _ => object_of(Extent::of_type(structures, words)),
    }
}

fn object_of(extent: Option<Extent>) -> Target
    ensures { result ≡ object_of extent }
{
    match extent {
        Some(extent) if extent.size() >= 1 && extent.size() <= MAX_SIZE => {
            Target::Object(extent.size())
        }
        _ => Target::Incomplete,
    }
}
