//! Names of declarators, and typedef names (C99 6.7.5, 6.7.7).

ghost use Rattle.std.specs.Prelude.{◌≡◌};
ghost use Rattle.c_syntax.specs.Formed as formed;
ghost use Rattle.c_syntax.specs.View as view;

use crate::tree::Declarator;
use c_lexer::Spelling;

/// The name of a declarator, or `None` where it is abstract.
pub fn declared_name<'t, 'a>(declarator: &'t Declarator<'a>) -> Option<Spelling<'a>>
    ensures { result ≡ formed.declared (view.declarator_of declarator.now) }
{
    match declarator {
        Declarator::Named(name) => Some(name.spelling.again()),
        Declarator::Unnamed => None,
        Declarator::Pointer(_, _, inner)
        | Declarator::Parenthesized(_, inner, _)
        | Declarator::OpenArray(inner, _, _)
        | Declarator::Array(inner, _, _, _)
        | Declarator::Function(inner, _, _, _) => declared_name(inner.get()),
    }
}
