//! The lines of the tokens at which constructs are judged, and names.

ghost use Rattle.std.specs.Prelude.{◌≡◌, option_copied, option_map};
ghost use Rattle.c_syntax.specs.View as view;
ghost use Rattle.c_expression_typing.specs.Lines.{first_line, line_of, tag_name};

use c_syntax::{Specifier, Spelled};
use sb_base::Line;

/// The line of a specifier's first token.
fn line_of(specifier: &Specifier) -> Line
    ensures { result ≡ line_of (view.specifier_of specifier.now) }
{
    match specifier {
        Specifier::Keyword(_, at)
        | Specifier::Structure(_, at, _)
        | Specifier::StructureBody(_, at, _, _, _, _)
        | Specifier::Enumeration(at, _)
        | Specifier::EnumerationBody(at, _, _, _, _, _, _) => at.line,
        Specifier::TypedefName(name) => name.position.line,
    }
}

/// The line of the first of some specifiers; 1 where there is none.
pub fn first_line(specifiers: &[Specifier]) -> Line
    ensures { result ≡ first_line (view.specifiers_in specifiers.now) }
{
    match specifiers {
        [] => Line::first(),
        [first, ..] => line_of(first),
    }
}

/// The name of a tag, if there is one.
pub fn tag_name<'a>(tag: &Option<Spelled<'a>>) -> Option<&'a [u8]>
    ensures { option_copied result ≡ tag_name tag.now }
{
    match tag {
        None => None,
        Some(tag) => Some(tag.spelling.bytes()),
    }
}
