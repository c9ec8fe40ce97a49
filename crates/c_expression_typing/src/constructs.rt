//! Constructs whose parts are typed, as the recursion over the syntax puts them together.

ghost use Rattle.std.specs.Prelude.{◌≡◌, ◌++◌, map, option_map, option_copied, IfOk, Ok};
ghost use Rattle.c_faults.specs.Answer.{Gives};
ghost use Rattle.c_rules.specs.Values.{value_of};
ghost use Rattle.c_place_rules.specs.Operands.{a_value, operand_of};
ghost use Rattle.c_call_rules.specs.Printing.{format_of};
ghost use Rattle.c_syntax.specs.View as view;
ghost use Rattle.c_operand_typing.specs.Calls.{called_of};
ghost use Rattle.c_operand_typing.specs.Primaries.{character_constant, integer_constant, literal, literal_bytes};
ghost use Rattle.c_operand_typing.specs.Primaries.{spelled_bytes};
ghost use Rattle.c_declarator_typing.specs.Specifications.{gathered_of, tag_type, with_named};
ghost use Rattle.c_typing_state.specs.State.{Types, state_of};
ghost use Rattle.c_expression_typing.specs.Constructs.{accessed, begun_as, cast_to, chosen, enumerated_as, is_printf};
ghost use Rattle.c_expression_typing.specs.Constructs.{literal_alone, plain_name, prefixed, sized, tagged_as};
ghost use Rattle.c_expression_typing.specs.Lines.{spellings};

use c_call_rules::printing::Format;
use c_condition_rules::conditional;
use c_declarator_typing::Gathered;
use c_declarator_typing::sizes::next_value;
use c_declarator_typing::specification::tag_type;
use c_faults::{Refusal, Rule};
use c_lexer::Punctuator;
use c_operand_typing::forms::PrefixForm;
use c_operand_typing::primaries::{character_constant, integer_constant, with_spelled_bytes};
use c_operand_typing::{Called, operators, primaries};
use c_place_rules::operand::Operand;
use c_place_rules::place::size_of;
use c_place_rules::refusal::refused;
use c_rules::TypedValue;
use c_rules::conversion::cast;
use c_rules::holding::beside;
use c_scope::meaning::Tag;
use c_scope::tags::TagKind;
use c_syntax::{Expression, Spelled};
use c_tree::{Fixity, TypeWord};
use c_typing_state::Typer;
use sb_base::Line;
use std::alloc::{AllocError, Global};

/// An integer constant as an operand.
pub fn integer(alloc: Global, constant: &Spelled) -> Result<Operand, Refusal>
    ensures { Gives operand_of result
        (Ok (a_value (integer_constant constant.now.spelling constant.now.position.line))) }
{
    let value = integer_constant(alloc, constant.spelling.bytes(), constant.position.line)?;
    Ok(Operand::Value(value))
}

/// A character constant as an operand.
pub fn character(alloc: Global, constant: &Spelled) -> Result<Operand, Refusal>
    ensures { Gives operand_of result
        (Ok (a_value (character_constant constant.now.spelling constant.now.position.line))) }
{
    let value = character_constant(alloc, constant.spelling.bytes(), constant.position.line)?;
    Ok(Operand::Value(value))
}

/// The bytes of string literals side by side, without the final 0.
pub fn bytes_of(alloc: Global, first: &Spelled, more: &[Spelled]) -> Result<Vec<u8>, AllocError>
    ensures { IfOk result (λ bytes. bytes.items ≡ spelled_bytes (spellings first.now more.now)) }
{
    let mut bytes = with_spelled_bytes(alloc, Vec::new(alloc), first.spelling.bytes())?;
    for literal in more {
        bytes = with_spelled_bytes(alloc, bytes, literal.spelling.bytes())?;
    }
    Ok(bytes)
}

// The bytes of string literals side by side, with the final 0.
fn ended_bytes(alloc: Global, first: &Spelled, more: &[Spelled]) -> Result<Vec<u8>, AllocError>
    ensures { IfOk result (λ bytes. bytes.items ≡ literal_bytes (spellings first.now more.now)) }
{
    let mut bytes = bytes_of(alloc, first, more)?;
    bytes.push(0)?;
    Ok(bytes)
}

/// String literals side by side as an operand.
pub fn strings<'a>(
    typer: &mut Typer<'a>,
    is_evaluated: bool,
    first: &Spelled,
    more: &[Spelled],
) -> Result<Operand, Refusal>
    ensures { Types operand_of (state_of typer.new) result (literal is_evaluated
        (literal_bytes (spellings first.now more.now)) first.now.position.line (state_of typer.old)) }
{
    let bytes = ended_bytes(typer.alloc, first, more)?;
    primaries::literal(typer, is_evaluated, bytes, first.position.line)
}

/// A unary operator, or `&`, `++` or `--`, before its operand.
pub fn prefixed<'a>(
    typer: &mut Typer<'a>,
    is_evaluated: bool,
    form: PrefixForm,
    line: Line,
    operand: Operand,
) -> Result<Operand, Refusal>
    ensures { Types operand_of (state_of typer.new) result
        (prefixed is_evaluated form line (operand_of operand) (state_of typer.old)) }
{
    match form {
        PrefixForm::Address => {
            let value = operators::addressed(typer, is_evaluated, line, operand)?;
            Ok(Operand::Value(value))
        }
        PrefixForm::Step(_) => operators::stepped_by(typer, form, Fixity::Prefix, line, operand),
        _ => {
            let value = operators::value(typer, operand)?;
            operators::unary_value(typer, form, line, value)
        }
    }
}

/// `.` or `->` and the name of a member behind an operand.
pub fn accessed<'a>(
    typer: &mut Typer<'a>,
    punctuator: Punctuator,
    line: Line,
    name: &[u8],
    operand: Operand,
) -> Result<Operand, Refusal>
    ensures { Types operand_of (state_of typer.new) result
        (accessed punctuator line name.now (operand_of operand) (state_of typer.old)) }
{
    match punctuator {
        Punctuator::Dot => operators::dotted(typer, line, name, operand),
        Punctuator::Arrow => {
            let value = operators::value(typer, operand)?;
            operators::arrowed(typer, line, name, value)
        }
        _ => refused(operand, Rule::Operands, line),
    }
}

/// `sizeof` of a type.
pub fn sized<'a>(typer: &Typer<'a>, line: Line, words: &[TypeWord]) -> Result<Operand, Refusal>
    ensures { Gives operand_of result (sized line words.now (state_of typer.now)) }
{
    let value = size_of(typer.alloc, typer.extents(), line, words)?;
    Ok(Operand::Value(value))
}

/// A cast of a value to a type.
pub fn cast_to<'a>(
    typer: &Typer<'a>,
    line: Line,
    words: &[TypeWord],
    value: TypedValue,
) -> Result<Operand, Refusal>
    ensures { Gives operand_of result (cast_to line words.now (value_of value) (state_of typer.now)) }
{
    let value = cast(typer.alloc, typer.extents(), line, words, value)?;
    Ok(Operand::Value(value))
}

/// `?:` of three values.
pub fn chosen<'a>(
    typer: &Typer<'a>,
    line: Line,
    condition: TypedValue,
    first: TypedValue,
    second: TypedValue,
) -> Result<Operand, Refusal>
    ensures { Gives operand_of result (chosen line (value_of condition) (value_of first) (value_of second)
        (state_of typer.now)) }
{
    let value = conditional(typer.alloc, typer.extents(), line, condition, first, second)?;
    Ok(Operand::Value(value))
}

/// The name that an expression is, if it is one alone.
pub fn plain_name<'t, 'a>(expression: &'t Expression<'a>) -> Option<&'t Spelled<'a>>
    ensures { option_copied result ≡ plain_name (view.expression_of expression.now) }
{
    match expression {
        Expression::Identifier(name) => Some(name),
        _ => None,
    }
}

/// The bytes of the string literals that an expression is, if it is nothing else.
pub fn literal_alone<'a>(
    alloc: Global,
    expression: &Expression<'a>,
) -> Result<Option<Vec<u8>>, AllocError>
    ensures { IfOk result (λ bytes. option_map (λ b. b.items) bytes
        ≡ option_map spelled_bytes (literal_alone (view.expression_of expression.now))) }
{
    match expression {
        Expression::Strings(first, more) => {
            let bytes = bytes_of(alloc, first, more.as_slice())?;
            Ok(Some(bytes))
        }
        _ => Ok(None),
    }
}

/// Whether `printf` is called.
pub fn is_printf(called: &Called) -> bool
    ensures { result ≡ is_printf (called_of called.now) }
{
    matches!(called, Called::Printf)
}

/// What a tag stands for, by `Environment::tagged`.
pub fn tagged_as<'a>(
    typer: &mut Typer<'a>,
    is_alone: bool,
    kind: TagKind,
    name: &'a [u8],
    line: Line,
) -> Result<Tag, Refusal>
    ensures { Types (λ t. t) (state_of typer.new) result
        (tagged_as is_alone kind name.now line (state_of typer.old)) }
{
    typer
        .environment
        .tagged(typer.alloc, is_alone, kind, name, line)
}

/// Begins the list of members or enumerators of a tag, by `Environment::begin`.
pub fn begun_as<'a>(
    typer: &mut Typer<'a>,
    kind: TagKind,
    name: Option<&'a [u8]>,
    line: Line,
) -> Result<Tag, Refusal>
    ensures { Types (λ t. t) (state_of typer.new) result
        (begun_as kind (option_copied name.entry) line (state_of typer.old)) }
{
    typer.environment.begin(typer.alloc, kind, name, line)
}

/// An enumerator, by `Environment::enumerate`, and the value of the next one that has none of its own.
pub fn enumerated_as<'a>(
    typer: &mut Typer<'a>,
    name: &'a [u8],
    line: Line,
    value: Option<u64>,
) -> Result<Option<u64>, Refusal>
    ensures { Types (λ next. next) (state_of typer.new) result
        (enumerated_as name.now line value (state_of typer.old)) }
{
    typer.environment.enumerate(name, line, value)?;
    Ok(next_value(value))
}

/// The arguments of a `printf`.
#[derive(Drop)]
pub struct Printing {
    /// The first, if there is one.
    pub format: Option<Format>,
    /// The values of those behind it.
    pub values: Vec<TypedValue>,
}

/// What specifiers say with the type of a tag.
pub fn with_tag(alloc: Global, before: Gathered, tag: Tag) -> Result<Gathered, AllocError>
    ensures { IfOk result (λ g. gathered_of g ≡ with_named (tag_type tag) (gathered_of before)) }
{
    let (before, c_type) = beside(before, tag_type(alloc, tag))?;
    Ok(before.with_named(c_type))
}
