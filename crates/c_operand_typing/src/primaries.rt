//! Names, constants and string literals (C99 6.5.1).

ghost use Rattle.std.specs.Prelude.{◌≡◌, ◌++◌, IfOk, Ok, OnOk};
ghost use Rattle.c_lexer.specs.Literals.{bytes_of_literal};
ghost use Rattle.c_faults.specs.Answer.{Gives};
ghost use Rattle.c_rules.specs.Values.{value_of};
ghost use Rattle.c_place_rules.specs.Operands.{operand_of};
ghost use Rattle.c_place_rules.specs.Targets.{object_kind};
ghost use Rattle.c_tree.specs.Extents.{extent_of};
ghost use Rattle.c_tree.specs.Tree.{automatic, static};
ghost use Rattle.c_operand_typing.specs.Primaries.{character_constant, constant_value, function_named};
ghost use Rattle.c_operand_typing.specs.Primaries.{integer_constant, is_aggregate, literal_type, or_empty, place};
ghost use Rattle.c_operand_typing.specs.Primaries.{plain_variable, size_or_zero, type_of_constant, designated};
ghost use Rattle.c_operand_typing.specs.Primaries.{is_marked, is_object, literal, meant, named, used_as, variable};
ghost use Rattle.c_operand_typing.specs.Primaries.{with_literal, with_use};
ghost use Rattle.c_scope.specs.Names.{meaning};
ghost use Rattle.c_typing_state.specs.State.{Types, state_of};

use c_faults::{Fault, Refusal, Rule};
use c_lexer::{IntegerType, bytes_of_literal, character_value, constant_of};
use c_place_rules::operand::{Operand, POINTER, TypedPlace, TypedVariable};
use c_place_rules::target::object_kind;
use c_rules::TypedValue;
use c_rules::value::{integer, typed};
use c_scope::meaning::{Designated, Meaning};
use c_tree::{CType, Expression, Extent, Kind, Lvalue, LvalueNode, Node, PlainName, TypeWord};
use c_typing_state::{Literal, Typer};
use obj_memory::IntType;
use sb_base::Line;
use std::alloc::{AllocError, Global};

/// A constant of an integer type with a word.
pub fn constant_value(
    alloc: Global,
    line: Line,
    of: IntType,
    word: u64,
) -> Result<TypedValue, Refusal>
    ensures { Gives value_of result (Ok (constant_value line of word)) }
{
    let kind = integer(of);
    let node = Node::Constant(word);
    typed(alloc, of, Expression { kind, line, node })
}

/// An integer constant (6.4.4.1).
pub fn integer_constant(alloc: Global, spelling: &[u8], line: Line) -> Result<TypedValue, Refusal>
    ensures { Gives value_of result (Ok (integer_constant spelling.now line)) }
{
    match constant_of(spelling) {
        None => constant_value(alloc, line, IntType::Int, 0),
        Some(constant) => {
            let of = type_of_constant(constant.integer_type);
            constant_value(alloc, line, of, constant.value)
        }
    }
}

fn type_of_constant(of: IntegerType) -> IntType
    ensures { result ≡ type_of_constant of }
{
    match of {
        IntegerType::Int => IntType::Int,
        IntegerType::UnsignedInt => IntType::UnsignedInt,
        IntegerType::Long => IntType::Long,
        IntegerType::UnsignedLong => IntType::UnsignedLong,
        IntegerType::LongLong => IntType::LongLong,
        IntegerType::UnsignedLongLong => IntType::UnsignedLongLong,
    }
}

/// A character constant (6.4.4.4).
pub fn character_constant(alloc: Global, spelling: &[u8], line: Line) -> Result<TypedValue, Refusal>
    ensures { Gives value_of result (Ok (character_constant spelling.now line)) }
{
    let value = match character_value(spelling) {
        None => 0,
        Some(value) => value,
    };
    let word = IntType::Int.fit(u64::from(value));
    constant_value(alloc, line, IntType::Int, word)
}

/// The bytes of one string literal, without a final 0, behind others.
pub fn with_spelled_bytes(
    alloc: Global,
    before: Vec<u8>,
    spelling: &[u8],
) -> Result<Vec<u8>, AllocError>
    ensures { IfOk result (λ bytes. bytes.items ≡ before.items ++ or_empty (bytes_of_literal spelling.now)) }
{
    let mut bytes = before;
    if let Some(more) = bytes_of_literal(alloc, spelling)? {
        bytes.extend_from_slice(&more)?;
    }
    Ok(bytes)
}

/// An lvalue that is a static object of a type, of which the bytes are counted where it is complete.
pub fn static_place(
    alloc: Global,
    extents: &[Option<Extent>],
    line: Line,
    words: &[TypeWord],
    number: usize,
) -> Result<Operand, Refusal>
    ensures { Gives operand_of result (Ok (place extents.now line words.now (static number))) }
{
    let kind = kind_of_place(extents, words);
    let c_type = CType::new(words.to_vec(alloc)?);
    let node = LvalueNode::Static(number);
    let tree = Lvalue { kind, line, node };
    Ok(Operand::Place(TypedPlace { c_type, tree }))
}

// An lvalue that is an automatic object.
fn automatic_place(
    alloc: Global,
    extents: &[Option<Extent>],
    line: Line,
    words: &[TypeWord],
    number: usize,
) -> Result<Operand, Refusal>
    ensures { Gives operand_of result (Ok (place extents.now line words.now (automatic number))) }
{
    let kind = kind_of_place(extents, words);
    let c_type = CType::new(words.to_vec(alloc)?);
    let node = LvalueNode::Automatic(number);
    let tree = Lvalue { kind, line, node };
    Ok(Operand::Place(TypedPlace { c_type, tree }))
}

fn plain_variable(
    alloc: Global,
    extents: &[Option<Extent>],
    line: Line,
    words: &[TypeWord],
    variable: usize,
) -> Result<Operand, Refusal>
    ensures { Gives operand_of result (Ok (plain_variable extents.now line variable words.now)) }
{
    let kind = kind_of_place(extents, words);
    let c_type = CType::new(words.to_vec(alloc)?);
    let name = PlainName {
        variable,
        parentheses: 0,
    };
    let node = Node::Plain(variable);
    let tree = Expression { kind, line, node };
    Ok(Operand::Variable(TypedVariable { c_type, name, tree }))
}

fn function_named(
    alloc: Global,
    line: Line,
    words: &[TypeWord],
    number: usize,
) -> Result<Operand, Refusal>
    ensures { Gives operand_of result (Ok (function_named line number words.now)) }
{
    let c_type = CType::new(words.to_vec(alloc)?);
    let kind = POINTER;
    let node = Node::Function(number);
    let tree = Expression { kind, line, node };
    Ok(Operand::Function(TypedValue { c_type, tree }))
}

/// The kind of an object of a type, of which the bytes are counted where it is complete.
pub fn kind_of_place(extents: &[Option<Extent>], words: &[TypeWord]) -> Kind
    ensures { result ≡ object_kind (size_or_zero (extent_of extents.now words.now)) words.now }
{
    object_kind(size_or_zero(Extent::of_type(extents, words)), words)
}

fn size_or_zero(extent: Option<Extent>) -> u64
    ensures { result ≡ size_or_zero extent }
{
    match extent {
        None => 0,
        Some(extent) => extent.size(),
    }
}

// The type of a string literal of so many bytes.
fn literal_type(alloc: Global, size: u64) -> Result<CType, AllocError>
    ensures { IfOk result (λ c_type. c_type ≡ literal_type size) }
{
    let character = Extent::of_integer(IntType::Char);
    let words = vec![in alloc;
        TypeWord::array(size, character),
        TypeWord::Integer(IntType::Char),
    ]?;
    Ok(CType::new(words))
}

fn is_aggregate(words: &[TypeWord]) -> bool
    ensures { result ≡ is_aggregate words.now }
{
    match words {
        [
            TypeWord::Array { .. } | TypeWord::OpenArray | TypeWord::Structure(_),
            ..
        ] => true,
        [TypeWord::Const, behind @ ..] => is_aggregate(behind),
        _ => false,
    }
}

/// String literals that stand side by side, of which these are the bytes with the final 0. They are an object, but
/// for those inside `sizeof`.
pub fn literal(
    typer: &mut Typer,
    is_evaluated: bool,
    bytes: Vec<u8>,
    line: Line,
) -> Result<Operand, Refusal>
    ensures { Types operand_of (state_of typer.new) result
        (literal is_evaluated bytes.items line (state_of typer.old)) }
{
    let number = typer.environment.statics;
    let size = bytes.len() as u64;
    if is_evaluated {
        add_literal(typer, bytes)?;
    }
    let c_type = literal_type(typer.alloc, size)?;
    static_place(typer.alloc, &[], line, c_type.words(), number)
}

fn add_literal(typer: &mut Typer, bytes: Vec<u8>) -> Result<(), AllocError>
    ensures { OnOk result (state_of typer.new ≡ with_literal bytes.items (state_of typer.old)) }
{
    let number = typer.environment.statics;
    let Some(statics) = number.checked_add(1) else {
        return Err(AllocError);
    };
    typer.environment.statics = statics;
    let function = typer.function;
    typer.literals.push(Literal {
        number,
        function,
        bytes,
    })?;
    Ok(())
}

/// A name as an operand. The rule on undeclared names is violated by one that stands for nothing, that on names of
/// the library by one of those.
pub fn named(
    typer: &mut Typer,
    is_evaluated: bool,
    name: &[u8],
    line: Line,
) -> Result<Operand, Refusal>
    ensures { Types operand_of (state_of typer.new) result
        (named is_evaluated name.now line (state_of typer.old)) }
{
    let operand = meant(typer, is_evaluated, name, line)?;
    count_use(typer, is_evaluated, name, line);
    Ok(operand)
}

// What a name means as an operand.
pub(crate) fn meant(
    typer: &Typer,
    is_evaluated: bool,
    name: &[u8],
    line: Line,
) -> Result<Operand, Refusal>
    ensures { Gives operand_of result (meant is_evaluated line
        (meaning name.now (state_of typer.now).environment.names) (state_of typer.now)) }
{
    match typer.environment.names.get(name) {
        None | Some(Meaning::Typedef(_)) => {
            let rule = Rule::Undeclared;
            Err(Refusal::Fault(Fault { rule, line }))
        }
        Some(Meaning::Constant(word)) => {
            let value = constant_value(typer.alloc, line, IntType::Int, *word)?;
            Ok(Operand::Value(value))
        }
        Some(Meaning::Named(what, c_type)) => {
            designated(typer, is_evaluated, line, *what, c_type.words())
        }
    }
}

fn designated(
    typer: &Typer,
    is_evaluated: bool,
    line: Line,
    what: Designated,
    words: &[TypeWord],
) -> Result<Operand, Refusal>
    ensures { Gives operand_of result (designated is_evaluated line what words.now (state_of typer.now)) }
{
    let alloc = typer.alloc;
    match what {
        Designated::Object(number) | Designated::Static(number) => {
            static_place(alloc, typer.extents(), line, words, number)
        }
        Designated::Function(number) => function_named(alloc, line, words, number),
        Designated::Library(_) => {
            let rule = Rule::LibraryName;
            Err(Refusal::Fault(Fault { rule, line }))
        }
        Designated::Variable(number) => variable(typer, is_evaluated, line, number, words),
    }
}

fn variable(
    typer: &Typer,
    is_evaluated: bool,
    line: Line,
    number: usize,
    words: &[TypeWord],
) -> Result<Operand, Refusal>
    ensures { Gives operand_of result
        (Ok (variable is_evaluated line number words.now (state_of typer.now))) }
{
    if is_object(typer, is_evaluated, number, words) {
        automatic_place(typer.alloc, typer.extents(), line, words, number)
    } else {
        plain_variable(typer.alloc, typer.extents(), line, words, number)
    }
}

/// Whether a variable is an object: the text takes its address, or it is an array or a structure. What `sizeof`
/// does not evaluate needs no plain variables.
pub fn is_object(typer: &Typer, is_evaluated: bool, number: usize, words: &[TypeWord]) -> bool
    ensures { result ≡ is_object is_evaluated (state_of typer.now) number words.now }
{
    !is_evaluated || is_aggregate(words) || is_marked(typer, number)
}

fn is_marked(typer: &Typer, number: usize) -> bool
    ensures { result ≡ is_marked (state_of typer.now).objects number }
{
    match &typer.objects {
        None => true,
        Some(marks) => match marks.get(number) {
            Some(mark) => *mark,
            None => false,
        },
    }
}

/// A function is used where its name is evaluated.
pub fn count_use(typer: &mut Typer, is_evaluated: bool, name: &[u8], line: Line)
    ensures { state_of typer.new ≡ used_as is_evaluated line
        (meaning name.now (state_of typer.old).environment.names) (state_of typer.old) }
{
    let Some(Meaning::Named(Designated::Function(number), _)) = typer.environment.names.get(name)
    else {
        return;
    };
    if is_evaluated && *number >= typer.environment.facts.functions.len() {
        add_use(typer, line);
    }
}

fn add_use(typer: &mut Typer, line: Line)
    ensures { state_of typer.new ≡ with_use line (state_of typer.old) }
{
    if typer.undefined.is_none() {
        typer.undefined = Some(line);
    }
}
