//! Why a source has no typed program.

ghost use Rattle.std.specs.Prelude.{◌≡◌};
ghost use Rattle.c_faults.specs.declared.fault.Refusal.TheVariants.{Memory};

use sb_base::Line;
use std::alloc::AllocError;

/// A typing rule, by what violates it. At one token the first violated rule in this order is the answer.
#[derive(Clone, Copy, Debug, PartialEq, Eq)]
pub enum Rule {
    /// No `int main(void)` is defined (C99 5.1.2.2.1).
    NoMain,
    /// A function of the source is used and not defined (6.9 paragraph 5).
    UndefinedFunction,
    /// A name is not declared (6.5.1).
    Undeclared,
    /// A name is declared again in its scope with another type or use, or defined twice (6.7 paragraph 3, 6.9).
    Redeclared,
    /// A tag is used as another kind, or defined twice in a scope (6.7.2.3).
    MistakenTag,
    /// An incomplete type stands where a complete one is needed.
    Incomplete,
    /// A function results in an array or function, or an element or member is a function (6.7.5.2, 6.7.5.3).
    MisplacedFunction,
    /// An array size, enumeration value or case value is no integer constant expression, a size is below 1, or an
    /// enumeration value is outside int (6.7.2.2, 6.7.5.2, 6.8.4.2).
    NoConstant,
    /// A type has more than 2^32 bytes.
    LargeType,
    /// Two members of one structure have one name (6.7.2.1).
    RepeatedMember,
    /// `.` or `->` finds no structure, union or member (6.5.2.3).
    NoMember,
    /// `*` or `[]` has no pointer to a complete object or function type (6.5.2.1, 6.5.3.2).
    NoTarget,
    /// `&` of what is neither an lvalue nor a function (6.5.3.2).
    NoAddress,
    /// A write to what is no lvalue, or is an array or const (6.3.2.1, 6.5.16).
    NotAssignable,
    /// The operand types fit no row of the operator (6.5.2.4, 6.5.3, 6.5.5 to 6.5.15, 6.5.16.2).
    Operands,
    /// An assignment, argument, initializer or result cannot be converted (6.5.16.1).
    NoConversion,
    /// A cast is neither to void nor between integers and pointers (6.5.4).
    NoCast,
    /// A call of what is no function nor pointer to one (6.5.2.2).
    NoCallee,
    /// The number of arguments differs (6.5.2.2).
    ArgumentCount,
    /// A condition is no integer or pointer, or a switch value is no integer (6.8.4, 6.8.5).
    NoCondition,
    /// A `return` has a value in a void function, or none in another (6.8.6.4).
    MistakenReturn,
    /// `break`, `continue`, `case` or `default` out of place, equal cases, or two defaults (6.8.4.2, 6.8.6).
    MisplacedLabel,
    /// An initializer has too many items or a designator without a place (6.7.8).
    MisplacedItem,
    /// A library name is used other than as the called name.
    LibraryName,
    /// A `printf` whose format is no string literal, has another directive, or whose arguments do not fit.
    MistakenFormat,
    /// Was violated by a structure or union as a parameter or result, which are allowed: never.
    StructureValue,
    /// A storage word out of place, two of them, an initializer with `extern` or on a typedef or function, or an
    /// `extern` object without a definition (6.7.1, 6.9).
    MisplacedStorage,
    /// An array member of a structure that is no lvalue is used (6.3.2.1, 6.5.2.3).
    ArrayOfValue,
}

impl Rule {
    /// Its number, 0 to 27, as the tool's line tells it.
    pub fn number(self) -> u8 {
        self as u8
    }
}

/// A violated rule, and the line of the token at which it is.
#[derive(Clone, Copy, Debug, PartialEq, Eq)]
pub struct Fault {
    /// The rule.
    pub rule: Rule,
    /// The line of the token.
    pub line: Line,
}

/// Why a construct has no typed form.
#[derive(Clone, Copy, Debug, PartialEq, Eq)]
pub enum Refusal {
    /// There is no memory for it.
    Memory,
    /// It violates a rule.
    Fault(Fault),
}

impl From<AllocError> for Refusal {
    ghost from_gives = { λ _ e. e ≡ Memory };

    fn from(_: AllocError) -> Refusal {
        Refusal::Memory
    }
}
