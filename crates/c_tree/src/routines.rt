//! The types of the routines of the library (C99 7.19, 7.20, 7.21).

ghost use Rattle.std.specs.Prelude.{◌≡◌};
ghost use Rattle.c_tree.specs.Routines.{routine_words};

use crate::c_type::TypeWord;
use crate::expression::Routine;
use obj_memory::IntType;

const MALLOC: &[TypeWord] = &[
    TypeWord::Takes,
    TypeWord::Integer(IntType::UnsignedLong),
    TypeWord::Gives,
    TypeWord::Pointer,
    TypeWord::Void,
];

const CALLOC: &[TypeWord] = &[
    TypeWord::Takes,
    TypeWord::Integer(IntType::UnsignedLong),
    TypeWord::Takes,
    TypeWord::Integer(IntType::UnsignedLong),
    TypeWord::Gives,
    TypeWord::Pointer,
    TypeWord::Void,
];

const FREE: &[TypeWord] = &[
    TypeWord::Takes,
    TypeWord::Pointer,
    TypeWord::Void,
    TypeWord::Gives,
    TypeWord::Void,
];

const REALLOC: &[TypeWord] = &[
    TypeWord::Takes,
    TypeWord::Pointer,
    TypeWord::Void,
    TypeWord::Takes,
    TypeWord::Integer(IntType::UnsignedLong),
    TypeWord::Gives,
    TypeWord::Pointer,
    TypeWord::Void,
];

const MEMCPY_MEMMOVE: &[TypeWord] = &[
    TypeWord::Takes,
    TypeWord::Pointer,
    TypeWord::Void,
    TypeWord::Takes,
    TypeWord::Pointer,
    TypeWord::Const,
    TypeWord::Void,
    TypeWord::Takes,
    TypeWord::Integer(IntType::UnsignedLong),
    TypeWord::Gives,
    TypeWord::Pointer,
    TypeWord::Void,
];

const MEMSET: &[TypeWord] = &[
    TypeWord::Takes,
    TypeWord::Pointer,
    TypeWord::Void,
    TypeWord::Takes,
    TypeWord::Integer(IntType::Int),
    TypeWord::Takes,
    TypeWord::Integer(IntType::UnsignedLong),
    TypeWord::Gives,
    TypeWord::Pointer,
    TypeWord::Void,
];

const MEMCMP: &[TypeWord] = &[
    TypeWord::Takes,
    TypeWord::Pointer,
    TypeWord::Const,
    TypeWord::Void,
    TypeWord::Takes,
    TypeWord::Pointer,
    TypeWord::Const,
    TypeWord::Void,
    TypeWord::Takes,
    TypeWord::Integer(IntType::UnsignedLong),
    TypeWord::Gives,
    TypeWord::Integer(IntType::Int),
];

const STRLEN: &[TypeWord] = &[
    TypeWord::Takes,
    TypeWord::Pointer,
    TypeWord::Const,
    TypeWord::Integer(IntType::Char),
    TypeWord::Gives,
    TypeWord::Integer(IntType::UnsignedLong),
];

const STRCMP: &[TypeWord] = &[
    TypeWord::Takes,
    TypeWord::Pointer,
    TypeWord::Const,
    TypeWord::Integer(IntType::Char),
    TypeWord::Takes,
    TypeWord::Pointer,
    TypeWord::Const,
    TypeWord::Integer(IntType::Char),
    TypeWord::Gives,
    TypeWord::Integer(IntType::Int),
];

const STRCPY_STRCAT: &[TypeWord] = &[
    TypeWord::Takes,
    TypeWord::Pointer,
    TypeWord::Integer(IntType::Char),
    TypeWord::Takes,
    TypeWord::Pointer,
    TypeWord::Const,
    TypeWord::Integer(IntType::Char),
    TypeWord::Gives,
    TypeWord::Pointer,
    TypeWord::Integer(IntType::Char),
];

const STRNCPY: &[TypeWord] = &[
    TypeWord::Takes,
    TypeWord::Pointer,
    TypeWord::Integer(IntType::Char),
    TypeWord::Takes,
    TypeWord::Pointer,
    TypeWord::Const,
    TypeWord::Integer(IntType::Char),
    TypeWord::Takes,
    TypeWord::Integer(IntType::UnsignedLong),
    TypeWord::Gives,
    TypeWord::Pointer,
    TypeWord::Integer(IntType::Char),
];

const STRCHR: &[TypeWord] = &[
    TypeWord::Takes,
    TypeWord::Pointer,
    TypeWord::Const,
    TypeWord::Integer(IntType::Char),
    TypeWord::Takes,
    TypeWord::Integer(IntType::Int),
    TypeWord::Gives,
    TypeWord::Pointer,
    TypeWord::Integer(IntType::Char),
];

const PUTCHAR: &[TypeWord] = &[
    TypeWord::Takes,
    TypeWord::Integer(IntType::Int),
    TypeWord::Gives,
    TypeWord::Integer(IntType::Int),
];

const GETCHAR: &[TypeWord] = &[TypeWord::Gives, TypeWord::Integer(IntType::Int)];

const PUTS: &[TypeWord] = &[
    TypeWord::Takes,
    TypeWord::Pointer,
    TypeWord::Const,
    TypeWord::Integer(IntType::Char),
    TypeWord::Gives,
    TypeWord::Integer(IntType::Int),
];

const EXIT: &[TypeWord] = &[
    TypeWord::Takes,
    TypeWord::Integer(IntType::Int),
    TypeWord::Gives,
    TypeWord::Void,
];

const ABORT: &[TypeWord] = &[TypeWord::Gives, TypeWord::Void];

/// The words of the type of a routine, `printf` apart.
#[tactic(auto, unfolding(crate::specs::Routines::routine_words))]
pub fn routine_type(routine: Routine) -> &'static [TypeWord]
    ensures { result.now ≡ routine_words routine }
{
    match routine {
        Routine::Malloc => MALLOC,
        Routine::Calloc => CALLOC,
        Routine::Free => FREE,
        Routine::Realloc => REALLOC,
        Routine::Memcpy | Routine::Memmove => MEMCPY_MEMMOVE,
        Routine::Memset => MEMSET,
        Routine::Memcmp => MEMCMP,
        Routine::Strlen => STRLEN,
        Routine::Strcmp => STRCMP,
        Routine::Strcpy | Routine::Strcat => STRCPY_STRCAT,
        Routine::Strncpy => STRNCPY,
        Routine::Strchr => STRCHR,
        Routine::Putchar => PUTCHAR,
        Routine::Getchar => GETCHAR,
        Routine::Puts => PUTS,
        Routine::Exit => EXIT,
        Routine::Abort => ABORT,
    }
}
