//! The names of the routines of the library (C99 7.19 to 7.21).

ghost use Rattle.std.specs.Prelude.{◌≡◌};
ghost use Rattle.c_scope.specs.Library.{name_of};

use c_tree::Routine;

/// The routines, in the order in which they are declared.
pub const ROUTINES: [Routine; 19] = [
    Routine::Malloc,
    Routine::Calloc,
    Routine::Free,
    Routine::Realloc,
    Routine::Memcpy,
    Routine::Memmove,
    Routine::Memset,
    Routine::Memcmp,
    Routine::Strlen,
    Routine::Strcmp,
    Routine::Strcpy,
    Routine::Strncpy,
    Routine::Strcat,
    Routine::Strchr,
    Routine::Putchar,
    Routine::Getchar,
    Routine::Puts,
    Routine::Exit,
    Routine::Abort,
];

/// The name of a routine.
pub fn name(routine: Routine) -> &'static [u8]
    ensures { result.now ≡ name_of routine }
{
    match routine {
        Routine::Malloc => b"malloc",
        Routine::Calloc => b"calloc",
        Routine::Free => b"free",
        Routine::Realloc => b"realloc",
        Routine::Memcpy => b"memcpy",
        Routine::Memmove => b"memmove",
        Routine::Memset => b"memset",
        Routine::Memcmp => b"memcmp",
        Routine::Strlen => b"strlen",
        Routine::Strcmp => b"strcmp",
        Routine::Strcpy => b"strcpy",
        Routine::Strncpy => b"strncpy",
        Routine::Strcat => b"strcat",
        Routine::Strchr => b"strchr",
        Routine::Putchar => b"putchar",
        Routine::Getchar => b"getchar",
        Routine::Puts => b"puts",
        Routine::Exit => b"exit",
        Routine::Abort => b"abort",
    }
}
