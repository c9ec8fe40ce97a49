//! The headers that are built in.

/// A header.
#[derive(Clone, Copy, Debug, PartialEq, Eq)]
pub enum Header {
    /// `<stdio.h>` (C99 7.19).
    Stdio,
    /// `<stdlib.h>` (7.20).
    Stdlib,
    /// `<string.h>` (7.21).
    String,
    /// `<stddef.h>` (7.17).
    Stddef,
    /// `<limits.h>` (5.2.4.2.1, 7.10).
    Limits,
}

impl Header {
    ghost use Rattle.std.specs.Prelude.{◌≡◌, ◌≤◌, length};
    ghost use Rattle.c_pre.specs.Directives.{header_named};
    ghost use Rattle.c_pre.specs.Headers.{header_text};

    /// The header `<NAME.h>`, by its name.
    pub fn named(name: &[u8]) -> Option<Self>
        ensures { result ≡ header_named name.now }
    {
        if name == b"stdio".as_slice() {
            Some(Header::Stdio)
        } else if name == b"stdlib".as_slice() {
            Some(Header::Stdlib)
        } else if name == b"string".as_slice() {
            Some(Header::String)
        } else if name == b"stddef".as_slice() {
            Some(Header::Stddef)
        } else if name == b"limits".as_slice() {
            Some(Header::Limits)
        } else {
            None
        }
    }

    /// Its text: a line `#define` for each of its macros.
    #[tactic(auto, unfolding(crate::specs::Headers::header_text))]
    pub fn text(self) -> &'static [u8]
        ensures value { result.now ≡ header_text self }
        ensures short { length result.now ≤ 1048576 }
    {
        match self {
            Header::Stdio => STDIO_TEXT,
            Header::Stdlib => STDLIB_TEXT,
            Header::String => STRING_TEXT,
            Header::Stddef => STDDEF_TEXT,
            Header::Limits => LIMITS_TEXT,
        }
    }
}

/// The macros of `<stdio.h>`.
const STDIO_TEXT: &[u8] = b"\
    #define NULL ((void*)0)\n\
    #define EOF (-1)\n";

/// The macros of `<stdlib.h>`.
const STDLIB_TEXT: &[u8] = b"\
    #define NULL ((void*)0)\n\
    #define EXIT_SUCCESS 0\n\
    #define EXIT_FAILURE 1\n";

/// The macros of `<string.h>`.
const STRING_TEXT: &[u8] = b"\
    #define NULL ((void*)0)\n";

/// The macros of `<stddef.h>`.
const STDDEF_TEXT: &[u8] = b"\
    #define NULL ((void*)0)\n";

/// The macros of `<limits.h>`.
const LIMITS_TEXT: &[u8] = b"\
    #define CHAR_BIT 8\n\
    #define SCHAR_MIN (-128)\n\
    #define SCHAR_MAX 127\n\
    #define UCHAR_MAX 255\n\
    #define CHAR_MIN 0\n\
    #define CHAR_MAX 255\n\
    #define SHRT_MIN (-32767-1)\n\
    #define SHRT_MAX 32767\n\
    #define USHRT_MAX 65535\n\
    #define INT_MIN (-2147483647-1)\n\
    #define INT_MAX 2147483647\n\
    #define UINT_MAX 4294967295U\n\
    #define LONG_MIN (-9223372036854775807L-1)\n\
    #define LONG_MAX 9223372036854775807L\n\
    #define ULONG_MAX 18446744073709551615UL\n\
    #define LLONG_MIN (-9223372036854775807LL-1)\n\
    #define LLONG_MAX 9223372036854775807LL\n\
    #define ULLONG_MAX 18446744073709551615ULL\n";
