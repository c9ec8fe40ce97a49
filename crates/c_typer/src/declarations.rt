//! The typing of declarations in blocks and files (C99 6.7, 6.8.5.3, 6.9.2), exact against
//! `c_unit_typing/specs/Declarations.antt`.

pub mod declarators;
pub mod lists;
pub mod naming;
pub mod objects;
pub mod sizing;
pub mod specifying;
