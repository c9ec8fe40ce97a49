//! The typing of statements and blocks (C99 6.8), exact against `c_unit_typing/specs/Statements.antt`.

pub mod allocated;
pub mod around;
pub mod building;
pub mod controlling;
pub mod heads;
pub mod labels;
pub mod leaving;
pub mod lists;
pub mod repeating;
pub mod statement;
