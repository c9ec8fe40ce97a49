//! Operators, conversions, layouts, the judgement of accesses, constant expressions and the contents of static objects,
//! with values that another compiler gives. Each line of standard input is a row, whose first word says what is asked,
//! and for which the program prints one line. Words and sizes are in hexadecimal digits.
//! - `fit TYPE WORD`: the word converted to the type.
//! - `common TYPE TYPE`: the type of a sum of both.
//! - `unary OPERATOR TYPE WORD`, `binary OPERATOR TYPE WORD WORD`: the value of an operator, or `none`.
//! - `type TYPE`, `pointer`: what is known of a type, and the size of a pointer.
//! - `structure MEMBERS`, `union MEMBERS`, `pointers`, `incomplete`, `same`: extents of types (`layouts.rt`).
//! - `object ADDRESS SIZE`, `judge SIZE POINTER LIFE`, `named POINTER`: objects, and what is said of an access
//!   (`accesses.rt`).
//! - `value STEPS`: the value of an integer constant expression, which these steps build, operands first, or `none`
//!   (`constants.rt`).
//! - `static KIND SIZE PARTS`: the bytes of a static object and the tags of its words, or the line of its first
//!   expression that is not constant (`statics.rt`).
//!
//! `stdin` and `stdout` are made by `vectors.py` beside them, from tables that gcc 12.2.0 (Debian) gave or that were
//! worked out by hand, as is said there.
#![tactic(auto)]

mod accesses;
mod constants;
mod layouts;
mod operators;
mod parts;
mod row;
mod statics;

use crate::row::{ASKED, Asked, found};
use anyhow::Result;
use std::io::{BufRead, BufReader};

fn main(rt: HostRuntime) -> Result<()> {
    for line in BufReader::new(rt.alloc(), rt.reader())?.lines(rt.alloc()) {
        let line = line?;
        put_row(&rt, line.as_str())?;
    }
    Ok(())
}

fn put_row(rt: &HostRuntime, row: &str) -> Result<()> {
    let (word, given) = row.split_once(" ").unwrap_or((row, ""));
    match found(&ASKED, Some(word))? {
        Asked::Fit => operators::put(rt, Some(operators::fit(given)?)),
        Asked::Common => operators::put_common(rt, given),
        Asked::Unary => operators::put(rt, Some(operators::unary(given)?)),
        Asked::Binary => operators::put(rt, operators::binary(given)?),
        Asked::Type => operators::put_type(rt, given),
        Asked::Pointer => operators::put(rt, Some(operators::pointer_size())),
        Asked::Structure => layouts::put_structure(rt, given),
        Asked::Union => layouts::put_union(rt, given),
        Asked::Pointers => layouts::put_pointers(rt),
        Asked::Incomplete => layouts::put(rt, layouts::incomplete()),
        Asked::Same => layouts::put_same(rt),
        Asked::Object => accesses::put_object(rt, given),
        Asked::Judge => accesses::put_judged(rt, given),
        Asked::Named => accesses::put_named(rt, given),
        Asked::Value => constants::put(rt, given),
        Asked::Static => statics::put(rt, given),
    }
}
