//! A tree that is made by hand: its words, and whether it is well formed.

use anyhow::Result;
use c_lexer::{Keyword, Spelling};
use c_syntax::{
    Boxed, Declaration, Declarator, External, InitDeclarator, InitDeclarators, Items, Position,
    Specifier, Spelled, Unit,
};
use c_syntax_checks::{well_formed, words};
use sb_base::Line;
use std::alloc::{AllocError, Global};

fn position(at: u64) -> Position {
    Position {
        at,
        line: Line::first(),
    }
}

fn named(
    alloc: Global,
    name: &'static [u8],
    at: u64,
) -> Result<InitDeclarator<'static>, AllocError> {
    let declarator = Declarator::Named(Spelled {
        spelling: Spelling::new(name),
        position: position(at),
    });
    Ok(InitDeclarator {
        declarator: Boxed::new(alloc, declarator)?,
        initializer: None,
    })
}

// What is read keeps what stands before it.
fn beside<T: Drop, U>(first: T, second: Result<U, AllocError>) -> Result<(T, U), AllocError> {
    match second {
        Ok(second) => Ok((first, second)),
        Err(error) => Err(error),
    }
}

fn only<T: Drop>(alloc: Global, item: T) -> Result<Items<T>, AllocError> {
    let mut items = Vec::new(alloc);
    items.push(item)?;
    Ok(Items::from_vec(items))
}

fn boxed<T: Drop>(alloc: Global, value: T) -> Result<Boxed<T>, AllocError> {
    Boxed::new(alloc, value)
}

// `x, y`
fn declarators(alloc: Global) -> Result<Boxed<InitDeclarators<'static>>, AllocError> {
    let first = named(alloc, b"x", 1)?;
    let (first, second) = beside(first, named(alloc, b"y", 3))?;
    let (first, others) = beside(first, only(alloc, (position(2), second)))?;
    boxed(alloc, InitDeclarators { first, others })
}

// `int x, y;`
fn two_objects(alloc: Global) -> Result<Unit<'static>, AllocError> {
    let specifiers = only(alloc, Specifier::Keyword(Keyword::Int, position(0)))?;
    let (specifiers, declarators) = beside(specifiers, declarators(alloc))?;
    let declaration = Declaration {
        specifiers,
        declarators: Some(declarators),
        semicolon: position(4),
    };
    let externals = only(alloc, External::Declaration(declaration))?;
    Ok(Unit { externals })
}

fn put_tree(rt: &HostRuntime, unit: &Unit) -> Result<()> {
    for word in words(rt.alloc(), unit)?.iter() {
        let spelling = str::from_utf8(word.kind.spelling())?;
        let Position { at, line } = word.position;
        println!(rt; "{at} line {} {spelling}", line.number())?;
    }
    let is_well_formed = well_formed(rt.alloc(), unit)?;
    println!(rt;
        "{}",
        if is_well_formed {
            "well formed"
        } else {
            "not well formed"
        }
    )?;
    Ok(())
}

/// Prints each word of the tree of `int x, y;` with its number and line, and whether the tree is well formed.
pub fn put(rt: &HostRuntime) -> Result<()> {
    match two_objects(rt.alloc()) {
        Ok(unit) => put_tree(rt, &unit),
        Err(error) => Err(error.into()),
    }
}
