//! Offsets, sizes and alignments.

use crate::row::integer_type;
use anyhow::Result;
use c_tree::{CType, Extent, TypeWord, array_size, member_offsets, structure_of, union_of};
use obj_memory::IntType;
use std::alloc::{AllocError, Global};

/// Prints an extent, or `none`.
pub fn put(rt: &HostRuntime, extent: Option<Extent>) -> Result<()> {
    match extent {
        Some(extent) => println!(rt; "size {} alignment {}", extent.size(), extent.alignment())?,
        None => println!(rt; "none")?,
    }
    Ok(())
}

// The members of a row: integer types, `pointer`, `pair` for `struct { char c; int i; }`, and numbers for arrays of so
// many `char`.
fn members_of(alloc: Global, given: &str) -> Result<Vec<Extent>> {
    let mut members = Vec::new(alloc);
    for word in given.split(' ') {
        members.push(member(word)?)?;
    }
    Ok(members)
}

fn member(word: &str) -> Result<Extent> {
    if word == "pointer" {
        return Ok(Extent::of_pointer());
    }
    if word == "pair" {
        return Ok(pair());
    }
    match word.parse() {
        Ok(count) => Ok(char_array(count)),
        Err(_) => Ok(Extent::of_integer(integer_type(Some(word))?)),
    }
}

fn pair() -> Extent {
    structure_of(&[
        Extent::of_integer(IntType::Char),
        Extent::of_integer(IntType::Int),
    ])
}

fn char_array(count: u64) -> Extent {
    Extent::of_array(array_size(count, 1), Extent::of_integer(IntType::Char))
}

/// `MEMBERS`: prints the offset of each member of a structure, and its extent.
pub fn put_structure(rt: &HostRuntime, given: &str) -> Result<()> {
    let members = members_of(rt.alloc(), given)?;
    let offsets = member_offsets(rt.alloc(), &members)?;
    print!(rt; "{:?} ", offsets.as_slice())?;
    put(rt, Some(structure_of(&members)))
}

/// `MEMBERS`: prints the extent of a union.
pub fn put_union(rt: &HostRuntime, given: &str) -> Result<()> {
    let members = members_of(rt.alloc(), given)?;
    put(rt, Some(union_of(&members)))
}

// const int *[2]
fn two_pointers(alloc: Global) -> Result<CType, AllocError> {
    let words = vec![in alloc;
        TypeWord::array(2, Extent::of_pointer()),
        TypeWord::Pointer,
        TypeWord::Const,
        TypeWord::Integer(IntType::Int),
    ]?;
    Ok(CType::new(words))
}

/// Prints the extent of an array of two pointers.
pub fn put_pointers(rt: &HostRuntime) -> Result<()> {
    let pointers = two_pointers(rt.alloc())?;
    put(rt, Extent::of_type(&[], pointers.words()))
}

/// The extent of a structure that is not complete.
pub fn incomplete() -> Option<Extent> {
    Extent::of_type(&[None], &[TypeWord::Structure(0)])
}

/// Prints whether a type is the type that it is.
pub fn put_same(rt: &HostRuntime) -> Result<()> {
    let pointers = two_pointers(rt.alloc())?;
    println!(rt; "{}", pointers.is(&pointers))?;
    Ok(())
}
