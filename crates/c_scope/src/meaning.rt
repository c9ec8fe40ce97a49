//! What names and tags stand for (C99 6.2.2, 6.2.3).

ghost use Rattle.std.specs.Prelude.{◌≡◌, IfOk};

use crate::names::Duplicate;
use c_tree::{CType, Member, Routine};
use std::alloc::{AllocError, Global};

/// A function of the library (C99 7.19 to 7.21).
#[derive(Clone, Copy)]
pub enum LibraryFunction {
    /// One that is called with values of fixed types.
    Routine(Routine),
    /// `printf`, whose arguments follow its format (7.19.6.3).
    Printf,
}

/// What a name designates that is no type and no constant.
#[derive(Clone, Copy)]
pub enum Designated {
    /// An object with linkage, by its number among the static objects of the program (6.2.2).
    Object(usize),
    /// A function of the source, by its number among those that the source defines; where it defines none of this name,
    /// their count.
    Function(usize),
    /// A function of the library.
    Library(LibraryFunction),
    /// A static variable of a block, by its number among the static objects. It has no linkage (6.2.2 paragraph 6).
    Static(usize),
    /// A parameter or an automatic variable, by its number in its function.
    Variable(usize),
}

/// What an ordinary identifier stands for (6.2.3).
#[derive(Drop)]
pub enum Meaning {
    /// A type, as a typedef name (6.7.7).
    Typedef(CType),
    /// An enumeration constant, whose type is int, by its word (6.7.2.2).
    Constant(u64),
    /// An object or a function, with the type that its declarations here have given it.
    Named(Designated, CType),
}

/// What a tag stands for, by the number of its declaration (6.7.2.3).
#[derive(Clone, Copy, PartialEq, Eq)]
pub enum Tag {
    /// A structure, by its number among structures and unions.
    Structure(usize),
    /// A union, by its number among structures and unions.
    Union(usize),
    /// An enumeration.
    Enumeration(usize),
}

/// The storage-class specifier of a declaration (6.7.1).
#[derive(Clone, Copy)]
pub enum Storage {
    /// None.
    Absent,
    /// `typedef`
    Typedef,
    /// `extern`
    Extern,
    /// `static`
    Static,
    /// `auto`
    Auto,
    /// `register`
    Register,
}

/// An object or function that has linkage, and so is one throughout the source (6.2.2), as its declarations so far say.
#[derive(Drop)]
pub struct Entity {
    /// What it is.
    pub what: Designated,
    /// The composite of the types of its declarations (6.2.7).
    pub c_type: CType,
    /// Whether it has a body or an initializer.
    pub is_defined: bool,
    /// Whether it is declared without `extern` and without an initializer at file scope (6.9.2 paragraph 2).
    pub is_tentative: bool,
}

// A copy of a type.
fn same_type(alloc: Global, c_type: &CType) -> Result<CType, AllocError>
    ensures { IfOk result (λ same. same ≡ c_type.now) }
{
    let words = c_type.words().to_vec(alloc)?;
    Ok(CType::new(words))
}

impl Duplicate for Meaning {
    fn duplicate(&self, alloc: Global) -> Result<Meaning, AllocError> {
        match self {
            Meaning::Typedef(c_type) => {
                let c_type = same_type(alloc, c_type)?;
                Ok(Meaning::Typedef(c_type))
            }
            Meaning::Constant(word) => Ok(Meaning::Constant(*word)),
            Meaning::Named(what, c_type) => {
                let c_type = same_type(alloc, c_type)?;
                Ok(Meaning::Named(*what, c_type))
            }
        }
    }
}

impl Duplicate for Tag {
    fn duplicate(&self, _: Global) -> Result<Tag, AllocError> {
        Ok(*self)
    }
}

impl Duplicate for Entity {
    fn duplicate(&self, alloc: Global) -> Result<Entity, AllocError> {
        let c_type = same_type(alloc, &self.c_type)?;
        Ok(Entity {
            what: self.what,
            c_type,
            is_defined: self.is_defined,
            is_tentative: self.is_tentative,
        })
    }
}

impl Duplicate for Member {
    fn duplicate(&self, alloc: Global) -> Result<Member, AllocError> {
        let c_type = same_type(alloc, &self.c_type)?;
        Ok(Member {
            c_type,
            offset: self.offset,
            size: self.size,
        })
    }
}
