//! What typing carries from token to token.

ghost use Rattle.std.specs.Prelude.{◌≡◌, IfOk, map, option_map};
ghost use Rattle.c_typing_state.specs.State.{literal_of};

use c_scope::environment::Environment;
use c_tree::{CType, Extent};
use sb_base::Line;
use std::alloc::{AllocError, Global};

/// A string literal that is an object (C99 6.4.5 paragraph 5).
#[derive(Drop)]
pub struct Literal {
    /// Its number among the static objects.
    pub number: usize,
    /// The number of the function in whose block it stands, if it stands in one.
    pub function: Option<usize>,
    /// Its bytes with the final 0.
    pub bytes: Vec<u8>,
}

impl Literal {
    ghost use Rattle.std.specs.Prelude.{◌≡◌, IfOk};
    ghost use Rattle.c_typing_state.specs.State.{literal_of};

    // A copy.
    fn copy(&self, alloc: Global) -> Result<Self, AllocError>
        ensures { IfOk result (λ same. literal_of same ≡ literal_of self.now) }
    {
        let bytes = self.bytes.to_vec(alloc)?;
        Ok(Literal {
            number: self.number,
            function: self.function,
            bytes,
        })
    }
}

// Copies of literals.
fn same_literals(alloc: Global, literals: &[Literal]) -> Result<Vec<Literal>, AllocError>
    ensures { IfOk result (λ same. map literal_of same.items ≡ map literal_of literals.now) }
{
    let mut same = Vec::new(alloc);
    for literal in literals {
        same.push(literal.copy(alloc)?)?;
    }
    Ok(same)
}

// Copies of types.
fn same_types(alloc: Global, types: &[CType]) -> Result<Vec<CType>, AllocError>
    ensures { IfOk result (λ same. same.items ≡ types.now) }
{
    let mut same = Vec::new(alloc);
    for c_type in types {
        let words = c_type.words().to_vec(alloc)?;
        same.push(CType::new(words))?;
    }
    Ok(same)
}

// A copy of marks, where there are some.
fn same_marks(alloc: Global, marks: &Option<Vec<bool>>) -> Result<Option<Vec<bool>>, AllocError>
    ensures { IfOk result (λ same. option_map (λ v. v.items) same ≡ option_map (λ v. v.items) marks.now) }
{
    match marks {
        None => Ok(None),
        Some(marks) => {
            let same = marks.to_vec(alloc)?;
            Ok(Some(same))
        }
    }
}

/// The typing of a source.
#[derive(Drop)]
pub struct Typer<'a> {
    pub alloc: Global,
    /// What stands for names.
    pub environment: Environment<'a>,
    /// The types of functions through pointers to which there are calls, all different.
    pub function_types: Vec<CType>,
    /// By number, which variables of the function are objects since the text takes their addresses, where that is
    /// known.
    pub objects: Option<Vec<bool>>,
    /// By number, of which variables of the function the text took the addresses so far.
    pub taken: Vec<bool>,
    /// The line of the first use of a function that the file does not define.
    pub undefined: Option<Line>,
    /// The string literals that are objects.
    pub literals: Vec<Literal>,
    /// The number of the function whose block is typed.
    pub function: Option<usize>,
}

impl<'a> Typer<'a> {
    ghost use Rattle.std.specs.Prelude.{◌≡◌, [], IfOk, None, option_map};
    ghost use Rattle.c_scope.specs.Environment.{environment_of};
    ghost use Rattle.c_typing_state.specs.State.{extents, state_of, with_const};

    /// At the start of a file.
    pub fn new(alloc: Global, environment: Environment<'a>, objects: Option<Vec<bool>>) -> Self
        ensures { state_of result ≡ record {
          environment = environment_of environment.entry;
          function_types = [];
          objects = option_map (λ v. v.items) objects;
          taken = [];
          undefined = None;
          literals = [];
          function = None;
        } }
    {
        Typer {
            alloc,
            environment,
            function_types: Vec::new(alloc),
            objects,
            taken: Vec::new(alloc),
            undefined: None,
            literals: Vec::new(alloc),
            function: None,
        }
    }

    /// A copy.
    pub fn copy(&self) -> Result<Self, AllocError>
        ensures { IfOk result (λ same. state_of same ≡ state_of self.now) }
    {
        let alloc = self.alloc;
        let environment = self.environment.copy(alloc)?;
        let function_types = same_types(alloc, &self.function_types)?;
        let objects = same_marks(alloc, &self.objects)?;
        let taken = self.taken.to_vec(alloc)?;
        let literals = same_literals(alloc, &self.literals)?;
        Ok(Typer {
            alloc,
            environment,
            function_types,
            objects,
            taken,
            undefined: self.undefined,
            literals,
            function: self.function,
        })
    }

    /// The sizes and alignments of the structures and unions so far, where they are complete.
    pub fn extents(&self) -> &[Option<Extent>]
        ensures { result.now ≡ extents (state_of self.now) }
    {
        self.environment.structures.extents()
    }

    /// Whether the structures and unions so far have a const member, also within members.
    pub fn with_const(&self) -> &[bool]
        ensures { result.now ≡ with_const (state_of self.now) }
    {
        self.environment.structures.with_const()
    }
}
