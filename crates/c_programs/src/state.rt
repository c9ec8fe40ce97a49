//! What the typing of a file carries from token to token, beside what expressions and declarators need.

use c_scope::environment::Environment;
use c_tree::{CType, Part, Statement, StaticObject, Variable};
use c_typing_state::Typer;
use sb_base::Line;
use std::alloc::{AllocError, Global};
use tree_containers::Items;

/// A function that is defined (C99 6.9.1).
#[derive(Drop)]
pub struct Definition {
    /// The line of its name.
    pub line: Line,
    /// Its type.
    pub c_type: CType,
    /// Its parameters, which have the first numbers of its variables.
    pub parameters: Items<Variable>,
    /// Its automatic variables in order of declaration, which have the next numbers.
    pub variables: Items<Variable>,
    /// The statements and declarations of its block.
    pub body: Items<Statement>,
}

/// A static object without linkage (C99 6.2.2 paragraph 6).
#[derive(Drop)]
pub struct LocalStatic {
    /// Its number among the static objects.
    pub number: usize,
    /// What it holds and its initializer.
    pub object: StaticObject,
}

/// The initializer of an object with linkage (C99 6.7.8).
#[derive(Drop)]
pub struct LinkedInitializer {
    /// The number of the object among the static objects.
    pub number: usize,
    /// Its parts.
    pub parts: Items<Part>,
}

/// The typing of a file (C99 6.9).
#[derive(Drop)]
pub struct FileTyper<'a> {
    /// What expressions and declarators are typed in.
    pub typer: Typer<'a>,
    /// The automatic variables of the function so far, its parameters aside.
    pub variables: Vec<Variable>,
    /// The static objects without linkage.
    pub statics: Vec<LocalStatic>,
    /// The initializers of objects with linkage.
    pub initializers: Vec<LinkedInitializer>,
    /// The functions that are defined, in order.
    pub definitions: Vec<Definition>,
    /// For each of them by number, which variables are objects since the text takes their addresses, where that is
    /// known.
    pub objects: Option<Items<Items<bool>>>,
    /// For each of them by number, of which variables the text takes the addresses.
    pub taken: Vec<Items<bool>>,
}

impl<'a> FileTyper<'a> {
    ghost use Rattle.std.specs.Prelude.{◌≡◌, OnOk, [], None};
    ghost use Rattle.c_scope.specs.Environment.{environment_of};
    ghost use Rattle.c_typing_state.specs.State.{extents, state_of};
    ghost use Rattle.c_unit_typing.specs.Constructs.{scope_closed, scope_opened};
    ghost use Rattle.c_programs.specs.FileState.{at_start, file_of};

    /// At the start of a file, in an environment that declares what stands for names there.
    pub fn new(
        alloc: Global,
        environment: Environment<'a>,
        objects: Option<Items<Items<bool>>>,
    ) -> Self
        ensures { file_of result ≡ at_start (environment_of environment.entry) objects }
    {
        FileTyper {
            typer: Typer::new(alloc, environment, None),
            variables: Vec::new(alloc),
            statics: Vec::new(alloc),
            initializers: Vec::new(alloc),
            definitions: Vec::new(alloc),
            objects,
            taken: Vec::new(alloc),
        }
    }

    /// Opens a scope (C99 6.2.1 paragraph 4).
    pub fn open_scope(&mut self) -> Result<(), AllocError>
        ensures { OnOk result (file_of self.new ≡ scope_opened (file_of self.old)) }
    {
        let alloc = self.typer.alloc;
        self.typer.environment.open(alloc)
    }

    /// Closes the innermost scope.
    pub fn close_scope(&mut self)
        ensures { file_of self.new ≡ scope_closed (file_of self.old) }
    {
        self.typer.environment.close();
    }
}
