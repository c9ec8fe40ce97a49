//! What stands for names at the start of a file (C99 7.17, 7.19 to 7.21).

ghost use Rattle.std.specs.Prelude.{◌≡◌, [], ◌∷◌, IfOk, OnOk};
ghost use Rattle.c_scope.specs.Environment.{environment_of, facts_of};
ghost use Rattle.c_scope.specs.Start.{empty, start, with_library, with_routine, with_routines};
ghost use Rattle.c_scope.specs.Start.{with_size_type};

use crate::environment::{Environment, Facts};
use crate::library::{ROUTINES, name};
use crate::meaning::{Designated, Entity, LibraryFunction, Meaning};
use crate::names::{Names, Scopes};
use crate::structures::Structures;
use c_tree::{CType, Routine, TypeWord, routine_type};
use obj_memory::IntType;
use std::alloc::{AllocError, Global};

impl<'a> Environment<'a> {
    ghost use Rattle.std.specs.Prelude.{◌≡◌, [], ◌∷◌, IfOk, OnOk};
    ghost use Rattle.c_scope.specs.Library.{name_of};

    /// What stands for names at the start of a file of which this is known: the library's functions and `size_t`.
    #[tactic(auto, unfolding(crate::specs::Start::start))]
    pub fn new(alloc: Global, facts: Facts<'a>) -> Result<Self, AllocError>
        ensures { IfOk result (λ environment. environment_of environment ≡ start (facts_of facts.entry)) }
    {
        let mut environment = Environment::empty(alloc, facts);
        environment.add_routines(alloc, &ROUTINES)?;
        environment.add_library(alloc, b"printf", LibraryFunction::Printf, &[])?;
        environment.add_size_type(alloc)?;
        Ok(environment)
    }

    fn empty(alloc: Global, facts: Facts<'a>) -> Self
        ensures { environment_of result ≡ empty (facts_of facts.entry) }
    {
        Environment {
            names: Scopes::new(alloc),
            tags: Scopes::new(alloc),
            structures: Structures::new(alloc),
            enumerations: Vec::new(alloc),
            entities: Names::new(alloc),
            statics: 0,
            variables: 0,
            facts,
        }
    }

    fn add_routines(&mut self, alloc: Global, routines: &[Routine]) -> Result<(), AllocError>
        ensures { OnOk result (environment_of self.new ≡ with_routines routines.now (environment_of self.old)) }
    {
        for routine in routines {
            self.add_routine(alloc, *routine)?;
        }
        Ok(())
    }

    fn add_routine(&mut self, alloc: Global, routine: Routine) -> Result<(), AllocError>
        ensures { OnOk result (environment_of self.new ≡ with_routine routine (environment_of self.old)) }
    {
        let function = LibraryFunction::Routine(routine);
        self.add_library(alloc, name(routine), function, routine_type(routine))
    }

    fn add_library(
        &mut self,
        alloc: Global,
        name: &'static [u8],
        function: LibraryFunction,
        words: &[TypeWord],
    ) -> Result<(), AllocError>
        ensures { OnOk result
            (environment_of self.new ≡ with_library name.now function words.now (environment_of self.old)) }
    {
        let what = Designated::Library(function);
        let entity = Entity {
            what,
            c_type: CType::new(words.to_vec(alloc)?),
            is_defined: true,
            is_tentative: false,
        };
        self.entities.bind(name, entity)?;
        let c_type = CType::new(words.to_vec(alloc)?);
        self.names.bind(name, Meaning::Named(what, c_type))
    }

    fn add_size_type(&mut self, alloc: Global) -> Result<(), AllocError>
        ensures { OnOk result
            (environment_of self.new ≡ with_size_type (environment_of self.old)) }
    {
        let words = vec![in alloc; TypeWord::Integer(IntType::UnsignedLong)]?;
        self.names
            .bind(b"size_t", Meaning::Typedef(CType::new(words)))
    }
}
