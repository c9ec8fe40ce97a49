//! The scope of the parameters of a function declarator (C99 6.2.1 paragraph 4).

ghost use Rattle.std.specs.Prelude.{◌≡◌, OnOk};
ghost use Rattle.c_scope.specs.Environment.{environment_of};
ghost use Rattle.c_scope.specs.Parameters.{parameters_in, scope_of, with_parameters, without_parameters};

use crate::environment::Environment;
use crate::meaning::{Meaning, Tag};
use crate::names::Names;
use std::alloc::{AllocError, Global};

/// What the parameters of a function declarator declare.
#[derive(Drop)]
pub struct ParameterScope<'a> {
    /// Their names.
    pub names: Names<'a, Meaning>,
    /// The tags among their types.
    pub tags: Names<'a, Tag>,
    /// How many variables the function has with them.
    pub variables: usize,
}

impl<'a> Environment<'a> {
    ghost use Rattle.std.specs.Prelude.{◌≡◌, OnOk};
    ghost use Rattle.c_scope.specs.Environment.{environment_of};
    ghost use Rattle.c_scope.specs.Parameters.{parameters_in, scope_of, with_parameters, without_parameters};

    /// Leaves the scope of parameters. The function around it, if there is one, has as many variables as are given.
    pub fn leave_parameters(&mut self, alloc: Global, before: usize) -> ParameterScope<'a>
        ensures given { scope_of result ≡ parameters_in (environment_of self.old) }
        ensures left { environment_of self.new ≡ without_parameters before (environment_of self.old) }
    {
        let names = self.names.leave(alloc);
        let tags = self.tags.leave(alloc);
        let variables = self.variables;
        self.variables = before;
        ParameterScope {
            names,
            tags,
            variables,
        }
    }

    /// Enters the scope of the parameters of a function whose block begins.
    pub fn enter_parameters(&mut self, parameters: ParameterScope<'a>) -> Result<(), AllocError>
        ensures { OnOk result (environment_of self.new
            ≡ with_parameters (scope_of parameters.entry) (environment_of self.old)) }
    {
        let ParameterScope {
            names,
            tags,
            variables,
        } = parameters;
        self.names.enter(names)?;
        self.tags.enter(tags)?;
        self.variables = variables;
        Ok(())
    }
}
