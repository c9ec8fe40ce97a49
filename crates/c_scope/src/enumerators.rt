//! Enumerators (C99 6.7.2.2).

ghost use Rattle.c_scope.specs.Environment.{Leads, environment_of};
ghost use Rattle.c_scope.specs.Enumerators.{enumerated};

use crate::environment::Environment;
use crate::meaning::Meaning;
use c_faults::{Fault, Refusal, Rule};
use sb_base::Line;

impl<'a> Environment<'a> {
    ghost use Rattle.c_scope.specs.Environment.{Leads, environment_of};
    ghost use Rattle.c_scope.specs.Enumerators.{enumerated};

    /// Declares an enumerator whose value, where it is a constant that is an int, has this word. The rule on names that
    /// are declared again is violated where its scope has another meaning for the name, then that on constants where
    /// there is no such value.
    pub fn enumerate(
        &mut self,
        name: &'a [u8],
        line: Line,
        value: Option<u64>,
    ) -> Result<(), Refusal>
        ensures { Leads (environment_of self.new) result
            (enumerated name.now line value (environment_of self.old)) }
    {
        if self.names.here(name).is_some() {
            let rule = Rule::Redeclared;
            return Err(Refusal::Fault(Fault { rule, line }));
        }
        let Some(word) = value else {
            let rule = Rule::NoConstant;
            return Err(Refusal::Fault(Fault { rule, line }));
        };
        self.names.bind(name, Meaning::Constant(word))?;
        Ok(())
    }
}
