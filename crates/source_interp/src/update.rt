//! Scalars that are updated (C99 6.5.2.4, 6.5.3.1, 6.5.16.2).

ghost use Rattle.std.specs.Prelude.{◌≡◌};
ghost use Rattle.source_meaning.specs.Actions.{update, update_plain, updated};
ghost use Rattle.source_interp.specs.declared.machine.Machine.{Machine as OfMachine};
ghost use Rattle.source_interp.specs.Standing.{ActsAlone, ActsTraced};

use crate::machine::Machine;
use crate::stop::{Cause, Stop};
use crate::trace::Trace;
use crate::value::{given, updated};
use c_tree::{Fixity, Update};
use obj_memory::{Scalar, Value};

/// How a scalar is updated: the operator, the scalar, and whether the new value is given or the old one.
#[derive(Clone, Copy)]
pub struct Updating {
    pub update: Update,
    pub scalar: Scalar,
    pub fixity: Fixity,
}

// The new value of a scalar that is updated, at the line of the operator.
#[tactic(auto, using(crate::proofs::Updates::updates))]
fn new_value(
    update: Update,
    scalar: Scalar,
    right: Value,
    old: Value,
    line: u32,
) -> Result<Value, Stop>
    ensures { (m : OfMachine) → ActsAlone m m result (updated update scalar right line old) }
{
    match updated(update, scalar, right, old) {
        Some(value) => Ok(value),
        None => Err(Stop::Ended(Cause::Divide, line)),
    }
}

impl Machine {
    /// A scalar is judged once, at the line of the place, read, updated at the line of the operator, and written (C99
    /// 6.5.16.2).
    pub fn update<T: Trace>(
        &mut self,
        trace: &mut T,
        updating: Updating,
        is_judged: bool,
        pointer: Value,
        right: Value,
        place_line: u32,
        line: u32,
    ) -> Result<Value, Stop>
        ensures { ActsTraced self.old self.new (T.noted trace.old) (T.noted trace.new) result
            (update updating.scalar is_judged pointer place_line (updated updating.update updating.scalar right line)
            updating.fixity) }
    {
        let scalar = updating.scalar;
        let place = self.located(is_judged, scalar.size(), pointer, place_line)?;
        let old = self.read_scalar(trace, scalar, pointer.word, place)?;
        let new = new_value(updating.update, scalar, right, old, line)?;
        self.write_scalar(trace, scalar, pointer.word, place, new)?;
        Ok(given(updating.fixity, old, new))
    }

    /// A plain variable is updated at a line.
    pub fn update_plain(
        &mut self,
        updating: Updating,
        variable: usize,
        right: Value,
        line: u32,
    ) -> Result<Value, Stop>
        ensures { ActsAlone self.old self.new result
            (update_plain variable (updated updating.update updating.scalar right line) updating.fixity) }
    {
        let old = self.plain_value(variable);
        let new = new_value(updating.update, updating.scalar, right, old, line)?;
        self.set_plain(variable, new);
        Ok(given(updating.fixity, old, new))
    }
}
