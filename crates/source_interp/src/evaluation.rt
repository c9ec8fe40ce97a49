//! The actions of expressions: operands are taken from the values found so far, and what is found is left there.

ghost use Rattle.std.specs.Prelude.{◌≡◌, ◌∷◌, Ok, OnOk};
ghost use Rattle.source_meaning.specs.State.{done};
ghost use Rattle.source_meaning.specs.Actions.{difference_value, operate};
ghost use Rattle.source_meaning.specs.Calls.{first_of, rest_of};
ghost use Rattle.interpreter_tasks.specs.Actions as action;
ghost use Rattle.source_interp.specs.declared.machine.Machine.{Machine as OfMachine};
ghost use Rattle.source_interp.specs.Performing.{Fails, PerformsAlone, PerformsTraced};
ghost use Rattle.source_interp.specs.Standing.{ActsAlone};

use crate::automatic::size_of;
use crate::found::{Found, Values};
use crate::machine::Machine;
use crate::stop::{Cause, Fault, Stop};
use crate::trace::Trace;
use crate::update::Updating;
use crate::value::{converted, difference_value, integer, offset_value, operate, truth};
use c_tree::{Kind, OffsetForm};
use obj_memory::{BinaryOperator, IntType, UnaryOperator, Value};
use std::alloc::Global;

/// A run, with the values that were found so far.
#[derive(Drop)]
pub struct Evaluation {
    pub machine: Machine,
    pub values: Values,
}

// A binary operator at a line.
#[tactic(auto, using(crate::proofs::Evaluating::operating))]
fn operated(
    operator: BinaryOperator,
    of: IntType,
    left: Value,
    right: Value,
    line: u32,
) -> Result<Value, Stop>
    ensures { (m : OfMachine) → ActsAlone m m result (operate operator of left right line) }
{
    match operate(operator, of, left, right) {
        Some(value) => Ok(value),
        None => Err(Stop::Ended(Cause::Divide, line)),
    }
}

// The difference of two pointers.
#[tactic(auto, using(crate::proofs::Evaluating::subtracting))]
fn subtracted(size: u64, left: Value, right: Value) -> Result<Value, Stop>
    ensures { (m : OfMachine) → ActsAlone m m result (done (difference_value size left right)) }
{
    match difference_value(size, left, right) {
        Some(value) => Ok(value),
        None => Err(Stop::Failed(Fault::Memory)),
    }
}

impl Evaluation {
    // The value found last, which is taken away; 0 where there is none.
    fn take(&mut self) -> Found
        ensures first { result ≡ first_of self.old.values }
        ensures rest { self.new ≡ record self.old { values = rest_of self.old.values } }
    {
        match self.values.pop() {
            Some(value) => value,
            None => Found::plain(integer(0)),
        }
    }

    // A value found.
    #[tactic(auto, using(crate::proofs::Evaluating::leaving))]
    fn leave(&mut self, value: Found) -> Result<(), Stop>
        ensures left { OnOk result (self.new ≡ record self.old { values = value ∷ self.old.values }) }
        ensures failed { Fails result }
    {
        self.values.push(value)?;
        Ok(())
    }

    /// A value is given.
    pub fn give(&mut self, value: Value) -> Result<(), Stop>
        ensures { PerformsAlone self.old self.new result (action.Give value) }
    {
        self.leave(Found::plain(value))
    }

    /// The value of a plain variable.
    pub fn give_plain(&mut self, variable: usize) -> Result<(), Stop>
        ensures { PerformsAlone self.old self.new result (action.GivePlain variable) }
    {
        let value = self.machine.plain_value(variable);
        self.leave(Found::plain(value))
    }

    /// The pointer to the object of a variable.
    pub fn give_home(&mut self, variable: usize) -> Result<(), Stop>
        ensures { PerformsAlone self.old self.new result (action.GiveHome variable) }
    {
        let pointer = self.machine.home_pointer(variable)?;
        self.leave(Found::plain(pointer))
    }

    /// The pointer to a static object.
    pub fn give_static(&mut self, object: usize) -> Result<(), Stop>
        ensures { PerformsAlone self.old self.new result (action.GiveStatic object) }
    {
        let pointer = self.machine.pointer_to(object)?;
        self.leave(Found::plain(pointer))
    }

    /// What the lvalue found last holds (6.3.2.1 paragraph 2).
    pub fn read<T: Trace>(
        &mut self,
        trace: &mut T,
        kind: Kind,
        is_judged: bool,
        line: u32,
    ) -> Result<(), Stop>
        ensures { PerformsTraced self.old self.new (T.noted trace.old) (T.noted trace.new) result
            (action.Read kind is_judged line) }
    {
        let from = self.take();
        let value = self
            .machine
            .read_rvalue(trace, kind, is_judged, from, line)?;
        self.leave(value)
    }

    /// The value found last without its contents.
    pub fn as_pointer(&mut self) -> Result<(), Stop>
        ensures { PerformsAlone self.old self.new result action.AsPointer }
    {
        let found = self.take();
        self.leave(Found::plain(found.value()))
    }

    /// It is converted to a kind (6.3).
    pub fn convert(&mut self, kind: Kind) -> Result<(), Stop>
        ensures { PerformsAlone self.old self.new result (action.Convert kind) }
    {
        let found = self.take();
        self.leave(Found::plain(converted(kind, found.value())))
    }

    /// It is the operand of an operator (6.5.3.3).
    pub fn apply(&mut self, operator: UnaryOperator, of: IntType) -> Result<(), Stop>
        ensures { PerformsAlone self.old self.new result (action.Apply operator of) }
    {
        let found = self.take();
        let word = operator.apply(of, found.value().word);
        self.leave(Found::plain(integer(word)))
    }

    /// Whether it is not zero.
    pub fn truth(&mut self) -> Result<(), Stop>
        ensures { PerformsAlone self.old self.new result action.Truth }
    {
        let found = self.take();
        self.leave(Found::plain(truth(found.value())))
    }

    /// A member of what it points to (6.5.2.3).
    pub fn narrow(&mut self, offset: u64, size: u64) -> Result<(), Stop>
        ensures { PerformsAlone self.old self.new result (action.Narrow offset size) }
    {
        let found = self.take();
        self.leave(Found::plain(found.value().narrowed(offset, size)))
    }

    /// A member of it, which may have contents (6.5.2.3).
    pub fn member(&mut self, offset: u64, size: u64) -> Result<(), Stop>
        ensures { PerformsAlone self.old self.new result (action.Member offset size) }
    {
        let value = self.take();
        self.leave(value.member(offset, size))
    }

    /// The two values found last are the operands of an operator (6.5.5 to 6.5.14).
    pub fn operate(&mut self, operator: BinaryOperator, of: IntType, line: u32) -> Result<(), Stop>
        ensures { PerformsAlone self.old self.new result (action.Operate operator of line) }
    {
        let right = self.take();
        let left = self.take();
        let value = operated(operator, of, left.value(), right.value(), line)?;
        self.leave(Found::plain(value))
    }

    /// They are a pointer and an index (6.5.6 paragraph 8).
    pub fn offset(&mut self, form: OffsetForm, size: u64) -> Result<(), Stop>
        ensures { PerformsAlone self.old self.new result (action.Offset form size) }
    {
        let right = self.take();
        let left = self.take();
        self.leave(Found::plain(offset_value(form, size, left.value(), right.value())))
    }

    /// They are pointers whose difference is sought (6.5.6 paragraph 9).
    pub fn subtract(&mut self, size: u64) -> Result<(), Stop>
        ensures { PerformsAlone self.old self.new result (action.Difference size) }
    {
        let right = self.take();
        let left = self.take();
        let value = subtracted(size, left.value(), right.value())?;
        self.leave(Found::plain(value))
    }

    /// The value found last is let go.
    pub fn drop_value(&mut self)
        ensures { PerformsAlone self.old self.new (Ok tt) action.Drop }
    {
        self.take();
    }

    /// It is stored through the pointer found before it (6.5.16.1).
    pub fn write<T: Trace>(
        &mut self,
        trace: &mut T,
        kind: Kind,
        is_judged: bool,
        line: u32,
    ) -> Result<(), Stop>
        ensures { PerformsTraced self.old self.new (T.noted trace.old) (T.noted trace.new) result
            (action.Write kind is_judged line) }
    {
        let value = self.take();
        let pointer = self.take();
        let stored = self
            .machine
            .write_rvalue(trace, kind, is_judged, pointer.value(), line, value)?;
        self.leave(stored)
    }

    /// It is stored in a plain variable (6.5.16.1).
    pub fn set_plain(&mut self, variable: usize) -> Result<(), Stop>
        ensures { PerformsAlone self.old self.new result (action.SetPlain variable) }
    {
        let value = self.take();
        let stored = value.value();
        self.machine.set_plain(variable, stored);
        self.leave(Found::plain(stored))
    }

    /// What is there is updated by it, through the pointer found before it (6.5.16.2).
    pub fn change<T: Trace>(
        &mut self,
        trace: &mut T,
        updating: Updating,
        is_judged: bool,
        place_line: u32,
        line: u32,
    ) -> Result<(), Stop>
        ensures { PerformsTraced self.old self.new (T.noted trace.old) (T.noted trace.new) result
            (action.Change updating.update updating.scalar is_judged place_line line updating.fixity) }
    {
        let right = self.take();
        let pointer = self.take();
        let value = self.machine.update(
            trace,
            updating,
            is_judged,
            pointer.value(),
            right.value(),
            place_line,
            line,
        )?;
        self.leave(Found::plain(value))
    }

    /// A plain variable is updated by it (6.5.16.2).
    pub fn change_plain(
        &mut self,
        updating: Updating,
        variable: usize,
        line: u32,
    ) -> Result<(), Stop>
        ensures { PerformsAlone self.old self.new result
            (action.ChangePlain updating.update updating.scalar variable line updating.fixity) }
    {
        let right = self.take();
        let value = self
            .machine
            .update_plain(updating, variable, right.value(), line)?;
        self.leave(Found::plain(value))
    }

    /// It is an argument or a result, of a structure with its contents (6.5.2.2 paragraph 4).
    pub fn take_contents(&mut self, alloc: Global, kind: Kind, line: u32) -> Result<(), Stop>
        ensures { PerformsAlone self.old self.new result (action.Take kind line) }
    {
        let value = self.take();
        let taken = self.machine.take_value(alloc, kind, line, value)?;
        self.leave(taken)
    }

    /// Some work is done.
    pub fn count(&mut self, work: u64)
        ensures { PerformsAlone self.old self.new (Ok tt) (action.Count work) }
    {
        self.machine.tally(work);
    }

    /// The object of a variable becomes zero (6.7.8 paragraph 21).
    pub fn zero(&mut self, variable: usize) -> Result<(), Stop>
        ensures { PerformsAlone self.old self.new result (action.Zero variable) }
    {
        self.machine.zero_variable(variable)
    }

    /// It is stored in a part of the object that the pointer found before it points to, which stays (6.7.8).
    pub fn store_part<T: Trace>(
        &mut self,
        trace: &mut T,
        kind: Kind,
        offset: u64,
        line: u32,
    ) -> Result<(), Stop>
        ensures { PerformsTraced self.old self.new (T.noted trace.old) (T.noted trace.new) result
            (action.StorePart kind offset line) }
    {
        let value = self.take();
        let object = self.values.last();
        let place = object.narrowed(offset, size_of(kind));
        self.machine
            .write_rvalue(trace, kind, false, place, line, value)?;
        Ok(())
    }

    /// The bytes of a literal are stored in the object that the pointer found last points to (6.7.8 paragraph 14).
    pub fn store_literal<T: Trace>(
        &mut self,
        trace: &mut T,
        offset: u64,
        bytes: &[u8],
    ) -> Result<(), Stop>
        ensures { PerformsTraced self.old self.new (T.noted trace.old) (T.noted trace.new) result
            (action.StoreLiteral offset bytes.now) }
    {
        let object = self.values.last();
        self.machine.store_literal(trace, object, offset, bytes)
    }
}
